// One byte of a footprint.
ghost use Rattle.std.specs.Prelude.{◌≡◌};
ghost use Rattle.foot_map.specs.Order.{rank};

use rv_script::Role;
use std::cmp::Ordering;

/// A byte that a hart touches in a role. Touches are in the order of their bytes, on one byte of
/// their harts, and then of their roles: fetch, walk, load, store.
#[derive(Clone, Copy, Debug)]
pub struct Touch {
    /// The physical address.
    pub byte: u32,
    pub hart: u8,
    pub role: Role,
}

/// The place of a role in the order.
fn rank(role: Role) -> u8
    ensures { result ≡ rank role }
{
    match role {
        Role::Fetch => 0,
        Role::Walk => 1,
        Role::Load => 2,
        Role::Store => 3,
    }
}

impl PartialEq for Touch {
    ghost use Rattle.std.proofs.Common.{rules};
    ghost use Rattle.std.specs.Cmp.{partial_equiv_from_equiv};
    ghost use Rattle.std.specs.Cmp.Rules.{comparing};
    ghost use Rattle.std.specs.Ordering.{eq_by_cmp};
    ghost use Rattle.foot_map.specs.Order.{by_place};

    ghost eq = { eq_by_cmp by_place };

    ghost laws = { partial_equiv_from_equiv (Prim.search (comparing, rules)) };

    fn eq(&self, other: &Touch) -> bool {
        self.cmp(other) == Ordering::Equal
    }
}

impl Eq for Touch {
    ghost use Rattle.std.proofs.Common.{rules};
    ghost use Rattle.std.specs.Cmp.Rules.{comparing};

    ghost laws = { Prim.search (comparing, rules) };
}

impl PartialOrd for Touch {
    ghost use Rattle.std.proofs.Common.{rules};
    ghost use Rattle.std.specs.Cmp.{partial_order_from_own_ties};
    ghost use Rattle.std.specs.Cmp.Rules.{comparing};
    ghost use Rattle.std.specs.Ordering.{as_partial_cmp};
    ghost use Rattle.foot_map.specs.Order.{by_place};

    ghost partial_cmp = { as_partial_cmp by_place };

    ghost laws = { partial_order_from_own_ties (Prim.search (comparing, rules)) (Prim.search (comparing, rules)) };

    fn partial_cmp(&self, other: &Touch) -> Option<Ordering> {
        Some(self.cmp(other))
    }
}

impl Ord for Touch {
    ghost use Rattle.std.proofs.Common.{rules, refl};
    ghost use Rattle.std.specs.Cmp.Rules.{comparing};
    ghost use Rattle.foot_map.specs.Order.{by_place};

    ghost cmp = { by_place };

    ghost total = { Prim.search (comparing, rules) };

    ghost matches_partial_cmp = { λ x y. refl };

    ghost matches_eq = { Prim.search (comparing, rules) };

    fn cmp(&self, other: &Touch) -> Ordering {
        self.byte
            .cmp(&other.byte)
            .then(self.hart.cmp(&other.hart))
            .then(rank(self.role).cmp(&rank(other.role)))
    }
}
