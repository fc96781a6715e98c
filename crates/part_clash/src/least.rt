// The least clash of a step.
ghost use Rattle.std.specs.Prelude.{◌≡◌, ◌⊎◌, false, All, IfSome, IfNone, IsTrue};
ghost use Rattle.rv_hart.specs.Effects.{IsInWord};
ghost use Rattle.foot_map.specs.Order.{rank};
ghost use Rattle.foot_map.specs.Touches.{has};
ghost use Rattle.foot_map.specs.Races.{IsNotAfter};
ghost use Rattle.part_clash.specs.Clashes.{IsLeastStepClash, HasNoStepClash};
ghost use Rattle.part_clash.specs.Internal.Parts.{IsLeastWith, IsOwnClash, IsAccessClash};

use foot_map::{Clash, FootMap, breaks};
use rv_script::{Access, Role};

/// The place of a role in the order of roles.
fn rank(role: Role) -> u8
    ensures { result ≡ rank role }
{
    match role {
        Role::Fetch => 0,
        Role::Walk => 1,
        Role::Load => 2,
        Role::Store => 3,
    }
}

/// Whether the first comes before the second, by byte, hart and role.
fn is_before(c: &Clash, d: &Clash) -> bool
    ensures before { IsTrue result → IsNotAfter d.now c.now → ⊥ }
    ensures not_before { result ≡ false → IsNotAfter d.now c.now }
{
    if c.byte != d.byte {
        return c.byte < d.byte;
    }
    if c.hart != d.hart {
        return c.hart < d.hart;
    }
    rank(c.role) < rank(d.role)
}

/// The lesser one, where there are two.
fn lesser(best: Option<Clash>, found: Option<Clash>) -> Option<Clash>
    ensures one { (result ≡ best) ⊎ (result ≡ found) }
    ensures least { IfSome result (λ c. IfSome best (IsNotAfter c) × IfSome found (IsNotAfter c)) }
    ensures none { IfNone result ((best ≡ None) × (found ≡ None)) }
{
    match (best, found) {
        (Some(c), Some(d)) => Some(if is_before(&d, &c) { d } else { c }),
        (Some(c), None) => Some(c),
        (None, found) => found,
    }
}

/// The first byte of another access of the hart with which an access would race.
fn own_clash(hart: u8, x: &Access, y: &Access) -> Option<Clash>
    ensures { IsLeastWith (IsOwnClash hart x.now y.now) result }
{
    if !breaks(true, y.role, x.role) || x.addr / 4 != y.addr / 4 {
        return None;
    }
    let byte = x.addr.max(y.addr);
    if u64::from(byte) < u64::from(x.addr) + u64::from(x.size)
        && u64::from(byte) < u64::from(y.addr) + u64::from(y.size)
    {
        Some(Clash {
            byte,
            hart,
            role: y.role,
        })
    } else {
        None
    }
}

/// The least triple with which an access would race: of the footprint, or of the hart's accesses.
fn clash_of(feet: &FootMap, hart: u8, x: &Access, accesses: &[Access]) -> Option<Clash>
    requires { IsInWord x.now }
    ensures { IsLeastWith (IsAccessClash (has feet.now) hart accesses.now x.now) result }
{
    let mut best = feet.may(hart, x.role, x.addr, x.size);
    for y in accesses {
        best = lesser(best, own_clash(hart, x, y));
    }
    best
}

/// The least triple with which one of a step's accesses would race.
pub fn least_clash(feet: &FootMap, hart: u8, accesses: &[Access]) -> Option<Clash>
    requires { All IsInWord accesses.now }
    ensures some { IfSome result (IsLeastStepClash (has feet.now) hart accesses.now) }
    ensures none { IfNone result (HasNoStepClash (has feet.now) hart accesses.now) }
{
    let mut best = None;
    for x in accesses {
        best = lesser(best, clash_of(feet, hart, x, accesses));
    }
    best
}
