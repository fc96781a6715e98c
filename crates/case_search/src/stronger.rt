// Cases with relations that tell more at once.
ghost use Rattle.std.specs.Prelude.{◌≡◌, ◌↔◌, ◌<◌, ◌||◌, IfOk, IsTrue, count_by, false, nat_lt};
ghost use Rattle.std.specs.List.{list_any};
ghost use Rattle.rv_isa.specs.declared.operation.Op.{Op};
ghost use Rattle.fd_narrow.specs.Narrowing.{AllHold};
ghost use Rattle.fd_prob.specs.declared.problem.Assignment.{Assignment};
ghost use Rattle.fd_prob.specs.declared.slot.Slot.TheVariants as slots;
ghost use Rattle.fd_prob.specs.Relations.{is_same};
ghost use Rattle.case_search.specs.Internal.Stronger.{AreJoined, IsAlike, equates, is_link, is_target, lacks_value};

use crate::classes::is_one_register;
use crate::targets::with_one_target;
use dom_set::OutOfMemory;
use fd_prob::{Case, Items, Rel, Slot, copy_sets};
use std::alloc::Global;

/// Whether the relation is one of a jump's target.
fn is_target(rel: &Rel) -> bool
    ensures { result ≡ is_target rel.now }
{
    matches!(rel, Rel::Target(_, _))
}

/// Whether more than one relation is one of a jump's target.
fn have_several_targets(rels: &[Rel]) -> bool
    ensures { IsTrue result ↔ (1 < count_by is_target rels.now) }
{
    rels.iter().filter(|rel| is_target(rel)).count() > 1
}

/// Whether the relation says that one register has one value.
fn is_link(rel: &Rel) -> bool
    ensures { result ≡ is_link rel.now }
{
    matches!(rel, Rel::Linked)
}

/// Whether some relation says that one register has one value.
pub fn some_links(rels: &[Rel]) -> bool
    ensures { result ≡ list_any is_link rels.now }
{
    rels.iter().any(is_link)
}

/// Whether the relation says that both variables have one value.
fn equates(s: Slot, t: Slot, rel: &Rel) -> bool
    ensures { result ≡ equates s t rel.now }
{
    match rel {
        Rel::Same(a, b) => {
            (a.number() == s.number() && b.number() == t.number())
                || (a.number() == t.number() && b.number() == s.number())
        }
        _ => false,
    }
}

/// Whether some relation says that both variables have one value.
fn some_equates(s: Slot, t: Slot, rels: &[Rel]) -> bool
    ensures { result ≡ list_any (equates s t) rels.now }
{
    rels.iter().any(|rel| equates(s, t, rel))
}

/// Whether one register has one value and both registers are the same, but no relation says that their values are.
fn lacks_value(rels: &[Rel]) -> bool
    ensures { result ≡ lacks_value rels.now }
{
    some_links(rels)
        && some_equates(Slot::Rs1, Slot::Rs2, rels)
        && !some_equates(Slot::A, Slot::B, rels)
}

/// Whether both registers are the same, also through other variables, but no relation says that their values are.
fn may_add_value(rels: &[Rel]) -> bool
    ensures lacking { IsTrue (lacks_value rels.now) → IsTrue result }
    ensures same { IsTrue result → (op : Op) (x : Assignment) → AllHold op rels.now x → IsTrue (is_same x slots.A slots.B) }
{
    lacks_value(rels) || (is_one_register(rels) && !some_equates(Slot::A, Slot::B, rels))
}

/// Whether there is something to join, or to add, in `stronger`.
pub fn can_be_stronger(case: &Case) -> bool
    ensures { IsTrue (nat_lt 1 (count_by is_target case.now.rels) || lacks_value case.now.rels) → IsTrue result }
{
    let rels = case.rels.as_slice();
    have_several_targets(rels) || may_add_value(rels)
}

/// The same case in memory of its own, with relations from which more follows at once: those of a jump's target are
/// one, and where both registers are the same, their values are.
pub fn stronger(alloc: Global, case: &Case) -> Result<Case, OutOfMemory>
    ensures alike { IfOk result (IsAlike case.now) }
    ensures targets { IfOk result (λ made. AreJoined case.now.rels made.rels) }
    ensures values { IfOk result (λ made. lacks_value made.rels ≡ false) }
{
    let mut rels = with_one_target(alloc, case.rels.as_slice())?;
    if may_add_value(rels.as_slice()) {
        rels.push(Rel::Same(Slot::A, Slot::B))?;
    }
    let doms = copy_sets(alloc, case.doms.as_slice())?;
    Ok(Case {
        op: case.op,
        doms: Items::from_vec(doms),
        rels,
    })
}
