// Cases with what a bias adds to them.
ghost use Rattle.std.specs.Prelude.{◌≡◌, ◌&&◌, ◌||◌, IfOk, OnOk, length};
ghost use Rattle.std.specs.List.{list_all, list_any};
ghost use Rattle.dom_set.specs.Elements.{is_in};
ghost use Rattle.rv_isa.specs.declared.operation.Op.{Op};
ghost use Rattle.fd_prob.specs.declared.problem.Assignment.{Assignment};
ghost use Rattle.fd_prob.specs.Extras.{cut_by_all, extended_case};
ghost use Rattle.fd_prob.specs.Fitting.{IsCase};
ghost use Rattle.fd_prob.specs.Relations.{holds, is_in_row, value_of};
ghost use Rattle.case_search.specs.Equivalent.{IsEquivalent};
ghost use Rattle.fd_narrow.specs.Narrowing.{IsInside, domain_in};

use dom_set::{OutOfMemory, Set};
use fd_prob::{Case, Extra, Items, Quad, Rel, Slot};
use std::alloc::Global;

/// Cuts domains of variables to what is in sets.
pub fn cut_by_all(
    doms: &mut Vec<Set>,
    alloc: Global,
    cuts: &[(Slot, Set)],
) -> Result<(), OutOfMemory>
    requires { length doms.old.items ≡ 14 }
    ensures { OnOk result (doms.new.items ≡ cut_by_all cuts.now doms.old.items) }
{
    for (slot, set) in cuts {
        let place = slot.number();
        let cut = doms[place].and(alloc, set)?;
        doms[place] = cut;
    }
    Ok(())
}

/// The domain of a variable.
fn domain(doms: &[Set], slot: Slot) -> &Set
    requires { length doms.now ≡ 14 }
    ensures { result.now ≡ domain_in doms.now slot }
{
    &doms[slot.number()]
}

/// What a set has of the domain of a variable.
fn met(alloc: Global, doms: &[Set], slot: Slot, set: &Set) -> Result<Set, OutOfMemory>
    requires { length doms.now ≡ 14 }
    ensures { IfOk result (λ made. (x : Assignment) → IsInside doms.now x → is_in made (value_of x slot) ≡ is_in set.now (value_of x slot)) }
{
    domain(doms, slot).and(alloc, set)
}

/// Appends what a row has of the domains, if it has something of each. Page table entries come first: they tell rows apart
/// at once, where addresses are in a thousand pieces.
fn push_met(
    rows: &mut Vec<Quad>,
    alloc: Global,
    doms: &[Set],
    row: &Quad,
) -> Result<(), OutOfMemory>
    requires { length doms.now ≡ 14 }
    ensures { OnOk result ((x : Assignment) → IsInside doms.now x → list_any (is_in_row x) rows.new.items ≡ (list_any (is_in_row x) rows.old.items || is_in_row x row.now)) }
{
    let root = met(alloc, doms, Slot::FirstPte, &row.root)?;
    if root.is_empty() {
        return Ok(());
    }
    let leaf = met(alloc, doms, Slot::SecondPte, &row.leaf)?;
    if leaf.is_empty() {
        return Ok(());
    }
    let ea = met(alloc, doms, Slot::Ea, &row.ea)?;
    if ea.is_empty() {
        return Ok(());
    }
    let word = row.word.copy(alloc)?;
    rows.push(Quad {
        ea,
        root,
        leaf,
        word,
    })?;
    Ok(())
}

/// What rows have of the domains.
fn met_rows(alloc: Global, doms: &[Set], rows: &[Quad]) -> Result<Vec<Quad>, OutOfMemory>
    requires { length doms.now ≡ 14 }
    ensures { IfOk result (λ made. (x : Assignment) → IsInside doms.now x → list_any (is_in_row x) made.items ≡ list_any (is_in_row x) rows.now) }
{
    let mut made = Vec::new(alloc);
    for row in rows {
        push_met(&mut made, alloc, doms, row)?;
    }
    Ok(made)
}

/// The relation as far as it matters in these domains: of rows just what they have of them.
fn met_rel(alloc: Global, doms: &[Set], rel: &Rel) -> Result<Rel, OutOfMemory>
    requires { length doms.now ≡ 14 }
    ensures { IfOk result (λ made. (op : Op) (x : Assignment) → IsInside doms.now x → holds op x made ≡ holds op x rel.now) }
{
    match rel {
        Rel::Rows(rows) => {
            let made = met_rows(alloc, doms, rows.as_slice())?;
            Ok(Rel::Rows(Items::from_vec(made)))
        }
        _ => Ok(rel.copy(alloc)?),
    }
}

/// Appends relations as far as they matter in these domains.
fn push_met_rels(
    rels: &mut Vec<Rel>,
    alloc: Global,
    doms: &[Set],
    more: &[Rel],
) -> Result<(), OutOfMemory>
    requires { length doms.now ≡ 14 }
    ensures { OnOk result ((op : Op) (x : Assignment) → IsInside doms.now x → list_all (holds op x) rels.new.items ≡ (list_all (holds op x) rels.old.items && list_all (holds op x) more.now)) }
{
    for rel in more {
        rels.push(met_rel(alloc, doms, rel)?)?;
    }
    Ok(())
}

/// A case that stands for the case with what a bias adds to it. Where it does not stay it has a relation that never holds.
pub fn extended_case(
    alloc: Global,
    case: Case,
    bias: &Extra,
    stays: bool,
) -> Result<Case, OutOfMemory>
    requires { IsCase case }
    ensures { IfOk result (IsEquivalent (extended_case bias.now stays case)) }
{
    let Case { op, doms, rels } = case;
    let mut doms = doms.into_vec();
    let mut rels = rels.into_vec();
    cut_by_all(&mut doms, alloc, bias.cuts.as_slice())?;
    if stays {
        push_met_rels(&mut rels, alloc, &doms, bias.rels.as_slice())?;
    } else {
        rels.push(Rel::Rows(Items::new(alloc)))?;
    }
    Ok(Case {
        op,
        doms: Items::from_vec(doms),
        rels: Items::from_vec(rels),
    })
}
