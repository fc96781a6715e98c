// Cases of which nothing is seen to meet a bias, before they are copied or narrowed for it.
ghost use Rattle.std.specs.Prelude.{◌≡◌, ◌≤◌, IfOk, false, length, true};
ghost use Rattle.std.specs.List.{list_all, list_any};
ghost use Rattle.dom_set.specs.Elements.{is_in};
ghost use Rattle.rv_isa.specs.declared.operation.Op.{Op};
ghost use Rattle.fd_prob.specs.declared.problem.Assignment.{Assignment};
ghost use Rattle.fd_prob.specs.Fitting.{IsCase, fits_case, is_within};
ghost use Rattle.fd_prob.specs.Relations.{holds, is_in_row, value_of};
ghost use Rattle.fd_solve.specs.Internal.Marks.{marked_case};
ghost use Rattle.fd_solve.specs.Internal.Meeting.{is_in_cut, meets_bias};

use crate::refused::stays;
use dom_set::{OutOfMemory, Set};
use fd_prob::{Case, Extra, Quad, Rel, Slot};
use std::alloc::Global;

/// Whether a variable's domain has nothing of a set.
fn misses(alloc: Global, case: &Case, slot: Slot, set: &Set) -> Result<bool, OutOfMemory>
    requires { IsCase case.now }
    ensures { IfOk result (λ off. off ≡ true → (x : Assignment) → is_within case.now x ≡ true → is_in set.now (value_of x slot) ≡ false) }
{
    let both = case.domain(slot).and(alloc, set)?;
    Ok(both.is_empty())
}

/// Whether a variable's domain has nothing of what a bias cuts it to.
fn is_cut_off(alloc: Global, case: &Case, cuts: &[(Slot, Set)]) -> Result<bool, OutOfMemory>
    requires { IsCase case.now }
    ensures { IfOk result (λ off. off ≡ true → (x : Assignment) → is_within case.now x ≡ true → list_all (is_in_cut x) cuts.now ≡ false) }
{
    for (slot, set) in cuts {
        if misses(alloc, case, *slot, set)? {
            return Ok(true);
        }
    }
    Ok(false)
}

/// Whether a domain has nothing of what a row says of its variable. Page table entries come first: they tell rows apart at once.
fn is_row_off(alloc: Global, case: &Case, row: &Quad) -> Result<bool, OutOfMemory>
    requires { IsCase case.now }
    ensures { IfOk result (λ off. off ≡ true → (x : Assignment) → is_within case.now x ≡ true → is_in_row x row.now ≡ false) }
{
    if misses(alloc, case, Slot::FirstPte, &row.root)? {
        return Ok(true);
    }
    if misses(alloc, case, Slot::SecondPte, &row.leaf)? {
        return Ok(true);
    }
    let off = misses(alloc, case, Slot::Ea, &row.ea)?;
    Ok(off)
}

/// The same of each of the rows.
fn are_rows_off(alloc: Global, case: &Case, rows: &[Quad]) -> Result<bool, OutOfMemory>
    requires { IsCase case.now }
    ensures { IfOk result (λ off. off ≡ true → (x : Assignment) → is_within case.now x ≡ true → list_any (is_in_row x) rows.now ≡ false) }
{
    for row in rows {
        if !is_row_off(alloc, case, row)? {
            return Ok(false);
        }
    }
    Ok(true)
}

/// Whether the domains have nothing of the rows of a relation.
fn is_rel_off(alloc: Global, case: &Case, rel: &Rel) -> Result<bool, OutOfMemory>
    requires { IsCase case.now }
    ensures { IfOk result (λ off. off ≡ true → (op : Op) (x : Assignment) → is_within case.now x ≡ true → holds op x rel.now ≡ false) }
{
    match rel {
        Rel::Rows(rows) => are_rows_off(alloc, case, rows.as_slice()),
        _ => Ok(false),
    }
}

/// The same of one of the relations.
fn is_any_rel_off(alloc: Global, case: &Case, rels: &[Rel]) -> Result<bool, OutOfMemory>
    requires { IsCase case.now }
    ensures { IfOk result (λ off. off ≡ true → (op : Op) (x : Assignment) → is_within case.now x ≡ true → list_all (holds op x) rels.now ≡ false) }
{
    for rel in rels {
        if is_rel_off(alloc, case, rel)? {
            return Ok(true);
        }
    }
    Ok(false)
}

/// Whether nothing of the case at a place is seen to meet a bias.
fn is_barred_by(alloc: Global, case: &Case, place: usize, bias: &Extra) -> Result<bool, OutOfMemory>
    requires { IsCase case.now }
    ensures { IfOk result (λ barred. barred ≡ true → (op : Op) (x : Assignment) → is_within case.now x ≡ true → meets_bias op x place bias.now ≡ false) }
{
    if !stays(bias, place) {
        return Ok(true);
    }
    if is_cut_off(alloc, case, bias.cuts.as_slice())? {
        return Ok(true);
    }
    let off = is_any_rel_off(alloc, case, bias.rels.as_slice())?;
    Ok(off)
}

/// Whether nothing of the case at a place is seen to meet one of the marked biases.
pub fn is_barred(
    alloc: Global,
    biases: &[Extra],
    marks: &[bool],
    case: &Case,
    place: usize,
) -> Result<bool, OutOfMemory>
    requires case { IsCase case.now }
    requires marks { length marks.now ≤ length biases.now }
    ensures { IfOk result (λ barred. barred ≡ true → (x : Assignment) → fits_case x (marked_case marks.now biases.now place case.now) ≡ false) }
{
    for (i, mark) in marks.iter().enumerate() {
        if *mark && is_barred_by(alloc, case, place, &biases[i])? {
            return Ok(true);
        }
    }
    Ok(false)
}
