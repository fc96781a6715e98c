// What a bias adds to the problem of a leaf.

ghost use Rattle.std.specs.Prelude.{◌≡◌, ◌∷◌, ◌&&◌, ◌||◌, ◌↔◌, [], true, List, length, IfOk, IfSome, IsTrue, OnOk};
ghost use Rattle.dom_set.specs.Elements.{is_in};
ghost use Rattle.row_parts.specs.Gaps.{counts};
ghost use Rattle.data_bytes.specs.Sets.{IsSetOf};
ghost use Rattle.leaf_pose.specs.Extras.{AddsAddress, AddsBias, AddsRows, AreAddressRows, AreBiasRelations, AreJoined, in_rows, stays_at, stays_of};
ghost use Rattle.fd_prob.specs.declared.problem.Assignment.{Assignment};
ghost use Rattle.fd_prob.specs.Order.{IsAssignment};
ghost use Rattle.tpl_ast.specs.declared.template.Atom.{Atom as AnAtom};
ghost use Rattle.leaf_pose.specs.Posed.{AreShaped};
ghost use Rattle.leaf_stand.specs.Relations.{are_between};

use crate::problem::Posed;
use crate::relations::push_target;
use data_goals::{DataEnd, DataWay, accesses_are_goals};
use data_ways::{off_diagonal, reaching};
use dom_set::{OutOfMemory, Set};
use fd_prob::{Extra, Items, Quad, Rel};
use leaf_link::{biases_in_cases, ways_are_built};
use leaf_stand::{Aim, Shape, Stand, all_judged, push_atoms, speak_of};
use std::alloc::Global;
use tpl_ast::{Atom, Var};

/// Whether a case of a shape stays: the step has what the atoms speak of, and its outcome passes.
fn stays(stand: &Stand, bias: &[Atom], shape: Shape) -> bool
    ensures { result ≡ stays_at stand.now bias.now shape }
{
    all_judged(shape, bias) && stand.passes(bias, Var::Outcome, shape.end.outcome())
}

/// For each case, whether it stays.
fn staying(
    alloc: Global,
    stand: &Stand,
    bias: &[Atom],
    shapes: &[Shape],
) -> Result<Items<bool>, OutOfMemory>
    ensures { IfOk result (λ stay. stay ≡ stays_of stand.now bias.now shapes.now) }
{
    let mut stay = Items::new(alloc);
    for shape in shapes {
        stay.push(stays(stand, bias, *shape))?;
    }
    Ok(stay)
}

/// Of some addresses those that count, where their two indices may have to differ.
fn counted(alloc: Global, set: Set, apart: bool) -> Result<Set, OutOfMemory>
    ensures { IfOk result (IsSetOf (λ v. counts apart v && is_in set v)) }
{
    if apart {
        let left = off_diagonal(alloc, &set)?;
        return Ok(left);
    }
    Ok(set)
}

/// Whether two sets are one. Where their ends differ, nothing else is compared.
fn are_one(set: &Set, other: &Set) -> bool
    ensures { IsTrue result ↔ (set.now ≡ other.now) }
{
    set.least() == other.least() && set.greatest() == other.greatest() && set == other
}

/// Whether a set of entries has 0 alone: none is new.
fn is_none_new(entries: &Set) -> bool {
    entries.greatest() == Some(0)
}

/// Whether rows with known root entries differ in their addresses alone. Of others the addresses may be in thousands of pieces
/// that lie between each other, which are joined slowly.
fn differ_in_addresses(row: &Quad, other: &Quad) -> bool
    ensures root { IsTrue result → row.now.root ≡ other.now.root }
    ensures leaf { IsTrue result → row.now.leaf ≡ other.now.leaf }
    ensures word { IsTrue result → row.now.word ≡ other.now.word }
{
    is_none_new(&row.root)
        && are_one(&row.root, &other.root)
        && are_one(&row.leaf, &other.leaf)
        && are_one(&row.word, &other.word)
}

/// Joins another row to a row that differs in its addresses alone. Says whether it did.
fn join(alloc: Global, row: &mut Quad, other: &Quad) -> Result<bool, OutOfMemory>
    ensures { IfOk result (λ joined. AreJoined joined other.now (row.old ∷ []) (row.new ∷ [])) }
{
    if differ_in_addresses(row, other) {
        row.ea = row.ea.or(alloc, &other.ea)?;
        return Ok(true);
    }
    Ok(false)
}

/// Joins a row to the first one that it can be joined to. Says whether there is one.
fn join_first(alloc: Global, rows: &mut [Quad], row: &Quad) -> Result<bool, OutOfMemory>
    ensures { IfOk result (λ joined. AreJoined joined row.now rows.old rows.new) }
{
    for there in rows.iter_mut() {
        if join(alloc, there, row)? {
            return Ok(true);
        }
    }
    Ok(false)
}

/// Joins a row to one that is there, or else appends it.
fn put_row(alloc: Global, rows: &mut Vec<Quad>, row: Quad) -> Result<(), OutOfMemory>
    ensures { OnOk result (AreJoined true row rows.old.items rows.new.items) }
{
    if join_first(alloc, rows, &row)? {
        return Ok(());
    }
    rows.push(row)?;
    Ok(())
}

/// Puts the row of a way to others: of its addresses those that lead where a data access is wanted, with its new entries.
fn push_row(
    alloc: Global,
    rows: &mut Vec<Quad>,
    way: &DataWay,
    wanted: &Set,
) -> Result<(), OutOfMemory>
    ensures { OnOk result (AddsRows (is_in wanted.now) (way.now ∷ []) rows.old.items rows.new.items) }
{
    let DataEnd::At { base, mask } = way.end else {
        return Ok(());
    };
    let there = reaching(alloc, base, mask, wanted)?;
    let met = way.ea.and(alloc, &there)?;
    let ea = counted(alloc, met, way.apart)?;
    if ea.is_empty() {
        return Ok(());
    }
    let root = way.first.copy(alloc)?;
    let leaf = way.second.copy(alloc)?;
    let word = Set::all(alloc)?;
    let row = Quad {
        ea,
        root,
        leaf,
        word,
    };
    put_row(alloc, rows, row)?;
    Ok(())
}

/// Puts the rows of a few ways to others.
fn push_rows(
    alloc: Global,
    rows: &mut Vec<Quad>,
    ways: &[DataWay],
    wanted: &Set,
) -> Result<(), OutOfMemory>
    ensures { OnOk result (AddsRows (is_in wanted.now) ways.now rows.old.items rows.new.items) }
{
    for way in ways {
        push_row(alloc, rows, way, wanted)?;
    }
    Ok(())
}

/// Puts rows to others.
fn put_rows(alloc: Global, rows: &mut Vec<Quad>, more: Vec<Quad>) -> Result<(), OutOfMemory>
    ensures { OnOk result ((x : Assignment) → IsAssignment x → in_rows x rows.new.items ≡ (in_rows x rows.old.items || in_rows x more.items)) }
{
    let mut left = more;
    while let Some(row) = left.pop() {
        put_row(alloc, rows, row)?;
    }
    Ok(())
}

/// How many ways are few: their rows are put to each other one after another.
const FEW: usize = 8;

/// The rows of ways. Those of one half are put to those of the other, so that sets of many pieces are joined seldom.
fn rows_of(alloc: Global, ways: &[DataWay], wanted: &Set) -> Result<Vec<Quad>, OutOfMemory>
    ensures { IfOk result (λ rows. AddsRows (is_in wanted.now) ways.now [] rows.items) }
{
    if ways.len() < FEW {
        let mut rows = Vec::new(alloc);
        push_rows(alloc, &mut rows, ways, wanted)?;
        return Ok(rows);
    }
    let middle = ways.len() / 2;
    let mut first = rows_of(alloc, &ways[..middle], wanted)?;
    let last = rows_of(alloc, &ways[middle..], wanted)?;
    put_rows(alloc, &mut first, last)?;
    Ok(first)
}

/// The rows of the addresses that lead where the atoms let the physical address be. Only where it is told what loads and
/// stores may do, steps make a data access.
fn address_rows(alloc: Global, stand: &Stand, bias: &[Atom]) -> Result<Items<Quad>, OutOfMemory>
    ensures { IfOk result (λ rows. IfSome stand.now.accesses (AreAddressRows stand.now bias.now rows)) }
{
    let Some(accesses) = &stand.accesses else {
        return Ok(Items::new(alloc));
    };
    let all = Set::all(alloc)?;
    let wanted = stand.passing(alloc, all, bias, Var::Pa)?;
    let mut rows = rows_of(alloc, &accesses.loads, &wanted)?;
    let stores = rows_of(alloc, &accesses.stores, &wanted)?;
    put_rows(alloc, &mut rows, stores)?;
    Ok(Items::from_vec(rows))
}

/// What the atoms say of the physical address of a data access.
fn push_address(
    alloc: Global,
    stand: &Stand,
    rels: &mut Items<Rel>,
    bias: &[Atom],
) -> Result<(), OutOfMemory>
    ensures { OnOk result (AddsAddress stand.now bias.now rels.old rels.new) }
{
    if !speak_of(bias, Var::Pa) {
        return Ok(());
    }
    let rows = address_rows(alloc, stand, bias)?;
    rels.push(Rel::Rows(rows))?;
    Ok(())
}

/// What the atoms say of two variables, of the target and of the physical address.
fn bias_relations(alloc: Global, stand: &Stand, bias: &[Atom]) -> Result<Items<Rel>, OutOfMemory>
    ensures { IfOk result (AreBiasRelations stand.now bias.now) }
{
    let mut rels = Items::new(alloc);
    push_atoms(&mut rels, bias)?;
    push_target(
        alloc,
        stand,
        &mut rels,
        bias,
        speak_of(bias, Var::Target),
        Aim::Anywhere,
    )?;
    push_address(alloc, stand, &mut rels, bias)?;
    Ok(rels)
}

/// What a bias adds to the problem of a leaf that was posed on the same stand.
pub fn extra_of(
    alloc: Global,
    stand: &Stand,
    bias: &[Atom],
    posed: &Posed,
) -> Result<Extra, OutOfMemory>
    requires between { are_between bias.now ≡ true }
    // whatever leaf the problem is of
    ensures bias { IfOk result (λ extra. (leaf : List AnAtom) → AreShaped stand.now leaf posed.now.shapes posed.now.problem.cases → AddsBias stand.now leaf bias.now posed.now.problem extra) }
    ensures places { IfOk result (λ extra. length extra.cases ≡ length posed.now.shapes) }
{
    accesses_are_goals();
    biases_in_cases();
    ways_are_built();
    let cases = staying(alloc, stand, bias, posed.shapes.as_slice())?;
    let cuts = stand.cuts(alloc, bias)?;
    let rels = bias_relations(alloc, stand, bias)?;
    Ok(Extra { cases, cuts, rels })
}
