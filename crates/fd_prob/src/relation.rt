// Relations between the variables of a step.
ghost use Rattle.std.specs.Prelude.{◌≡◌, Some, None, nat_eq, if◌then◌else◌};
ghost use Rattle.std.specs.List.{list_any};
ghost use Rattle.rv_csr.specs.Table.{is_legal_at};
ghost use Rattle.rv_isa.specs.Arithmetic.{is_branch};
ghost use Rattle.fd_prob.specs.Relations.{has_condition, has_target, holds, is_held, is_in_row, is_linked, is_same, is_sum, target_of, writes_legal, written_by};

use crate::Items;
use crate::problem::Assignment;
use crate::slot::Slot;
use dom_set::Set;
use rv_csr::legal;
use rv_isa::{Op, taken};

/// An address of a load or store with words of memory, each from a set of its own.
#[derive(Drop)]
pub struct Quad {
    pub ea: Set,
    /// The root's entry (Privileged, 4.3.1).
    pub root: Set,
    /// The second entry.
    pub leaf: Set,
    pub word: Set,
}

/// What has to hold of an assignment's values.
#[derive(Drop)]
pub enum Rel {
    /// Both variables have one value.
    Same(Slot, Slot),
    /// Their values differ.
    Differ(Slot, Slot),
    /// The first plus the second is the third, modulo 2^32.
    Sum(Slot, Slot, Slot),
    /// The case's operation is a branch, and on the values of rs1 and rs2 its condition is this one
    /// (Unprivileged, 2.5.2).
    Taken(bool),
    /// Where the table has a value at the index variable's value, it is that of the other variable.
    Holds {
        index: Slot,
        value: Slot,
        table: Items<Option<u32>>,
    },
    /// Where rs1 and rs2 are one register, their values are one.
    Linked,
    /// The case's operation is a branch, JAL or JALR, and from this pc its target is in the set, whether
    /// it is taken or not (Unprivileged, 2.5).
    Target(u32, Set),
    /// What the case's operation writes to the control and status register is legal; it holds where
    /// nothing is written (Unprivileged, Zicsr).
    Writes,
    /// The variable's value is in the set, which stands beside the domain since both together may be in far more pieces.
    In(Slot, Set),
    /// One of the rows has the address of the load or store, the page table entries and the data word.
    Rows(Items<Quad>),
}

fn is_same(x: &Assignment, s: Slot, t: Slot) -> bool
    ensures { result ≡ is_same x.now s t }
{
    x.value(s) == x.value(t)
}

fn is_sum(x: &Assignment, s: Slot, t: Slot, u: Slot) -> bool
    ensures { result ≡ is_sum x.now s t u }
{
    x.value(s).wrapping_add(x.value(t)) == x.value(u)
}

fn is_branch(op: Op) -> bool
    ensures { result ≡ is_branch op }
{
    matches!(
        op,
        Op::Beq | Op::Bne | Op::Blt | Op::Bge | Op::Bltu | Op::Bgeu
    )
}

fn has_condition(op: Op, x: &Assignment, condition: bool) -> bool
    ensures { result ≡ has_condition op x.now condition }
{
    if is_branch(op) {
        taken(op, x.value(Slot::A), x.value(Slot::B)) == condition
    } else {
        false
    }
}

fn is_held(x: &Assignment, index: Slot, value: Slot, table: &[Option<u32>]) -> bool
    ensures { result ≡ is_held x.now index value table.now }
{
    match table.get(x.value(index) as usize) {
        Some(Some(v)) => *v == x.value(value),
        Some(None) => true,
        None => true,
    }
}

fn is_linked(x: &Assignment) -> bool
    ensures { result ≡ is_linked x.now }
{
    !is_same(x, Slot::Rs1, Slot::Rs2) || is_same(x, Slot::A, Slot::B)
}

/// Where a branch or a jump at a pc goes.
fn target_of(op: Op, pc: u32, x: &Assignment) -> Option<u32>
    ensures { result ≡ target_of op pc x.now }
{
    match op {
        Op::Jal => Some(pc.wrapping_add(x.value(Slot::Imm))),
        Op::Jalr => {
            let sum = x.value(Slot::A).wrapping_add(x.value(Slot::Imm));
            Some(sum - sum % 2)
        }
        _ => {
            if is_branch(op) {
                Some(pc.wrapping_add(x.value(Slot::Imm)))
            } else {
                None
            }
        }
    }
}

fn has_target(op: Op, x: &Assignment, pc: u32, set: &Set) -> bool
    ensures { result ≡ has_target op x.now pc set.now }
{
    match target_of(op, pc, x) {
        Some(target) => set.has(target),
        None => false,
    }
}

/// The value, or nothing where the field of the operand is 0.
fn written_where(field: u32, value: u32) -> Option<u32>
    ensures { result ≡ (if nat_eq field 0 then None else Some value) }
{
    if field == 0 { None } else { Some(value) }
}

/// What the case's operation writes to a control and status register.
fn written_by(op: Op, x: &Assignment) -> Option<u32>
    ensures { result ≡ written_by op x.now }
{
    let a = x.value(Slot::A);
    let imm = x.value(Slot::Imm);
    let old = x.value(Slot::OldCsr);
    match op {
        Op::Csrrw => Some(a),
        Op::Csrrs => written_where(x.value(Slot::Rs1), old | a),
        Op::Csrrc => written_where(x.value(Slot::Rs1), old & !a),
        Op::Csrrwi => Some(imm),
        Op::Csrrsi => written_where(imm, old | imm),
        Op::Csrrci => written_where(imm, old & !imm),
        _ => None,
    }
}

/// Whether the value is legal for the register at the address, which may be too large for one.
#[tactic(auto, using(crate::proofs::Addresses::no_register))]
fn is_legal(csr: u32, value: u32) -> bool
    ensures { result ≡ is_legal_at csr value }
{
    match u16::try_from(csr) {
        Ok(csr) => legal(csr, value),
        Err(_) => false,
    }
}

fn writes_legal(op: Op, x: &Assignment) -> bool
    ensures { result ≡ writes_legal op x.now }
{
    match written_by(op, x) {
        Some(value) => is_legal(x.value(Slot::Csr), value),
        None => true,
    }
}

fn is_in_row(x: &Assignment, row: &Quad) -> bool
    ensures { result ≡ is_in_row x.now row.now }
{
    row.ea.has(x.value(Slot::Ea))
        && row.root.has(x.value(Slot::FirstPte))
        && row.leaf.has(x.value(Slot::SecondPte))
        && row.word.has(x.value(Slot::DataWord))
}

fn is_in_any_row(x: &Assignment, rows: &[Quad]) -> bool
    ensures { result ≡ list_any (is_in_row x.now) rows.now }
{
    for row in rows {
        if is_in_row(x, row) {
            return true;
        }
    }
    false
}

/// Whether a relation holds, in a case of the operation.
pub fn holds(op: Op, x: &Assignment, rel: &Rel) -> bool
    ensures { result ≡ holds op x.now rel.now }
{
    match rel {
        Rel::Same(s, t) => is_same(x, *s, *t),
        Rel::Differ(s, t) => !is_same(x, *s, *t),
        Rel::Sum(s, t, u) => is_sum(x, *s, *t, *u),
        Rel::Taken(condition) => has_condition(op, x, *condition),
        Rel::Holds {
            index,
            value,
            table,
        } => is_held(x, *index, *value, table.as_slice()),
        Rel::Linked => is_linked(x),
        Rel::Target(pc, set) => has_target(op, x, *pc, set),
        Rel::Writes => writes_legal(op, x),
        Rel::In(s, set) => set.has(x.value(*s)),
        Rel::Rows(rows) => is_in_any_row(x, rows.as_slice()),
    }
}
