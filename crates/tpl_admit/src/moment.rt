// The values of variables on a record, and which atoms are true of it.
ghost use Rattle.std.specs.Prelude.{◌≡◌, ◌+◌, ◌<◌, None, length, slice_index_or};
ghost use Rattle.std.specs.List.{list_any};
ghost use Rattle.rv_isa.specs.Arithmetic.{is_branch};
ghost use Rattle.rv_isa.specs.Fields.{reads_rs1, reads_rs2};
ghost use Rattle.tpl_admit.specs.Internal.Moments.{moment};
ghost use Rattle.tpl_admit.specs.Starts.{lookup};
ghost use Rattle.tpl_admit.specs.Truth.{are_different, are_same, condition_on, holds, is_among, is_apart, is_shared, is_some_false, is_some_true, record_touches, touches, trace_touches};
ghost use Rattle.tpl_admit.specs.Variables.{address_of, data_address, first_operand, first_register, instruction_in, is_data, is_refused, offset, op_in, outcome_in, second_operand, second_register, target_of, value_of};

use dom_set::Set;
use rv_hart::{Outcome, Record};
use rv_isa::{Instr, Op, decode, taken};
use rv_script::{Access, Role};
use tpl_ast::{Atom, Items, Var};

/// What an atom is judged on.
#[derive(Clone, Copy)]
pub struct Moment<'m> {
    pub done: &'m Record,
    /// The values of the hart's registers before the step.
    pub regs: &'m [Option<u32>],
    /// Pairs of a name's index and its value.
    pub names: &'m [(u32, u32)],
    /// The records of the harts of lower numbers.
    pub others: &'m [Items<Record>],
}

/// The value of a key among pairs.
pub fn find(pairs: &[(u32, u32)], key: u32) -> Option<u32>
    ensures { result ≡ lookup pairs.now key }
{
    for pair in pairs {
        if pair.0 == key {
            return Some(pair.1);
        }
    }
    None
}

/// Whether a step was refused as illegal.
fn is_refused(outcome: Outcome) -> bool
    ensures { result ≡ is_refused outcome }
{
    matches!(outcome, Outcome::Trap { cause: 2, .. })
}

/// The number of an outcome; retire is 255.
pub fn outcome_in(outcome: Outcome) -> u32
    ensures { result ≡ outcome_in outcome }
{
    match outcome {
        Outcome::Retired => 255,
        Outcome::Trap { cause, .. } => u32::from(cause),
    }
}

fn offset(imm: u32, base: Option<u32>) -> Option<u32>
    ensures { result ≡ offset imm base }
{
    Some(base?.wrapping_add(imm))
}

fn is_data(role: Role) -> bool
    ensures { result ≡ is_data role }
{
    match role {
        Role::Fetch | Role::Walk => false,
        Role::Load | Role::Store => true,
    }
}

/// The physical address of the data access.
fn data_address(accesses: &[Access]) -> Option<u32>
    ensures { result ≡ data_address accesses.now }
{
    for access in accesses {
        if is_data(access.role) {
            return Some(access.addr);
        }
    }
    None
}

/// Whether a value is in a set.
fn is_among(set: &Set, value: Option<u32>) -> bool
    ensures { result ≡ is_among set.now value }
{
    match value {
        None => false,
        Some(x) => set.has(x),
    }
}

/// Whether there is a value that is not in a set.
fn is_apart(set: &Set, value: Option<u32>) -> bool
    ensures { result ≡ is_apart set.now value }
{
    match value {
        None => false,
        Some(x) => !set.has(x),
    }
}

fn are_same(one: Option<u32>, other: Option<u32>) -> bool
    ensures { result ≡ are_same one other }
{
    match (one, other) {
        (Some(x), Some(y)) => x == y,
        _ => false,
    }
}

fn are_different(one: Option<u32>, other: Option<u32>) -> bool
    ensures { result ≡ are_different one other }
{
    match (one, other) {
        (Some(x), Some(y)) => x != y,
        _ => false,
    }
}

fn is_some_true(value: Option<bool>) -> bool
    ensures { result ≡ is_some_true value }
{
    value.unwrap_or(false)
}

fn is_some_false(value: Option<bool>) -> bool
    ensures { result ≡ is_some_false value }
{
    !value.unwrap_or(true)
}

/// Whether an access to data has a byte in the block of 64 bytes that holds an address.
fn touches(p: u32, access: &Access) -> bool
    ensures { result ≡ touches p access.now }
{
    let block = u64::from(p - p % 64);
    let first = u64::from(access.addr);
    is_data(access.role) && first < block + 64 && block < first + u64::from(access.size)
}

fn record_touches(p: u32, step: &Record) -> bool
    ensures { result ≡ record_touches p step.now }
{
    step.accesses
        .as_slice()
        .iter()
        .any(|access| touches(p, access))
}

fn trace_touches(p: u32, records: &[Record]) -> bool
    ensures { result ≡ trace_touches p records.now }
{
    records.iter().any(|record| record_touches(p, record))
}

fn any_touches(p: u32, others: &[Items<Record>]) -> bool
    ensures { result ≡ list_any (trace_touches p) others.now }
{
    for records in others {
        if trace_touches(p, records.as_slice()) {
            return true;
        }
    }
    false
}

/// Whether the harts' records have an access to data in the block of an address.
fn is_shared(others: &[Items<Record>], address: Option<u32>) -> bool
    ensures { result ≡ is_shared others.now address }
{
    match address {
        None => false,
        Some(p) => any_touches(p, others),
    }
}

impl<'m> Moment<'m> {
    fn instruction(&self) -> Option<Instr>
        ensures { result ≡ instruction_in (moment self.now).done }
    {
        decode(self.done.word)
    }

    /// The value of a register before the step.
    fn register(&self, n: u8) -> Option<u32>
        ensures { result ≡ slice_index_or (moment self.now).regs n None }
    {
        match self.regs.get(n as usize) {
            Some(value) => *value,
            None => None,
        }
    }

    /// What rs1 holds before the step, where the instruction reads it.
    fn first_register(&self) -> Option<u32>
        ensures { result ≡ first_register (moment self.now) }
    {
        let i = self.instruction()?;
        if i.op.reads_rs1() {
            self.register(i.rs1)
        } else {
            None
        }
    }

    /// What rs2 holds before the step, where the instruction reads it.
    fn second_register(&self) -> Option<u32>
        ensures { result ≡ second_register (moment self.now) }
    {
        let i = self.instruction()?;
        if i.op.reads_rs2() {
            self.register(i.rs2)
        } else {
            None
        }
    }

    /// The variable a: rs1's value, where the instruction isn't refused.
    fn first_operand(&self) -> Option<u32>
        ensures { result ≡ first_operand (moment self.now) }
    {
        if is_refused(self.done.outcome) {
            None
        } else {
            self.first_register()
        }
    }

    /// The variable b: rs2's value, where the instruction isn't refused.
    fn second_operand(&self) -> Option<u32>
        ensures { result ≡ second_operand (moment self.now) }
    {
        if is_refused(self.done.outcome) {
            None
        } else {
            self.second_register()
        }
    }

    /// The virtual address of a load or store.
    fn address(&self) -> Option<u32>
        ensures { result ≡ address_of (moment self.now) (instruction_in (moment self.now).done) }
    {
        let i = self.instruction()?;
        if i.op.is_load() || i.op.is_store() {
            offset(i.imm, self.first_register())
        } else {
            None
        }
    }

    /// Where a branch goes if it is taken, and a jump.
    fn target(&self) -> Option<u32>
        ensures { result ≡ target_of (moment self.now) (instruction_in (moment self.now).done) }
    {
        let i = self.instruction()?;
        if i.op.is_branch() || i.op.is_jump() {
            return Some(self.done.pc.wrapping_add(i.imm));
        }
        match i.op {
            Op::Jalr => {
                let target = offset(i.imm, self.first_register())?;
                Some(target - target % 2)
            }
            _ => None,
        }
    }

    /// The value of a variable, where it has one.
    pub fn value(&self, var: Var) -> Option<u32>
        ensures { result ≡ value_of var (moment self.now) }
    {
        match var {
            Var::Op => Some(u32::from(self.instruction()?.op.number())),
            Var::Rs1 => {
                let i = self.instruction()?;
                if i.op.has_rs1() {
                    Some(u32::from(i.rs1))
                } else {
                    None
                }
            }
            Var::Rs2 => {
                let i = self.instruction()?;
                if i.op.has_rs2() {
                    Some(u32::from(i.rs2))
                } else {
                    None
                }
            }
            Var::Rd => {
                let i = self.instruction()?;
                if i.op.has_rd() {
                    Some(u32::from(i.rd))
                } else {
                    None
                }
            }
            Var::Imm => {
                let i = self.instruction()?;
                if i.op.has_imm() { Some(i.imm) } else { None }
            }
            Var::Csr => {
                let i = self.instruction()?;
                if i.op.has_csr() {
                    Some(u32::from(i.csr))
                } else {
                    None
                }
            }
            Var::Ea => self.address(),
            Var::A => self.first_operand(),
            Var::B => self.second_operand(),
            Var::Pa => data_address(self.done.accesses.as_slice()),
            Var::Target => self.target(),
            Var::Outcome => Some(outcome_in(self.done.outcome)),
        }
    }

    /// Whether a branch goes to its target, where its registers have values.
    fn condition(&self) -> Option<bool>
        ensures { result ≡ condition_on (moment self.now) }
    {
        let i = self.instruction()?;
        let a = self.first_register()?;
        let b = self.second_register()?;
        if i.op.is_branch() {
            Some(taken(i.op, a, b))
        } else {
            None
        }
    }

    /// Whether an atom is true.
    pub fn holds(&self, atom: &Atom) -> bool
        ensures { result ≡ holds atom.now (moment self.now) }
    {
        match atom {
            Atom::In(var, set) => is_among(set, self.value(*var)),
            Atom::NotIn(var, set) => is_apart(set, self.value(*var)),
            Atom::Is(var, name) => are_same(self.value(*var), find(self.names, *name)),
            Atom::Same(one, other) => are_same(self.value(*one), self.value(*other)),
            Atom::Differ(one, other) => are_different(self.value(*one), self.value(*other)),
            Atom::Taken => is_some_true(self.condition()),
            Atom::NotTaken => is_some_false(self.condition()),
            Atom::Shared => is_shared(self.others, data_address(self.done.accesses.as_slice())),
        }
    }
}
