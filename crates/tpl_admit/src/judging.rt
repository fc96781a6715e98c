// A hart's records against its body.
ghost use Rattle.std.specs.Prelude.{◌≡◌, ◌+◌, ◌≤◌, length, true};
ghost use Rattle.tpl_admit.specs.Internal.Ordered.{is_ascending};
ghost use Rattle.tpl_ast.specs.Limits.{most_records};

use crate::admission::Unmet;
use crate::dropped::Dropped;
use rv_hart::Record;
use tpl_ast::{HartState, Items, Template};

/// What a hart's pieces are judged by.
#[derive(Clone, Copy)]
pub struct Context<'c> {
    pub hart: u8,
    /// Pairs of a name's index and its value.
    pub names: &'c [(u32, u32)],
    /// The records of the harts before it.
    pub others: &'c [Items<Record>],
    /// By ascending hart, step and atom.
    pub dropped: &'c [Dropped],
    ghost ordered: { is_ascending dropped.now ≡ true },
}

/// Where a hart stands in its body.
#[derive(Drop)]
pub struct Walk<'c> {
    /// The number of its next step.
    pub(crate) step: u32,
    pub(crate) pc: u32,
    /// The values of its registers.
    pub(crate) regs: [Option<u32>; 32],
    /// Its records from the next step on.
    pub(crate) records: &'c [Record],
    /// The numbers that are left for choices, None where it got stuck.
    pub(crate) choices: Option<&'c [u32]>,
    /// The least failure so far.
    pub(crate) least: Option<Unmet>,
    ghost short: { step + length records.now ≤ most_records },
}

/// A trace with its template, and what it says of choices, names and biases.
#[derive(Clone, Copy)]
pub struct Trace<'c> {
    pub template: &'c Template,
    pub start: &'c [HartState],
    /// The words that are given, as pairs of address and value.
    pub words: &'c [(u32, u32)],
    pub records: &'c [Items<Record>],
    pub choices: &'c [u32],
    /// Pairs of a name's index and its value.
    pub names: &'c [(u32, u32)],
    /// By ascending hart, step and atom.
    pub dropped: &'c [Dropped],
    ghost ordered: { is_ascending dropped.now ≡ true },
}
