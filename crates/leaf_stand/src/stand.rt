// What is known where a leaf is solved.

use data_goals::Accesses;
use dom_set::Set;
use rv_csr::{Csrs, Priv};
use rv_hart::Record;

/// A name of the template: its value, where it is bound, and its set.
#[derive(Drop)]
pub struct Name<'t> {
    pub value: Option<u32>,
    pub set: &'t Set,
}

/// Where a hart stands, and what a template lets its next step start.
#[derive(Drop)]
pub struct Stand<'t> {
    pub pc: u32,
    pub privilege: Priv,
    pub csrs: Csrs,
    /// The values of the registers, where they are known; that of x0 is 0.
    pub registers: [Option<u32>; 32],
    /// The word at the pc, where it is known.
    pub word: Option<u32>,
    /// The fetch races with nothing, and its word may be started where it is not known.
    pub fetches: bool,
    /// How many pairs of page table entries the translation of a data access may start; 1 where there is none.
    pub pairs: u64,
    /// What loads and stores may do; nothing where that was not asked for.
    pub accesses: Option<Accesses>,
    /// The values that the atoms leave to a source register.
    pub sources: &'t Set,
    /// The addresses that vectors may be started with.
    pub vectors: &'t Set,
    /// The names, by their places in the template.
    pub names: &'t [Name<'t>],
    /// The records of the harts with lower numbers.
    pub others: &'t [&'t [Record]],
}
