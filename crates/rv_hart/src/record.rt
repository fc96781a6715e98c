use rv_csr::{Priv, Register};
use rv_script::{Accesses, Place};

/// How a step ended.
#[derive(Clone, Copy, Debug, PartialEq, Eq)]
pub enum Outcome {
    Retired,
    /// A trap with its cause, its trap value and the privilege that takes it.
    Trap { cause: u8, value: u32, to: Priv },
}

/// What one step did.
#[derive(Drop)]
pub struct Record {
    /// The address of the instruction.
    pub pc: u32,
    /// The privilege before the step.
    pub privilege: Priv,
    /// The instruction word, 0 where the fetch failed.
    pub word: u32,
    pub outcome: Outcome,
    /// The register that was written, with its value; None where none but x0 was.
    pub rd: Option<(u8, u32)>,
    /// The accesses to memory in the order of execution.
    pub accesses: Accesses,
    pub next_pc: u32,
}

/// What a step does to the privilege and the CSRs of its hart.
#[derive(Clone, Copy, Debug, PartialEq, Eq)]
pub enum Control {
    /// Nothing.
    Stay,
    /// It writes a legal value to a CSR.
    Write(Register, u32),
    /// It takes a trap with this cause and trap value.
    Trap { cause: u8, value: u32 },
    /// It returns from a trap to M.
    Mret,
    /// It returns from a trap to S.
    Sret,
}

/// What a step does to its hart, and what its record says beside the accesses.
#[derive(Clone, Copy, Debug, PartialEq, Eq)]
pub struct Change {
    /// The instruction word, 0 where the fetch failed.
    pub word: u32,
    /// The register that is written, with its value; None where none but x0 is.
    pub rd: Option<(u8, u32)>,
    pub next_pc: u32,
    pub control: Control,
}

/// What a step on a state of which a part is known answers.
#[derive(Drop)]
pub enum Stepped {
    Did(Record),
    /// The first place that the step needs and that isn't known.
    Missing(Place),
    /// The machine has no step here.
    Outside,
}
