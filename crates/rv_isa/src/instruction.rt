//! Instructions.

use crate::operation::Op;

/// An instruction: an operation and the fields of its format. A field that the format lacks is 0.
#[derive(Clone, Copy, Debug, PartialEq, Eq)]
pub struct Instr {
    pub op: Op,
    /// The number of the register that is written.
    pub rd: u8,
    /// The number of the first source register.
    pub rs1: u8,
    /// The number of the second source register.
    pub rs2: u8,
    /// The immediate as the instruction uses it, so extended by its sign where the format does that
    /// (Unprivileged, 2.3), and a multiple of 4,096 for LUI and AUIPC. It is a shift's amount,
    /// FENCE's predecessor set before its successor set, the source of CSRRWI, CSRRSI and CSRRCI,
    /// and the word itself where that is defined to be illegal.
    pub imm: u32,
    /// The address of the control and status register.
    pub csr: u16,
}
