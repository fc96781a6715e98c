//! The instructions of RV32IM with Zicsr, the returns from traps and SFENCE.VMA: one table of their
//! encodings, by which an instruction is made a word and a word is read as an instruction, the
//! arithmetic of register and immediate instructions, and the conditions of branches. The words of all
//! zeros and all ones, which are defined to be illegal
//! (Unprivileged, 1.5), are a row of the table too.
#![tactic(auto)]

mod arithmetic;
mod decoding;
mod encoding;
mod fields;
mod instruction;
mod laws;
mod names;
mod operation;
mod parts;
mod table;

pub use arithmetic::{alu, taken};
pub use decoding::decode;
pub use encoding::encode;
pub use instruction::Instr;
pub use laws::{codec_laws, number_laws};
pub use names::name_of;
pub use operation::{OPS, Op};
