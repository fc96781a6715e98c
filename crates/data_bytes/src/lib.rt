//! What a load or store of a hart may do with the bytes of memory, where no address is translated: which bytes are known,
//! which an access may start, which are no RAM, and which of them a load or a store would race on; and from these the
//! addresses that an access of a size may have. It promises that each set has just the bytes or addresses that its
//! contract's test lets through; but the bytes that loads or stores may not touch are told of known and fresh bytes alone.
#![tactic(auto)]

mod barred;
mod error;
mod frames;
mod memory;
mod starts;

pub use error::OutOfMemory;
pub use memory::{DataBytes, data_bytes};
pub use starts::{DataAccess, misaligned, open};
