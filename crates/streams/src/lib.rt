//! Where a command reads from and writes to. A `Source` gives bytes and a `Sink` takes them; both
//! count their faults, so that a failure is told only where the count rose. `read_up_to` reads a
//! whole input and `write_whole` writes a whole text. Sources and sinks stand over memory, with
//! failures that are listed or with none, and over any reader or writer of std.
#![tactic(auto)]

mod adapters;
mod error;
mod memory;
mod sink;
mod source;
mod storage;

pub use adapters::{ReadSource, WriteSink};
pub use error::{Failed, OutOfMemory, ReadStop};
pub use memory::{MemSink, MemSource, SureSink, SureSource};
pub use sink::{Sink, write_whole};
pub use source::{Source, read_up_to};
