//! The ELF header and the program headers of a file: a segment of notes, and a loadable one for each run of words that lie one behind the other. What is written is a definition, and reading gives
//! just what is written so. The names of the ELF specification and of the notes stand here with their numbers.
#![tactic(auto)]

mod checks;
mod elf;
mod laws;
mod reading;
mod runs;
mod writing;

pub use elf::{NAME, NAME_SIZE, NT_FINAL, NT_REST, NT_START, NT_TEMPLATE, NT_TRACES, VERSION};
pub use laws::{elf_numbers, header_sizes};
pub use reading::{Head, Table, sized_header_of, table_of};
pub use runs::{Run, list_runs};
pub use writing::{Segment, put_headers};
