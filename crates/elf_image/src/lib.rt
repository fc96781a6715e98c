//! A certificate as the bytes of an ELF file, which an emulator loads as an executable. The words of
//! memory are its loads, and a segment of notes holds the rest. Each well-formed certificate has one
//! file; `write` gives it, and `read` gives the certificate that a file tells, or the first of the six
//! parts of the file that is wrong.
#![tactic(auto)]

mod error;
mod laws;
mod reading;
mod writing;

pub use elf_headers::{elf_numbers, header_sizes};
pub use error::{OutOfMemory, ReadError};
pub use laws::{file_lengths, one_first_wrong, one_spelling};
pub use reading::read;
pub use writing::write;
