//! Systems of harts over one memory: the system of a certificate's start, the run of a schedule, and the law that a sound
//! certificate is faithful: whatever the order of the harts' steps, each hart does what it does alone.
#![tactic(auto)]

mod error;
mod executing;
mod filling;
mod laws;
mod starting;
mod system;

pub use error::{OutOfMemory, Stop};
pub use executing::{Execution, execute};
pub use laws::sound_certificates_are_faithful;
pub use system::System;
