//! Whether a certificate is valid, and where it isn't, its first failure. Each hart is run alone on the machine from
//! what the certificate gives at its start, each record is compared with the printed one, then the ends, then memory;
//! then races are looked for, and the template is asked whether it admits the trace.
#![tactic(auto)]

mod checking;
mod collecting;
mod error;
mod lookup;
mod memory;
mod places;
mod racing;
mod stepping;
mod verdict;

pub use checking::{check, one_verdict};
pub use error::OutOfMemory;
pub use verdict::Verdict;
