//! One step of a hart of which some places may not be known yet. A step is defined by a script of questions;
//! `step` plays it on what is known, and its contract says what that tells of every whole hart and memory.
#![tactic(auto)]

mod data;
mod hart;
mod laws;
mod looked;
mod privileged;
mod reaching;
mod record;
mod rows;
mod seeing;
mod sights;
mod stepping;
mod storing;

pub use data::size_of;
pub use hart::Hart;
pub use laws::{
    csr_law, local_law, no_sights_law, question_law, row_law, step_law, true_sights_law,
};
pub use record::{Change, Control, Outcome, Record, Stepped};
pub use rv_csr::{Csrs, Priv};
pub use rv_mem::{Mem, Seen, Words};
pub use rv_script::{Access, Accesses, Place, Role};
pub use sights::{NoSights, Sights};
pub use stepping::{look, step, step_seen};
pub use storing::apply_all;
