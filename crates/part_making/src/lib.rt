//! A test that is being made, with its template: each call first asks what it may do. What is seen of it, and what its
//! certificate tells, as values and texts that can be compared, for the tests of it.
#![tactic(auto)]

mod making;
mod shown;
mod view;

pub use making::Making;
pub use shown::{Told, folded, record_text};
pub use view::{View, view_of};
