//! A certificate: a start, each hart's records, and how all ends; and what makes it valid. The run of a system of
//! harts over one memory, what a start leaves open, and when a template admits a trace are defined here.
#![tactic(auto)]

mod admission;
mod certificate;
mod dropped;
mod harts;
mod judging;
mod laws;
mod moment;
mod walking;

pub use admission::{Unmet, admits, least_failures_are_unique};
pub use certificate::Cert;
pub use dropped::{Dropped, Why};
pub use judging::Trace;
pub use laws::said_law;
pub use moment::Moment;
pub use tpl_ast::HartState;
