//! Problems: what a step may be, as domains of its variables and relations between them. An
//! assignment gives each variable a value; it fits a problem where it has the operation of one of the problem's
//! cases, is in its domains and meets its relations. A problem's space is what a budget is compared with.
#![tactic(auto)]

mod copies;
mod fitting;
mod joined;
mod laws;
mod mentioned;
mod pages;
mod problem;
mod relation;
mod slot;
mod spaces;

pub use copies::{copy_rows, copy_sets, push_rels};
pub use dom_set::OutOfMemory;
pub use fitting::{all_hold, fits, fits_case};
pub use laws::fitting_laws;
pub use mentioned::mentions;
pub use problem::{Assignment, Case, Extra, Problem};
pub use relation::{Quad, Rel, holds};
pub use slot::{SLOTS, Slot};
pub use spaces::{allowed_case, first_case, space};
pub use tpl_ast::Items;
