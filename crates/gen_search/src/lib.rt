//! The search for a test of a template: a walk through the bodies of its harts, which draws, takes leaf turns, tries the
//! alternatives of choices one after another, and begins again where all is dead. It is proved to be its definition
//! (`specs/Search.antt`). What it works on is a parameter, `PartialTest`: a test so far, on which a leaf turn can be
//! made and which goes back to each test that it was.
#![tactic(auto)]

mod choice;
mod draws;
mod error;
mod laws;
mod partial;
mod place;
mod searching;
mod walk;

pub use draws::Tally;
pub use error::OutOfMemory;
pub use laws::{draw_laws, search_laws, template_law};
pub use partial::{PartialTest, Turn};
pub use searching::{Answer, search};
