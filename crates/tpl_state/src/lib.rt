//! What the lines of a template so far have said: its head, the harts that are ended, and the body of the hart that is
//! open, with its blocks.
#![tactic(auto)]

mod beginning;
mod body;
mod names;
mod place;
mod sets;
mod state;

pub use body::Growing;
pub use names::Names;
pub use place::Place;
pub use sets::Sets;
pub use state::State;
