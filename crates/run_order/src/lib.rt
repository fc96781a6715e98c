//! The order in which harts take their turns, as a number draws it: one draw for each turn.
#![tactic(auto)]

mod drawing;
mod error;
mod laws;

pub use drawing::drawn_order;
pub use error::OutOfMemory;
pub use laws::order_laws;
