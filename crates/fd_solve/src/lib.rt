//! The exact solver of problems. Where a problem's space is within a budget, `solve` finds the least
//! assignment that fits, in the order of the problem's pivots, or that there is none. `solve_leaf` takes
//! biases one after another and keeps each that leaves the problem an assignment for its answer. The search goes through the
//! cases of one operation after another, and `case_search` through what is in a case.
#![tactic(auto)]

mod answers;
mod barred;
mod cases;
mod firsts;
mod known;
mod laws;
mod leaf;
mod marked;
mod meeting;
mod operations;
mod pivots;
mod ready;
mod refused;
mod sought;

pub use answers::{LeafAnswer, Solved};
pub use dom_set::OutOfMemory;
pub use laws::{answer_law, existence_law, leaf_law, operation_law, order_law};
pub use leaf::solve_leaf;
pub use operations::solve;
