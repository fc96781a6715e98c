// Answers of problems.
use fd_prob::{Assignment, Items};

/// The answer of a problem under a budget.
#[derive(Clone, Copy, Debug, PartialEq, Eq)]
pub enum Solved {
    /// The least assignment that fits.
    Found(Assignment),
    /// No assignment fits.
    NoneFits,
    /// The space of the problem exceeds the budget.
    Spent,
}

/// The answer of a problem with the biases that it kept.
#[derive(Drop)]
pub struct LeafAnswer {
    pub solved: Solved,
    /// The biases that were not kept, by their positions from 0, each with whether its answer was that the
    /// budget is spent; else nothing fitted.
    pub dropped: Items<(u32, bool)>,
}
