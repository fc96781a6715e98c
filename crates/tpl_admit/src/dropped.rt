// Biases that a test doesn't keep.

/// Why a bias was dropped.
#[derive(Clone, Copy, Debug, PartialEq, Eq)]
pub enum Why {
    /// No candidate meets it.
    NoneFits,
    /// The search for one was too large.
    Spent,
}

/// A bias that was dropped at one step of a hart.
#[derive(Clone, Copy, Debug, PartialEq, Eq)]
pub struct Dropped {
    pub hart: u32,
    /// The number of the hart's step, from 0.
    pub step: u32,
    /// The number of the atom in its leaf, from 0.
    pub atom: u32,
    pub why: Why,
}
