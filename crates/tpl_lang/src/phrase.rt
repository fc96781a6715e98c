// The parts of statements.

/// A number as it is written. A value that is None is too large for 32 bits.
#[derive(Clone, Copy, Debug, PartialEq, Eq)]
pub struct Numeral {
    /// Whether a minus stands before it. It then stands for 2^32 minus it, modulo 2^32.
    pub minus: bool,
    pub value: Option<u32>,
}

/// An element of a set of numbers: a number, or a range with both ends.
#[derive(Clone, Copy, Debug, PartialEq, Eq)]
pub enum Element {
    One(Numeral),
    Range(Numeral, Numeral),
}

/// An element of a set of outcomes.
#[derive(Clone, Copy, Debug, PartialEq, Eq)]
pub enum OutcomeElement {
    Retire,
    Cause(Numeral),
}
