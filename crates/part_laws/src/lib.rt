//! The meaning of a test while it is being made, as plain values: a start that grows, what each hart did from it, and
//! where each one stands, from every system that begins so; and the laws that keep it. A first value for a place that
//! no step has needed or written changes nothing that was done.
#![tactic(auto)]

mod laws;

pub use laws::partial_test_laws;
