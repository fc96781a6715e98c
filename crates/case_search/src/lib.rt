//! The search within one case of a problem. `solve_case` finds the least assignment of a case, in the order of
//! pivots, or that there is none: it goes through the variables in their order, tries the values of each from its
//! pivot, and lets the relations narrow the domains of the others. `narrow_case` makes a case that the same
//! assignments fit, with narrowed domains; `solve_again` and `narrow_again` go on from such a case, and `narrow_soon` takes less time. `extended_case` makes one
//! that stands for a case with what a bias adds to it. `may_precede` tells by the domains alone where a case has nothing before
//! a given assignment.
#![tactic(auto)]

mod bound;
mod classes;
mod easier;
mod extended;
mod free;
mod narrowing;
mod order;
mod place;
mod search;
mod skipping;
mod solving;
mod stronger;
mod targets;

pub use bound::may_precede;
pub use dom_set::OutOfMemory;
pub use extended::{cut_by_all, extended_case};
pub use narrowing::{narrow_again, narrow_case, narrow_soon};
pub use order::lesser;
pub use place::slot_at;
pub use search::words;
pub use solving::{solve_again, solve_case};
