//! With which touch a hart's next step would race first: of all triples of byte, hart and role that were touched before
//! or that the step itself touches, the least with which one of the step's accesses breaks race-freedom. Nothing is
//! added to the footprint, so it takes no memory.
#![tactic(auto)]

mod least;

pub use foot_map::Clash;
pub use least::least_clash;
