//! Footprints: which bytes which hart fetched, walked, loaded or stored. A `FootMap` is a set of
//! (byte, hart, role), kept as a page of bits for each frame, hart and role. `may` tells whether an access
//! could join without a race: no byte that one hart stores is touched by another, and none that any hart
//! stores is fetched or walked by any. `add` tells which bytes were new, and `remove` takes just those out
//! again. `allowed` and `some_free` tell which bytes of a frame an access may still touch, and `races`
//! whether the set has a race already, a page at a time.
#![tactic(auto)]

mod clash;
mod error;
mod frames;
mod laws;
mod map;
mod pages;
mod runs;
mod touch;
mod touches;

pub use clash::{Clash, breaks};
pub use error::OutOfMemory;
pub use laws::{blocking_laws, footprint_laws, race_laws, set_laws};
pub use map::FootMap;
pub use touch::Touch;
