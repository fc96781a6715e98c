// What a hart would do next.
use foot_map::Clash;
use rv_hart::Record;
use rv_script::Place;

/// What the next step of a hart would do.
#[derive(Drop)]
pub enum Probe {
    /// This.
    Ready(Record),
    /// It needs this place, of which no value is known.
    Missing(Place),
    /// The machine has no step here.
    Outside,
    /// One of its accesses would race with this, the least such triple of what was touched and of what the step itself
    /// touches.
    Clash(Clash),
}
