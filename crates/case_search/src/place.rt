// The variables by their places.
ghost use Rattle.std.specs.Prelude.{◌≡◌, ◌<◌};
ghost use Rattle.fd_prob.specs.Slots.{slot_number};

use fd_prob::{SLOTS, Slot};

/// The variable at a place in the order, from 0.
#[tactic(auto, using(fd_prob::proofs::Places::in_place))]
pub fn slot_at(place: usize) -> Slot
    requires { place < 14 }
    ensures { slot_number result ≡ place }
{
    SLOTS[place]
}
