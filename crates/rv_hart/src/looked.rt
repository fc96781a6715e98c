// What a step would do.
ghost use Rattle.std.specs.Prelude.{◌≡◌};
ghost use Rattle.rv_hart.specs.Privileged.{rd_told, retired, went};

use crate::{Change, Control};
use rv_script::Place;

/// What a step would do, or why it can't be told.
pub enum Looked {
    Does(Change),
    Missing(Place),
    Outside,
}

/// The write of a result, which vanishes at x0.
pub fn rd_of(rd: u8, value: u32) -> Option<(u8, u32)>
    ensures { result ≡ rd_told rd value }
{
    if rd == 0 { None } else { Some((rd, value)) }
}

/// The change of an instruction that goes on to the next one.
pub fn retire(pc: u32, word: u32, rd: Option<(u8, u32)>) -> Change
    ensures { result ≡ retired pc word rd }
{
    go_to(word, rd, Control::Stay, pc.wrapping_add(4))
}

/// The change of a step that goes on at an address.
pub fn go_to(word: u32, rd: Option<(u8, u32)>, control: Control, target: u32) -> Change
    ensures { result ≡ went word rd control target }
{
    Change {
        word,
        rd,
        next_pc: target,
        control,
    }
}
