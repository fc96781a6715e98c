// Whether regions, frames, flags and words may be given.
ghost use Rattle.std.specs.Prelude.{◌≡◌, ◌++◌};
ghost use Rattle.tpl_lang.specs.Faults.{are_bad_frames, is_bad_frame, is_bad_ram, is_bad_word};
ghost use Rattle.tpl_fault.specs.Internal.Frames.{others_after};
ghost use Rattle.tpl_state.specs.Internal.State.{known};
ghost use Rattle.tpl_token.specs.Internal.Phrases.{phrase};

use tpl_judge::{
    any_holds, has_key, has_value, is_any_pointer_flag, is_bad_region, is_number_among, number,
};
use tpl_lang::Numeral;
use tpl_state::State;
use tpl_token::Statement;

/// Whether a frame is no whole frame of a region, or is given before: in `before`, or by the lines so far.
#[tactic(auto, using(crate::proofs::Frames::is_among_others))]
fn is_bad_frame(state: &State, before: &[Numeral], frame: u32) -> bool
    ensures { let k = known state.now in
        result ≡ is_bad_frame k.ram (others_after before.now (k.pool ++ k.tables)) frame }
{
    frame % 4096 != 0
        || !any_holds(&state.ram, frame, 4096)
        || has_value(before, frame)
        || is_number_among(&state.pool, frame)
        || is_number_among(&state.tables, frame)
}

/// The same of one of the frames, each judged after those before it.
fn are_bad_frames(state: &State, frames: &[Numeral]) -> bool
    ensures { let k = known state.now in
        result ≡ are_bad_frames k.ram (k.pool ++ k.tables) frames.now }
{
    for (i, frame) in frames.iter().enumerate() {
        if is_bad_frame(state, &frames[..i], number(*frame)) {
            return true;
        }
    }
    false
}

/// Whether a word can't be started at the address.
fn is_bad_word(state: &State, address: u32) -> bool
    ensures { result ≡ is_bad_word (known state.now) address }
{
    address % 4 != 0 || !any_holds(&state.ram, address, 4) || has_key(&state.words, address)
}

/// Whether a statement gives a region, a frame, a flag byte or an address of a word that is not allowed.
pub fn is_bad_ram(state: &State, statement: &Statement<'_>) -> bool
    ensures { result ≡ is_bad_ram (known state.now) (phrase statement.now) }
{
    match statement {
        Statement::Ram(low, high) => is_bad_region(&state.ram, number(*low), number(*high)),
        Statement::Pool(frames) => are_bad_frames(state, frames),
        Statement::Tables(frames) => are_bad_frames(state, frames),
        Statement::Flags(flags) => is_any_pointer_flag(flags),
        Statement::Data(address, _) => is_bad_word(state, number(*address)),
        _ => false,
    }
}
