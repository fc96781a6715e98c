// The start of the hart that is open.
ghost use Rattle.std.specs.Prelude.{◌≡◌, IfOk};
ghost use Rattle.tpl_lang.specs.Statements.{start_of};
ghost use Rattle.tpl_state.specs.Internal.State.{known};

use dom_set::OutOfMemory;
use std::alloc::Global;
use tpl_ast::{HartState, Items};
use tpl_judge::{lazy_places, value_at};
use tpl_state::State;

/// The start of the hart that is open.
pub fn start_of(alloc: Global, state: &State) -> Result<HartState, OutOfMemory>
    ensures { IfOk result (λ start. start ≡ start_of (known state.now)) }
{
    Ok(HartState {
        pc: state.pc,
        privilege: state.privilege,
        mstatus: value_at(&state.given, 0x1300),
        medeleg: value_at(&state.given, 0x1302),
        satp: value_at(&state.given, 0x1180),
        places: Items::from_vec(lazy_places(alloc, &state.given)?),
    })
}
