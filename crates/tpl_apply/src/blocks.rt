// What items and braces do.
ghost use Rattle.std.specs.Prelude.{◌≡◌, [], ◌∷◌, true, OnOk};
ghost use Rattle.tpl_ast.specs.Bodies.{EnterChoose, EnterRepeat, EnterSeq, EnterWay, FetchFault, Leaf};
ghost use Rattle.tpl_lang.specs.Known as language;
ghost use Rattle.tpl_lang.specs.Known.{Alternative, Choice, Inside, Sequence, Times, Whole};
ghost use Rattle.tpl_lang.specs.Faults.{is_in_choice, takes_items};
ghost use Rattle.tpl_lang.specs.Statements.{opened_as, start_of, with_block, with_hart, with_item};
ghost use Rattle.tpl_state.specs.Internal.Growing.{is_body_closable};
ghost use Rattle.tpl_state.specs.Internal.State.{known};

use dom_set::{OutOfMemory, Set};
use std::alloc::Global;
use std::mem;
use tpl_ast::{HartDecl, HartState, Wish};
use tpl_state::{Growing, Place, State};

/// A leaf with its line and its atoms.
pub fn add_leaf(state: &mut State, line: u32, wishes: Vec<Wish>) -> Result<(), OutOfMemory>
    requires { takes_items (known state.old).blocks ≡ true }
    ensures { OnOk result (known state.new ≡ with_item (known state.old) (Leaf line wishes.items) 1) }
{
    state.body.leaf(line, wishes)?;
    Ok(())
}

/// A failing fetch with its line and its causes.
pub fn add_fault(state: &mut State, line: u32, causes: Set) -> Result<(), OutOfMemory>
    requires { takes_items (known state.old).blocks ≡ true }
    ensures { OnOk result (known state.new ≡ with_item (known state.old) (FetchFault line causes) 1) }
{
    state.body.fetch_fault(line, causes)?;
    Ok(())
}

pub fn open_sequence(alloc: Global, state: &mut State) -> Result<(), OutOfMemory>
    requires { takes_items (known state.old).blocks ≡ true }
    ensures { OnOk result (known state.new ≡ with_block (known state.old) EnterSeq Sequence) }
{
    state.body.open_sequence(alloc)?;
    Ok(())
}

pub fn open_repeat(alloc: Global, state: &mut State, times: u32) -> Result<(), OutOfMemory>
    requires { takes_items (known state.old).blocks ≡ true }
    ensures { OnOk result (known state.new ≡ with_block (known state.old) (EnterRepeat times) (Times times)) }
{
    state.body.open_repeat(alloc, times)?;
    Ok(())
}

pub fn open_choice(alloc: Global, state: &mut State, line: u32) -> Result<(), OutOfMemory>
    requires { takes_items (known state.old).blocks ≡ true }
    ensures { OnOk result (known state.new ≡ with_block (known state.old) (EnterChoose line) Choice) }
{
    state.body.open_choice(alloc, line)?;
    Ok(())
}

pub fn open_alternative(alloc: Global, state: &mut State, weight: u32) -> Result<(), OutOfMemory>
    requires { is_in_choice (known state.old).blocks ≡ true }
    ensures { OnOk result (known state.new ≡ with_block (known state.old) (EnterWay weight) (Alternative weight)) }
{
    state.body.open_alternative(alloc, weight)?;
    Ok(())
}

/// Opens the body.
pub fn open_body(alloc: Global, state: &mut State) -> Result<(), OutOfMemory>
    ensures { OnOk result (known state.new ≡ record (known state.old) { place = language.Inside; body = []; blocks = opened_as Whole ∷ [] }) }
{
    state.body = Growing::whole(alloc)?;
    state.place = Place::Inside;
    Ok(())
}

/// Closes the body, and the hart stands with it.
#[tactic(auto, using(std::proofs::lemmas::List::map_push))]
pub fn end_body(
    alloc: Global,
    state: &mut State,
    start: HartState,
    size: u64,
) -> Result<(), OutOfMemory>
    requires start { start ≡ start_of (known state.old) }
    requires closable { is_body_closable (known state.old).blocks ≡ true }
    ensures { OnOk result (known state.new ≡ with_hart (known state.old) size) }
{
    let body = mem::replace(&mut state.body, Growing::new(alloc)).finish();
    state.harts.push(HartDecl { start, body })?;
    state.place = Place::Ended;
    state.total = state.total.saturating_add(size);
    state.given = Vec::new(alloc);
    Ok(())
}
