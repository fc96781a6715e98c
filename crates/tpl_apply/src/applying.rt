// What a statement adds to what is known.
ghost use Rattle.std.specs.Prelude.{◌≡◌, ◌<◌, false, true, length, OnOk};
ghost use Rattle.tpl_ast.specs.Bodies.{LabelOf};
ghost use Rattle.tpl_lang.specs.Faults.{is_phrase_above, allows, is_double, passes_count, takes_items};
ghost use Rattle.tpl_lang.specs.Statements.{after, all_values, closed_in, with_item, with_name};
ghost use Rattle.tpl_lang.specs.Known.{is_declared};
ghost use Rattle.tpl_state.specs.Internal.State.{known};
ghost use Rattle.tpl_token.specs.Internal.Phrases.{phrase};
ghost use Rattle.tpl_ast.specs.Limits.{most_names};

use crate::blocks::{
    add_fault, add_leaf, end_body, open_alternative, open_body, open_choice, open_repeat,
    open_sequence,
};
use crate::heads::{
    add_csr, add_flags, add_label, add_name, add_pool, add_reg, add_region, add_set, add_tables,
    add_word, set_vectors,
};
use crate::starts::start_of;
use crate::wishes::wishes_of;
use dom_set::OutOfMemory;
use std::alloc::Global;
use tpl_judge::{align_law, causes, number};
use tpl_state::{Place, State};
use tpl_token::Statement;

/// Closes the innermost block, or the hart.
fn close(alloc: Global, state: &mut State) -> Result<(), OutOfMemory>
    ensures { OnOk result (known state.new ≡ closed_in (known state.old) (known state.old).blocks) }
{
    if let Some(size) = state.body.length() {
        let start = start_of(alloc, state)?;
        return end_body(alloc, state, start, size);
    }
    if state.body.depth() == 0 {
        state.place = Place::Head;
        return Ok(());
    }
    state.body.leave()?;
    Ok(())
}

/// A label here.
fn set_label(alloc: Global, state: &mut State, name: &[u8]) -> Result<(), OutOfMemory>
    requires place { takes_items (known state.old).blocks ≡ true }
    requires fresh { is_declared (known state.old) name.now ≡ false }
    requires few { length (known state.old).names < most_names }
    ensures { let k = known state.old in OnOk result (known state.new ≡ with_name (with_item k (LabelOf (length k.names)) 0) name.now all_values true) }
{
    state.body.label(state.names.len() as u32)?;
    add_label(alloc, state, name)
}

/// Takes in a statement that has no fault, on this line. After an `Err` nothing is said of what is known.
pub fn apply(
    alloc: Global,
    state: &mut State,
    line: u32,
    statement: &Statement<'_>,
) -> Result<(), OutOfMemory>
    requires place { allows (known state.old) (phrase statement.now) ≡ true }
    requires within { is_phrase_above (phrase statement.now) ≡ false }
    requires fresh { is_double (known state.old) (phrase statement.now) ≡ false }
    requires counted { passes_count (known state.old) (phrase statement.now) ≡ false }
    ensures { OnOk result (known state.new ≡ after (known state.old) line (phrase statement.now)) }
{
    align_law();
    match statement {
        Statement::Ram(low, high) => add_region(state, *low, *high),
        Statement::Pool(frames) => add_pool(state, frames),
        Statement::Tables(frames) => add_tables(state, frames),
        Statement::Flags(flags) => add_flags(state, flags),
        Statement::Vectors(set) => set_vectors(alloc, state, set),
        Statement::Set(name, set) => add_set(alloc, state, name, set),
        Statement::Name(name, set) => add_name(alloc, state, name, set),
        Statement::Data(address, word) => add_word(state, *address, *word),
        Statement::Hart(_) => {
            state.place = Place::Begin;
            Ok(())
        }
        Statement::Start(pc, privilege) => {
            state.place = Place::Settings;
            state.pc = number(*pc);
            state.privilege = *privilege;
            Ok(())
        }
        Statement::Csr(name, value) => add_csr(state, name, *value),
        Statement::Reg(register, value) => add_reg(state, *register, *value),
        Statement::Body => open_body(alloc, state),
        Statement::Do(wishes) => {
            let wishes = wishes_of(alloc, state, wishes)?;
            add_leaf(state, line, wishes)
        }
        Statement::Fault(outcomes) => {
            let causes = causes(alloc, outcomes)?;
            add_fault(state, line, causes)
        }
        Statement::Seq => open_sequence(alloc, state),
        Statement::Repeat(times) => open_repeat(alloc, state, number(*times)),
        Statement::Choose => open_choice(alloc, state, line),
        Statement::Way(weight) => open_alternative(alloc, state, number(*weight)),
        Statement::Label(name) => set_label(alloc, state, name),
        Statement::Close => close(alloc, state),
    }
}
