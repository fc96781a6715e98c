// Whether a statement may stand where it stands, and what it does to blocks.
ghost use Rattle.std.specs.Prelude.{◌≡◌};
ghost use Rattle.tpl_lang.specs.Faults.{allows, is_deep, is_finished, is_first, is_item_place, is_last, is_long, is_never_given, opens, passes_count};
ghost use Rattle.tpl_lang.specs.Words.{csr_of};
ghost use Rattle.tpl_state.specs.Internal.State.{known};
ghost use Rattle.tpl_token.specs.Internal.Phrases.{phrase};

use rv_csr::Register;
use tpl_ast::{
    MAX_BLOCKS, MAX_FLAGS, MAX_HARTS, MAX_NAMES, MAX_POOL, MAX_RECORDS, MAX_REGIONS, MAX_SETS,
    MAX_TABLES, MAX_WAYS,
};
use tpl_lang::csr_of;
use tpl_state::State;
use tpl_token::Statement;

/// Whether a CSR is one that no line gives.
fn is_never_given(name: &[u8]) -> bool
    ensures { result ≡ is_never_given (csr_of name.now) }
{
    matches!(csr_of(name), Some(Register::Sstatus | Register::Mhartid))
}

/// Whether a statement opens a block inside a body.
fn opens(statement: &Statement<'_>) -> bool
    ensures { result ≡ opens (phrase statement.now) }
{
    matches!(
        statement,
        Statement::Seq | Statement::Repeat(_) | Statement::Choose | Statement::Way(_)
    )
}

fn is_first(state: &State) -> bool
    ensures { result ≡ is_first (known state.now) }
{
    state.place.is_head() && state.harts.is_empty()
}

fn is_item_place(state: &State) -> bool
    ensures { result ≡ is_item_place (known state.now) }
{
    state.place.is_inside() && state.body.takes_items()
}

/// Kind 2: whether the statement may stand here.
pub fn allows(state: &State, statement: &Statement<'_>) -> bool
    ensures { result ≡ allows (known state.now) (phrase statement.now) }
{
    match statement {
        Statement::Ram(_, _)
        | Statement::Pool(_)
        | Statement::Tables(_)
        | Statement::Flags(_)
        | Statement::Set(_, _)
        | Statement::Name(_, _)
        | Statement::Data(_, _) => is_first(state),
        Statement::Vectors(_) => is_first(state) && state.vectors.is_none(),
        Statement::Hart(_) => state.place.is_head(),
        Statement::Start(_, _) => state.place.is_begin(),
        Statement::Csr(name, _) => state.place.is_settings() && !is_never_given(name),
        Statement::Reg(_, _) | Statement::Body => state.place.is_settings(),
        Statement::Do(_)
        | Statement::Fault(_)
        | Statement::Seq
        | Statement::Repeat(_)
        | Statement::Choose => is_item_place(state),
        Statement::Label(_) => is_item_place(state) && !state.body.is_in_repeat(),
        Statement::Way(_) => state.place.is_inside() && state.body.is_in_choice(),
        Statement::Close => {
            state.place.is_inside() && state.body.is_closable() || state.place.is_ended()
        }
    }
}

/// Kind 8: whether the statement opens a 17th block inside a body.
pub fn is_deep(state: &State, statement: &Statement<'_>) -> bool
    ensures { result ≡ is_deep (known state.now) (phrase statement.now) }
{
    opens(statement) && MAX_BLOCKS < state.body.depth()
}

/// Kind 9: whether the statement closes a body with which all harts are too long.
pub fn is_long(state: &State, statement: &Statement<'_>) -> bool
    ensures { result ≡ is_long (known state.now) (phrase statement.now) }
{
    match (statement, state.body.length()) {
        (Statement::Close, Some(length)) => {
            state.place.is_inside() && (MAX_RECORDS as u64) < state.total.saturating_add(length)
        }
        _ => false,
    }
}

/// Kind 10: whether the statement passes a count of the whole text.
pub fn passes_count(state: &State, statement: &Statement<'_>) -> bool
    ensures { result ≡ passes_count (known state.now) (phrase statement.now) }
{
    match statement {
        Statement::Ram(_, _) => MAX_REGIONS <= state.ram.len(),
        Statement::Pool(frames) => MAX_POOL < state.pool.len() + frames.len(),
        Statement::Tables(frames) => MAX_TABLES < state.tables.len() + frames.len(),
        Statement::Flags(flags) => MAX_FLAGS < state.flags.len() + flags.len(),
        Statement::Set(_, _) => MAX_SETS <= state.sets.len(),
        Statement::Name(_, _) | Statement::Label(_) => MAX_NAMES <= state.names.len(),
        Statement::Hart(_) => MAX_HARTS <= state.harts.len(),
        Statement::Way(_) => MAX_WAYS <= state.body.ways(),
        _ => false,
    }
}

/// Whether a text may end with a line that says nothing.
pub fn is_finished(state: &State) -> bool
    ensures { result ≡ is_finished (known state.now) }
{
    state.place.is_head() && !state.harts.is_empty()
}

/// Whether a text may end behind the statement.
pub fn is_last(state: &State, statement: &Statement<'_>) -> bool
    ensures { result ≡ is_last (known state.now) (phrase statement.now) }
{
    match statement {
        Statement::Close => state.place.is_ended(),
        _ => false,
    }
}
