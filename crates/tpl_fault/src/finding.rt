// The least fault of a statement.
ghost use Rattle.std.specs.Prelude.{◌≡◌, IfOk};
ghost use Rattle.tpl_lang.specs.Kinds.{fault_of};
ghost use Rattle.tpl_state.specs.Internal.State.{known};
ghost use Rattle.tpl_token.specs.Internal.Phrases.{phrase};

use crate::names::{is_double, is_unknown};
use crate::order::{allows, is_deep, is_last, is_long, passes_count};
use crate::ram::is_bad_ram;
use crate::sets::is_empty;
use crate::starts::is_bad_start;
use dom_set::OutOfMemory;
use std::alloc::Global;
use tpl_judge::{is_name_twice, is_phrase_above, is_phrase_long};
use tpl_lang::Kind;
use tpl_state::State;
use tpl_token::Statement;

/// The least kind of fault that a statement has where it stands, if it has one. Behind a `last` one the text ends.
#[tactic(auto, unfolding(tpl_lang::specs::Kinds::fault_of))]
pub fn find_fault(
    alloc: Global,
    state: &State,
    statement: &Statement<'_>,
    last: bool,
) -> Result<Option<Kind>, OutOfMemory>
    ensures { IfOk result (λ f. f ≡ fault_of (known state.now) last (phrase statement.now)) }
{
    if !allows(state, statement) {
        return Ok(Some(Kind::Unexpected));
    }
    if last && !is_last(state, statement) {
        return Ok(Some(Kind::Unexpected));
    }
    if is_phrase_above(statement) {
        return Ok(Some(Kind::NumberTooLarge));
    }
    if is_unknown(state, statement) {
        return Ok(Some(Kind::UnknownName));
    }
    if is_double(state, statement) {
        return Ok(Some(Kind::DoubleName));
    }
    if is_name_twice(alloc, statement)? {
        return Ok(Some(Kind::NameTwiceInLeaf));
    }
    if is_empty(alloc, state, statement)? {
        return Ok(Some(Kind::EmptyDomain));
    }
    if is_deep(state, statement) {
        return Ok(Some(Kind::TooDeep));
    }
    if is_long(state, statement) {
        return Ok(Some(Kind::TooLong));
    }
    if is_phrase_long(statement) || passes_count(state, statement) {
        return Ok(Some(Kind::TooMany));
    }
    if is_bad_ram(state, statement) {
        return Ok(Some(Kind::BadRam));
    }
    if is_bad_start(state, statement) {
        return Ok(Some(Kind::BadStart));
    }
    Ok(None)
}
