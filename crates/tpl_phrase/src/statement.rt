// The statement that the tokens of a line are.
ghost use Rattle.tpl_lang.specs.Reading.{block_at, csr_at, data_at, domain_of_name_at, fault_at, hart_at, close_at, keyed_at, label_at, named_set_at, privilege_at, ram_at, reg_at, register_at, repeat_at, start_at, statement_of, vectors_at, way_at};
ghost use Rattle.tpl_cursor.specs.Internal.Reading.{Gives, Reads};
ghost use Rattle.tpl_token.specs.Internal.Phrases.{phrase};
ghost use Rattle.tpl_token.specs.Internal.Views.{views};

use rv_csr::Priv;
use std::alloc::Global;
use tpl_cursor::{Cursor, Stop};
use tpl_lang::{Key, Mark, Numeral, key_of};
use tpl_token::{Statement, Token, register_of};

#[tactic(auto, unfolding(tpl_lang::specs::Reading::ram_at))]
fn ram<'a>(cursor: &mut Cursor<'_, 'a>) -> Result<Statement<'a>, Stop>
    ensures { Gives phrase result (ram_at cursor.old) }
{
    let low = cursor.number()?;
    let high = cursor.number()?;
    cursor.end()?;
    Ok(Statement::Ram(low, high))
}

#[tactic(auto, unfolding(tpl_lang::specs::Reading::vectors_at))]
fn vectors<'a>(alloc: Global, cursor: &mut Cursor<'_, 'a>) -> Result<Statement<'a>, Stop>
    ensures { Gives phrase result (vectors_at cursor.old) }
{
    let set = cursor.set(alloc)?;
    cursor.end()?;
    Ok(Statement::Vectors(set))
}

#[tactic(auto, unfolding(tpl_lang::specs::Reading::named_set_at))]
fn named_set<'a>(alloc: Global, cursor: &mut Cursor<'_, 'a>) -> Result<Statement<'a>, Stop>
    ensures { Gives phrase result (named_set_at cursor.old) }
{
    let name = cursor.name()?;
    cursor.is()?;
    let set = cursor.set(alloc)?;
    cursor.end()?;
    Ok(Statement::Set(name, set))
}

/// A name with its domain.
#[tactic(auto, unfolding(tpl_lang::specs::Reading::domain_of_name_at))]
fn domain_of_name<'a>(alloc: Global, cursor: &mut Cursor<'_, 'a>) -> Result<Statement<'a>, Stop>
    ensures { Gives phrase result (domain_of_name_at cursor.old) }
{
    let name = cursor.name()?;
    cursor.within()?;
    let set = cursor.set(alloc)?;
    cursor.end()?;
    Ok(Statement::Name(name, set))
}

#[tactic(auto, unfolding(tpl_lang::specs::Reading::data_at))]
fn data<'a>(cursor: &mut Cursor<'_, 'a>) -> Result<Statement<'a>, Stop>
    ensures { Gives phrase result (data_at cursor.old) }
{
    let address = cursor.number()?;
    cursor.is()?;
    let word = cursor.number()?;
    cursor.end()?;
    Ok(Statement::Data(address, word))
}

#[tactic(auto, unfolding(tpl_lang::specs::Reading::hart_at))]
fn hart<'a>(cursor: &mut Cursor<'_, 'a>) -> Result<Statement<'a>, Stop>
    ensures { Gives phrase result (hart_at cursor.old) }
{
    let number = cursor.number()?;
    cursor.open()?;
    Ok(Statement::Hart(number))
}

#[tactic(auto, unfolding(tpl_lang::specs::Reading::privilege_at))]
fn privilege(cursor: &mut Cursor<'_, '_>) -> Result<Priv, Stop>
    ensures { Reads (λ p. p) result cursor.new (privilege_at cursor.old) }
{
    match cursor.key()? {
        Key::Machine => Ok(Priv::M),
        Key::Supervisor => Ok(Priv::S),
        Key::User => Ok(Priv::U),
        _ => Err(Stop::Unexpected),
    }
}

#[tactic(auto, unfolding(tpl_lang::specs::Reading::start_at))]
fn start<'a>(cursor: &mut Cursor<'_, 'a>) -> Result<Statement<'a>, Stop>
    ensures { Gives phrase result (start_at cursor.old) }
{
    cursor.pc()?;
    let pc = cursor.number()?;
    cursor.priv_word()?;
    let privilege = privilege(cursor)?;
    cursor.end()?;
    Ok(Statement::Start(pc, privilege))
}

#[tactic(auto, unfolding(tpl_lang::specs::Reading::csr_at))]
fn csr<'a>(cursor: &mut Cursor<'_, 'a>) -> Result<Statement<'a>, Stop>
    ensures { Gives phrase result (csr_at cursor.old) }
{
    let name = cursor.word()?;
    cursor.is()?;
    let value = cursor.number()?;
    cursor.end()?;
    Ok(Statement::Csr(name, value))
}

/// A register's number, None where it is too large.
#[tactic(auto, unfolding(tpl_lang::specs::Reading::register_at))]
fn register(cursor: &mut Cursor<'_, '_>) -> Result<Option<u32>, Stop>
    ensures { Reads (λ n. n) result cursor.new (register_at cursor.old) }
{
    let word = cursor.word()?;
    match register_of(word) {
        Some(number) => Ok(number),
        None => Err(Stop::Unexpected),
    }
}

#[tactic(auto, unfolding(tpl_lang::specs::Reading::reg_at))]
fn reg<'a>(cursor: &mut Cursor<'_, 'a>) -> Result<Statement<'a>, Stop>
    ensures { Gives phrase result (reg_at cursor.old) }
{
    let number = register(cursor)?;
    cursor.is()?;
    let value = cursor.number()?;
    cursor.end()?;
    Ok(Statement::Reg(number, value))
}

#[tactic(auto, unfolding(tpl_lang::specs::Reading::fault_at))]
fn fault<'a>(alloc: Global, cursor: &mut Cursor<'_, 'a>) -> Result<Statement<'a>, Stop>
    ensures { Gives phrase result (fault_at cursor.old) }
{
    cursor.outcome_word()?;
    cursor.within()?;
    let outcomes = cursor.outcomes(alloc)?;
    cursor.end()?;
    Ok(Statement::Fault(outcomes))
}

#[tactic(auto, unfolding(tpl_lang::specs::Reading::repeat_at))]
fn repeat<'a>(cursor: &mut Cursor<'_, 'a>) -> Result<Statement<'a>, Stop>
    ensures { Gives phrase result (repeat_at cursor.old) }
{
    let times = cursor.number()?;
    cursor.open()?;
    Ok(Statement::Repeat(times))
}

#[tactic(auto, unfolding(tpl_lang::specs::Reading::label_at))]
fn label<'a>(cursor: &mut Cursor<'_, 'a>) -> Result<Statement<'a>, Stop>
    ensures { Gives phrase result (label_at cursor.old) }
{
    let name = cursor.name()?;
    cursor.end()?;
    Ok(Statement::Label(name))
}

/// An alternative behind its weight.
#[tactic(auto, unfolding(tpl_lang::specs::Reading::way_at))]
fn way<'a>(cursor: &mut Cursor<'_, 'a>, weight: Numeral) -> Result<Statement<'a>, Stop>
    ensures { Gives phrase result (way_at weight cursor.old) }
{
    cursor.colon()?;
    cursor.open()?;
    Ok(Statement::Way(weight))
}

/// The statement that a word opens.
#[tactic(auto, unfolding(tpl_lang::specs::Reading::block_at))]
fn keyed<'a>(alloc: Global, cursor: &mut Cursor<'_, 'a>, key: Key) -> Result<Statement<'a>, Stop>
    ensures { Gives phrase result (keyed_at key cursor.old) }
{
    match key {
        Key::Ram => ram(cursor),
        Key::Pool => Ok(Statement::Pool(cursor.numbers(alloc)?)),
        Key::Tables => Ok(Statement::Tables(cursor.numbers(alloc)?)),
        Key::Pteflags => Ok(Statement::Flags(cursor.numbers(alloc)?)),
        Key::Vectors => vectors(alloc, cursor),
        Key::Set => named_set(alloc, cursor),
        Key::Name => domain_of_name(alloc, cursor),
        Key::Data => data(cursor),
        Key::Hart => hart(cursor),
        Key::Start => start(cursor),
        Key::Csr => csr(cursor),
        Key::Reg => reg(cursor),
        Key::Body => {
            cursor.open()?;
            Ok(Statement::Body)
        }
        Key::Do => Ok(Statement::Do(cursor.wishes(alloc)?)),
        Key::Fault => fault(alloc, cursor),
        Key::Seq => {
            cursor.open()?;
            Ok(Statement::Seq)
        }
        Key::Repeat => repeat(cursor),
        Key::Choose => {
            cursor.open()?;
            Ok(Statement::Choose)
        }
        Key::Label => label(cursor),
        _ => Err(Stop::Unexpected),
    }
}

#[tactic(auto, unfolding(tpl_lang::specs::Reading::close_at))]
fn close<'a>(cursor: &mut Cursor<'_, 'a>) -> Result<Statement<'a>, Stop>
    ensures { Gives phrase result (close_at cursor.old) }
{
    cursor.end()?;
    Ok(Statement::Close)
}

/// The statement that the tokens of a line are, all of them.
#[tactic(auto, unfolding(tpl_lang::specs::Reading::statement_of))]
pub fn read_statement<'a>(alloc: Global, tokens: &[Token<'a>]) -> Result<Statement<'a>, Stop>
    ensures { Gives phrase result (statement_of (views tokens.now)) }
{
    let mut cursor = Cursor::new(tokens);
    match cursor.next()? {
        Token::Word(word) => match key_of(word) {
            Some(key) => keyed(alloc, &mut cursor, key),
            None => Err(Stop::Unexpected),
        },
        Token::Number(weight) => way(&mut cursor, weight),
        Token::Mark(Mark::Close) => close(&mut cursor),
        Token::Mark(_) => Err(Stop::Unexpected),
    }
}
