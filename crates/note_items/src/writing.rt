// The harts' states and records, and dropped biases.
ghost use Rattle.std.specs.Prelude.{◌≡◌, ◌++◌, OnOk};
ghost use Rattle.std.specs.List.{flat_map};
ghost use Rattle.byte_format.specs.Numbers.{word, counted};
ghost use Rattle.note_items.specs.Spelling.{level, role_number, outcome_number, taker_number, trap_value, rd_number, rd_value, pair_spelling, fixed_spelling, state_spelling, access_spelling, record_place, record_marks, record_values, record_spelling, trace_spelling, why_number, drop_spelling};

use byte_format::{put_byte, put_half, put_size, put_word};
use rv_hart::{Outcome, Priv, Record};
use rv_script::{Access, Role};
use std::alloc::AllocError;
use tpl_admit::{Dropped, HartState, Why};
use tpl_ast::Items;

/// The number of a privilege (Privileged, 1.2).
fn level(p: Priv) -> u8
    ensures { result ≡ level p }
{
    match p {
        Priv::U => 0,
        Priv::S => 1,
        Priv::M => 3,
    }
}

#[tactic(auto, unfolding(byte_format::specs::Numbers::counted))]
pub fn put_words(out: &mut Vec<u8>, words: &[u32]) -> Result<(), AllocError>
    ensures { OnOk result (out.new.items ≡ out.old.items ++ counted word words.now) }
{
    put_size(out, words.len())?;
    for word in words {
        put_word(out, *word)?;
    }
    Ok(())
}

#[tactic(auto, unfolding(crate::specs::Spelling::pair_spelling))]
fn put_pair(out: &mut Vec<u8>, pair: &(u32, u32)) -> Result<(), AllocError>
    ensures { OnOk result (out.new.items ≡ out.old.items ++ pair_spelling pair.now) }
{
    put_word(out, pair.0)?;
    put_word(out, pair.1)
}

#[tactic(auto, unfolding(byte_format::specs::Numbers::counted))]
pub fn put_pairs(out: &mut Vec<u8>, pairs: &[(u32, u32)]) -> Result<(), AllocError>
    ensures { OnOk result (out.new.items ≡ out.old.items ++ counted pair_spelling pairs.now) }
{
    put_size(out, pairs.len())?;
    for pair in pairs {
        put_pair(out, pair)?;
    }
    Ok(())
}

#[tactic(auto, unfolding(crate::specs::Spelling::fixed_spelling))]
fn put_fixed(out: &mut Vec<u8>, s: &HartState) -> Result<(), AllocError>
    ensures { OnOk result (out.new.items ≡ out.old.items ++ fixed_spelling s.now) }
{
    put_word(out, s.pc)?;
    put_word(out, u32::from(level(s.privilege)))?;
    put_word(out, s.mstatus)?;
    put_word(out, s.medeleg)?;
    put_word(out, s.satp)
}

#[tactic(auto, unfolding(crate::specs::Spelling::state_spelling))]
fn put_state(out: &mut Vec<u8>, s: &HartState) -> Result<(), AllocError>
    ensures { OnOk result (out.new.items ≡ out.old.items ++ state_spelling s.now) }
{
    put_fixed(out, s)?;
    put_pairs(out, s.places.as_slice())
}

pub fn put_states(out: &mut Vec<u8>, states: &[HartState]) -> Result<(), AllocError>
    ensures { OnOk result (out.new.items ≡ out.old.items ++ flat_map state_spelling states.now) }
{
    for state in states {
        put_state(out, state)?;
    }
    Ok(())
}

fn role_number(r: Role) -> u8
    ensures { result ≡ role_number r }
{
    match r {
        Role::Fetch => 0,
        Role::Walk => 1,
        Role::Load => 2,
        Role::Store => 3,
    }
}

#[tactic(auto, unfolding(crate::specs::Spelling::access_spelling))]
fn put_access(out: &mut Vec<u8>, a: &Access) -> Result<(), AllocError>
    ensures { OnOk result (out.new.items ≡ out.old.items ++ access_spelling a.now) }
{
    put_word(out, a.addr)?;
    put_word(out, a.value)?;
    put_byte(out, role_number(a.role))?;
    put_byte(out, a.size)?;
    put_half(out, 0)
}

#[tactic(auto, unfolding(byte_format::specs::Numbers::counted))]
fn put_accesses(out: &mut Vec<u8>, accesses: &[Access]) -> Result<(), AllocError>
    ensures { OnOk result (out.new.items ≡ out.old.items ++ counted access_spelling accesses.now) }
{
    put_size(out, accesses.len())?;
    for access in accesses {
        put_access(out, access)?;
    }
    Ok(())
}

/// The cause, or 255 where the instruction retired.
fn outcome_number(o: Outcome) -> u8
    ensures { result ≡ outcome_number o }
{
    match o {
        Outcome::Retired => 255,
        Outcome::Trap { cause, .. } => cause,
    }
}

/// The privilege that takes the trap, or 255.
fn taker_number(o: Outcome) -> u8
    ensures { result ≡ taker_number o }
{
    match o {
        Outcome::Retired => 255,
        Outcome::Trap { to, .. } => level(to),
    }
}

fn trap_value(o: Outcome) -> u32
    ensures { result ≡ trap_value o }
{
    match o {
        Outcome::Retired => 0,
        Outcome::Trap { value, .. } => value,
    }
}

/// The register that was written, or 0.
fn rd_number(rd: Option<(u8, u32)>) -> u8
    ensures { result ≡ rd_number rd }
{
    match rd {
        None => 0,
        Some((n, _)) => n,
    }
}

fn rd_value(rd: Option<(u8, u32)>) -> u32
    ensures { result ≡ rd_value rd }
{
    match rd {
        None => 0,
        Some((_, value)) => value,
    }
}

#[tactic(auto, unfolding(crate::specs::Spelling::record_place))]
fn put_record_place(out: &mut Vec<u8>, r: &Record) -> Result<(), AllocError>
    ensures { OnOk result (out.new.items ≡ out.old.items ++ record_place r.now) }
{
    put_word(out, r.pc)?;
    put_word(out, r.word)?;
    put_word(out, r.next_pc)
}

#[tactic(auto, unfolding(crate::specs::Spelling::record_marks))]
fn put_record_marks(out: &mut Vec<u8>, r: &Record) -> Result<(), AllocError>
    ensures { OnOk result (out.new.items ≡ out.old.items ++ record_marks r.now) }
{
    put_byte(out, level(r.privilege))?;
    put_byte(out, outcome_number(r.outcome))?;
    put_byte(out, taker_number(r.outcome))?;
    put_byte(out, rd_number(r.rd))
}

#[tactic(auto, unfolding(crate::specs::Spelling::record_values))]
fn put_record_values(out: &mut Vec<u8>, r: &Record) -> Result<(), AllocError>
    ensures { OnOk result (out.new.items ≡ out.old.items ++ record_values r.now) }
{
    put_word(out, rd_value(r.rd))?;
    put_word(out, trap_value(r.outcome))
}

#[tactic(auto, unfolding(crate::specs::Spelling::record_spelling))]
fn put_record(out: &mut Vec<u8>, r: &Record) -> Result<(), AllocError>
    ensures { OnOk result (out.new.items ≡ out.old.items ++ record_spelling r.now) }
{
    put_record_place(out, r)?;
    put_record_marks(out, r)?;
    put_record_values(out, r)?;
    put_accesses(out, r.accesses.as_slice())
}

#[tactic(auto, unfolding(crate::specs::Spelling::trace_spelling, byte_format::specs::Numbers::counted))]
fn put_trace(out: &mut Vec<u8>, records: &[Record]) -> Result<(), AllocError>
    ensures { OnOk result (out.new.items ≡ out.old.items ++ trace_spelling records.now) }
{
    put_size(out, records.len())?;
    for record in records {
        put_record(out, record)?;
    }
    Ok(())
}

pub fn put_traces(out: &mut Vec<u8>, traces: &[Items<Record>]) -> Result<(), AllocError>
    ensures { OnOk result (out.new.items ≡ out.old.items ++ flat_map trace_spelling traces.now) }
{
    for trace in traces {
        put_trace(out, trace.as_slice())?;
    }
    Ok(())
}

fn why_number(why: Why) -> u8
    ensures { result ≡ why_number why }
{
    match why {
        Why::NoneFits => 0,
        Why::Spent => 1,
    }
}

#[tactic(auto, unfolding(crate::specs::Spelling::drop_spelling))]
fn put_drop(out: &mut Vec<u8>, d: &Dropped) -> Result<(), AllocError>
    ensures { OnOk result (out.new.items ≡ out.old.items ++ drop_spelling d.now) }
{
    put_word(out, d.hart)?;
    put_word(out, d.step)?;
    put_word(out, d.atom)?;
    put_word(out, u32::from(why_number(d.why)))
}

#[tactic(auto, unfolding(byte_format::specs::Numbers::counted))]
pub fn put_dropped(out: &mut Vec<u8>, dropped: &[Dropped]) -> Result<(), AllocError>
    ensures { OnOk result (out.new.items ≡ out.old.items ++ counted drop_spelling dropped.now) }
{
    put_size(out, dropped.len())?;
    for one in dropped {
        put_drop(out, one)?;
    }
    Ok(())
}
