// The states of harts, their records and dropped biases.
ghost use Rattle.std.specs.Prelude.{◌≡◌, ◌≤◌, IfErr};
ghost use Rattle.byte_format.specs.Internal.Readers.{Gives, word_at, times, counted_at, few_at, with_front};
ghost use Rattle.note_items.specs.Internal.Readers.{priv_of, role_of, outcome_of, rd_of, priv_at, pair_at, state_at, access_at, place_at, marks_at, values_at, record_at, trace_at, why_of, drop_at};
ghost use Rattle.tpl_ast.specs.Limits.{file_limits};

use crate::checks::{is_access, is_state};
use byte_format::{PieceError, after_half, byte_of, word_of};
use rv_csr::is_cause;
use rv_hart::{Outcome, Priv, Record};
use rv_script::{Access, Accesses, Role};
use std::alloc::Global;
use tpl_admit::{Dropped, HartState, Why};
use tpl_ast::{Items, MAX_ACCESSES};

fn priv_from(n: u32) -> Result<Priv, PieceError>
    ensures gives { Gives (λ x. x) result (priv_of n) }
    ensures malformed { IfErr result (λ e. e ≡ PieceError.Malformed) }
{
    match n {
        0 => Ok(Priv::U),
        1 => Ok(Priv::S),
        3 => Ok(Priv::M),
        _ => Err(PieceError::Malformed),
    }
}

#[tactic(auto, unfolding(crate::specs::Internal::Readers::priv_at))]
fn priv_read(bytes: &[u8]) -> Result<(Priv, &[u8]), PieceError>
    ensures gives { Gives (λ x. (x.0, x.1.now)) result (priv_at bytes.now) }
    ensures malformed { IfErr result (λ e. e ≡ PieceError.Malformed) }
{
    let (n, rest) = word_of(bytes)?;
    Ok((priv_from(n)?, rest))
}

#[tactic(auto, unfolding(crate::specs::Internal::Readers::pair_at))]
fn pair_of(bytes: &[u8]) -> Result<((u32, u32), &[u8]), PieceError>
    ensures gives { Gives (λ x. (x.0, x.1.now)) result (pair_at bytes.now) }
    ensures malformed { IfErr result (λ e. e ≡ PieceError.Malformed) }
{
    let (key, rest) = word_of(bytes)?;
    let (value, rest) = word_of(rest)?;
    Ok(((key, value), rest))
}

fn words_in(alloc: Global, count: u32, bytes: &[u8]) -> Result<(Items<u32>, &[u8]), PieceError>
    ensures { Gives (λ x. (x.0, x.1.now)) result (times word_at count bytes.now) }
{
    let mut items = Items::new(alloc);
    let mut rest = bytes;
    for _ in 0..count {
        let (item, behind) = word_of(rest)?;
        items.push(item)?;
        rest = behind;
    }
    Ok((items, rest))
}

#[tactic(auto, unfolding(byte_format::specs::Internal::Readers::counted_at))]
pub fn words_of(alloc: Global, bytes: &[u8]) -> Result<(Items<u32>, &[u8]), PieceError>
    ensures { Gives (λ x. (x.0, x.1.now)) result (counted_at word_at bytes.now) }
{
    let (count, rest) = word_of(bytes)?;
    words_in(alloc, count, rest)
}

fn pairs_in(
    alloc: Global,
    count: u32,
    bytes: &[u8],
) -> Result<(Items<(u32, u32)>, &[u8]), PieceError>
    ensures { Gives (λ x. (x.0, x.1.now)) result (times pair_at count bytes.now) }
{
    let mut items = Items::new(alloc);
    let mut rest = bytes;
    for _ in 0..count {
        let (item, behind) = pair_of(rest)?;
        items.push(item)?;
        rest = behind;
    }
    Ok((items, rest))
}

/// A count of pairs, and that many.
#[tactic(auto, unfolding(byte_format::specs::Internal::Readers::counted_at))]
pub fn pairs_of(alloc: Global, bytes: &[u8]) -> Result<(Items<(u32, u32)>, &[u8]), PieceError>
    ensures { Gives (λ x. (x.0, x.1.now)) result (counted_at pair_at bytes.now) }
{
    let (count, rest) = word_of(bytes)?;
    pairs_in(alloc, count, rest)
}

#[tactic(auto, unfolding(crate::specs::Internal::Readers::state_at))]
fn state_of(alloc: Global, bytes: &[u8]) -> Result<(HartState, &[u8]), PieceError>
    ensures { Gives (λ x. (x.0, x.1.now)) result (state_at bytes.now) }
{
    let (pc, rest) = word_of(bytes)?;
    let (privilege, rest) = priv_read(rest)?;
    let (mstatus, rest) = word_of(rest)?;
    let (medeleg, rest) = word_of(rest)?;
    let (satp, rest) = word_of(rest)?;
    let (places, rest) = pairs_of(alloc, rest)?;
    let state = HartState {
        pc,
        privilege,
        mstatus,
        medeleg,
        satp,
        places,
    };
    if !is_state(&state) {
        return Err(PieceError::Malformed);
    }
    Ok((state, rest))
}

/// So many states.
pub fn states_in(
    alloc: Global,
    count: u32,
    bytes: &[u8],
) -> Result<(Items<HartState>, &[u8]), PieceError>
    ensures { Gives (λ x. (x.0, x.1.now)) result (times state_at count bytes.now) }
{
    let mut items = Items::new(alloc);
    let mut rest = bytes;
    for _ in 0..count {
        let (item, behind) = state_of(alloc, rest)?;
        items.push(item)?;
        rest = behind;
    }
    Ok((items, rest))
}

/// A count of states, and that many.
#[tactic(auto, unfolding(byte_format::specs::Internal::Readers::counted_at))]
pub fn states_of(alloc: Global, bytes: &[u8]) -> Result<(Items<HartState>, &[u8]), PieceError>
    ensures { Gives (λ x. (x.0, x.1.now)) result (counted_at state_at bytes.now) }
{
    let (count, rest) = word_of(bytes)?;
    states_in(alloc, count, rest)
}

fn role_from(n: u8) -> Result<Role, PieceError>
    ensures gives { Gives (λ x. x) result (role_of n) }
    ensures malformed { IfErr result (λ e. e ≡ PieceError.Malformed) }
{
    match n {
        0 => Ok(Role::Fetch),
        1 => Ok(Role::Walk),
        2 => Ok(Role::Load),
        3 => Ok(Role::Store),
        _ => Err(PieceError::Malformed),
    }
}

#[tactic(auto, unfolding(crate::specs::Internal::Readers::access_at))]
fn access_of(bytes: &[u8]) -> Result<(Access, &[u8]), PieceError>
    ensures gives { Gives (λ x. (x.0, x.1.now)) result (access_at bytes.now) }
    ensures malformed { IfErr result (λ e. e ≡ PieceError.Malformed) }
{
    let (addr, rest) = word_of(bytes)?;
    let (value, rest) = word_of(rest)?;
    let (role, rest) = byte_of(rest)?;
    let (size, rest) = byte_of(rest)?;
    let rest = after_half(rest, 0)?;
    let access = Access {
        role: role_from(role)?,
        addr,
        size,
        value,
    };
    if !is_access(access) {
        return Err(PieceError::Malformed);
    }
    Ok((access, rest))
}

fn accesses_in(count: u32, bytes: &[u8]) -> Result<(Accesses, &[u8]), PieceError>
    requires { count ≤ file_limits.accesses }
    ensures gives { Gives (λ x. (x.0, x.1.now)) result (times access_at count bytes.now) }
    ensures malformed { IfErr result (λ e. e ≡ PieceError.Malformed) }
{
    let mut items = Accesses::new();
    let mut rest = bytes;
    for _ in 0..count {
        let (item, behind) = access_of(rest)?;
        items.push(item);
        rest = behind;
    }
    Ok((items, rest))
}

#[tactic(auto, unfolding(byte_format::specs::Internal::Readers::few_at))]
fn accesses_of(bytes: &[u8]) -> Result<(Accesses, &[u8]), PieceError>
    ensures gives { Gives (λ x. (x.0, x.1.now)) result (few_at file_limits.accesses access_at bytes.now) }
    ensures malformed { IfErr result (λ e. e ≡ PieceError.Malformed) }
{
    let (count, rest) = word_of(bytes)?;
    if count > MAX_ACCESSES as u32 {
        return Err(PieceError::Malformed);
    }
    accesses_in(count, rest)
}

#[tactic(auto, unfolding(crate::specs::Internal::Readers::outcome_of))]
fn outcome_from(cause: u8, taker: u8, value: u32) -> Result<Outcome, PieceError>
    ensures gives { Gives (λ x. x) result (outcome_of cause taker value) }
    ensures malformed { IfErr result (λ e. e ≡ PieceError.Malformed) }
{
    if cause == 255 {
        if taker == 255 && value == 0 {
            return Ok(Outcome::Retired);
        }
        return Err(PieceError::Malformed);
    }
    if !is_cause(u32::from(cause)) {
        return Err(PieceError::Malformed);
    }
    let to = priv_from(u32::from(taker))?;
    Ok(Outcome::Trap { cause, value, to })
}

fn rd_from(n: u8, value: u32) -> Result<Option<(u8, u32)>, PieceError>
    ensures gives { Gives (λ x. x) result (rd_of n value) }
    ensures malformed { IfErr result (λ e. e ≡ PieceError.Malformed) }
{
    if n == 0 {
        if value == 0 {
            return Ok(None);
        }
        return Err(PieceError::Malformed);
    }
    if n < 32 {
        return Ok(Some((n, value)));
    }
    Err(PieceError::Malformed)
}

/// The pc, the instruction word and the next pc.
#[tactic(auto, unfolding(crate::specs::Internal::Readers::place_at))]
fn place_of(bytes: &[u8]) -> Result<((u32, u32, u32), &[u8]), PieceError>
    ensures gives { Gives (λ x. ((x.0.0, (x.0.1, x.0.2)), x.1.now)) result (place_at bytes.now) }
    ensures malformed { IfErr result (λ e. e ≡ PieceError.Malformed) }
{
    let (pc, rest) = word_of(bytes)?;
    let (word, rest) = word_of(rest)?;
    let (next_pc, rest) = word_of(rest)?;
    Ok(((pc, word, next_pc), rest))
}

/// The privilege, the outcome, the privilege that takes the trap, and the register.
#[tactic(auto, unfolding(crate::specs::Internal::Readers::marks_at))]
fn marks_of(bytes: &[u8]) -> Result<((Priv, u8, u8, u8), &[u8]), PieceError>
    ensures gives { Gives (λ x. ((x.0.0, (x.0.1, (x.0.2, x.0.3))), x.1.now)) result (marks_at bytes.now) }
    ensures malformed { IfErr result (λ e. e ≡ PieceError.Malformed) }
{
    let (level, rest) = byte_of(bytes)?;
    let privilege = priv_from(u32::from(level))?;
    let (cause, rest) = byte_of(rest)?;
    let (taker, rest) = byte_of(rest)?;
    let (rd, rest) = byte_of(rest)?;
    Ok(((privilege, cause, taker, rd), rest))
}

/// The register's value and the trap value.
#[tactic(auto, unfolding(crate::specs::Internal::Readers::values_at))]
fn values_of(bytes: &[u8]) -> Result<((u32, u32), &[u8]), PieceError>
    ensures gives { Gives (λ x. (x.0, x.1.now)) result (values_at bytes.now) }
    ensures malformed { IfErr result (λ e. e ≡ PieceError.Malformed) }
{
    let (rd, rest) = word_of(bytes)?;
    let (trap, rest) = word_of(rest)?;
    Ok(((rd, trap), rest))
}

#[tactic(auto, unfolding(crate::specs::Internal::Readers::record_at))]
fn record_of(bytes: &[u8]) -> Result<(Record, &[u8]), PieceError>
    ensures gives { Gives (λ x. (x.0, x.1.now)) result (record_at bytes.now) }
    ensures malformed { IfErr result (λ e. e ≡ PieceError.Malformed) }
{
    let (place, rest) = place_of(bytes)?;
    let (marks, rest) = marks_of(rest)?;
    let (values, rest) = values_of(rest)?;
    let (accesses, rest) = accesses_of(rest)?;
    let outcome = outcome_from(marks.1, marks.2, values.1)?;
    let rd = rd_from(marks.3, values.0)?;
    Ok((
        Record {
            pc: place.0,
            privilege: marks.0,
            word: place.1,
            outcome,
            rd,
            accesses,
            next_pc: place.2,
        },
        rest,
    ))
}

fn records_in(alloc: Global, count: u32, bytes: &[u8]) -> Result<(Items<Record>, &[u8]), PieceError>
    ensures { Gives (λ x. (x.0, x.1.now)) result (times record_at count bytes.now) }
{
    let mut items = Items::new(alloc);
    let mut rest = bytes;
    for _ in 0..count {
        let (item, behind) = record_of(rest)?;
        items.push(item)?;
        rest = behind;
    }
    Ok((items, rest))
}

/// The records of one hart.
#[tactic(auto, unfolding(crate::specs::Internal::Readers::trace_at, byte_format::specs::Internal::Readers::counted_at))]
fn trace_of(alloc: Global, bytes: &[u8]) -> Result<(Items<Record>, &[u8]), PieceError>
    ensures { Gives (λ x. (x.0, x.1.now)) result (trace_at bytes.now) }
{
    let (count, rest) = word_of(bytes)?;
    records_in(alloc, count, rest)
}

/// The records of so many harts.
pub fn traces_in(
    alloc: Global,
    count: u32,
    bytes: &[u8],
) -> Result<(Items<Items<Record>>, &[u8]), PieceError>
    ensures { Gives (λ x. (x.0, x.1.now)) result (times trace_at count bytes.now) }
{
    let mut items = Items::new(alloc);
    let mut rest = bytes;
    for _ in 0..count {
        let (item, behind) = trace_of(alloc, rest)?;
        items.push(item)?;
        rest = behind;
    }
    Ok((items, rest))
}

fn why_from(n: u32) -> Result<Why, PieceError>
    ensures gives { Gives (λ x. x) result (why_of n) }
    ensures malformed { IfErr result (λ e. e ≡ PieceError.Malformed) }
{
    match n {
        0 => Ok(Why::NoneFits),
        1 => Ok(Why::Spent),
        _ => Err(PieceError::Malformed),
    }
}

#[tactic(auto, unfolding(crate::specs::Internal::Readers::drop_at))]
fn drop_of(bytes: &[u8]) -> Result<(Dropped, &[u8]), PieceError>
    ensures gives { Gives (λ x. (x.0, x.1.now)) result (drop_at bytes.now) }
    ensures malformed { IfErr result (λ e. e ≡ PieceError.Malformed) }
{
    let (hart, rest) = word_of(bytes)?;
    let (step, rest) = word_of(rest)?;
    let (atom, rest) = word_of(rest)?;
    let (n, rest) = word_of(rest)?;
    let why = why_from(n)?;
    Ok((
        Dropped {
            hart,
            step,
            atom,
            why,
        },
        rest,
    ))
}

fn drops_in(alloc: Global, count: u32, bytes: &[u8]) -> Result<(Items<Dropped>, &[u8]), PieceError>
    ensures { Gives (λ x. (x.0, x.1.now)) result (times drop_at count bytes.now) }
{
    let mut items = Items::new(alloc);
    let mut rest = bytes;
    for _ in 0..count {
        let (item, behind) = drop_of(rest)?;
        items.push(item)?;
        rest = behind;
    }
    Ok((items, rest))
}

/// A count of dropped biases, and that many.
#[tactic(auto, unfolding(byte_format::specs::Internal::Readers::counted_at))]
pub fn drops_of(alloc: Global, bytes: &[u8]) -> Result<(Items<Dropped>, &[u8]), PieceError>
    ensures { Gives (λ x. (x.0, x.1.now)) result (counted_at drop_at bytes.now) }
{
    let (count, rest) = word_of(bytes)?;
    drops_in(alloc, count, rest)
}
