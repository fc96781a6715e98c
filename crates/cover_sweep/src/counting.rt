// How often each operation was fetched.
ghost use Rattle.std.specs.Prelude.{◌≡◌, ℕ, ◌+◌, ◌<◌, ◌^◌, ◌++◌, [], ◌∷◌, IfOk, OnOk, length, option_map, slice_index, sum_by};
ghost use Rattle.rv_isa.specs.Numbers.{op_number};
ghost use Rattle.tpl_admit.specs.Admitting.{is_unfetched};
ghost use Rattle.cover_sweep.specs.Counts.{counted, counts_by, counts_of, fetched_in, times_in, times_of};

use crate::OutOfMemory;
use rv_hart::{Outcome, Record};
use rv_isa::{OPS, Op, decode};
use std::alloc::{AllocError, Global};
use tpl_admit::Cert;
use tpl_ast::Items;

/// Whether the fetch of a step failed.
fn is_unfetched(outcome: Outcome) -> bool
    ensures { result ≡ is_unfetched outcome }
{
    matches!(outcome, Outcome::Trap { cause: 1 | 12, .. })
}

/// The operation that a step fetched; none where its fetch failed.
fn fetched(done: &Record) -> Option<Op>
    ensures { option_map op_number result ≡ fetched_in done.now }
{
    if is_unfetched(done.outcome) {
        return None;
    }
    match decode(done.word) {
        None => None,
        Some(i) => Some(i.op),
    }
}

/// Counts a step at the number of the operation that it fetched.
fn count_step(totals: &mut [u32], done: &Record)
    requires whole { length totals.old ≡ 58 }
    requires room { (n : ℕ) → slice_index totals.old n + 1 < 2 ^ 32 }
    ensures { (n : ℕ) → slice_index totals.new n ≡ slice_index totals.old n + times_in n (done.now ∷ []) }
{
    if let Some(op) = fetched(done) {
        totals[usize::from(op.number())] += 1;
    }
}

/// Counts the steps of a hart.
fn count_hart(totals: &mut [u32], trace: &[Record])
    requires whole { length totals.old ≡ 58 }
    requires room { (n : ℕ) → slice_index totals.old n + length trace.now < 2 ^ 32 }
    ensures { (n : ℕ) → slice_index totals.new n ≡ slice_index totals.old n + times_in n trace.now }
{
    for done in trace {
        count_step(totals, done);
    }
}

/// Counts the steps of all harts.
fn count_harts(totals: &mut [u32], traces: &[Items<Record>])
    requires whole { length totals.old ≡ 58 }
    requires room { (n : ℕ) → slice_index totals.old n + sum_by (λ t. length t) traces.now < 2 ^ 32 }
    ensures { (n : ℕ) → slice_index totals.new n ≡ slice_index totals.old n + times_of n traces.now }
{
    for trace in traces {
        count_hart(totals, trace.as_slice());
    }
}

/// How many steps of all harts fetched each operation, by the operation's number.
fn totals_of(alloc: Global, traces: &[Items<Record>]) -> Result<Vec<u32>, AllocError>
    requires { sum_by (λ t. length t) traces.now < 2 ^ 32 }
    ensures whole { IfOk result (λ totals. length totals.items ≡ 58) }
    ensures each { IfOk result (λ totals. (n : ℕ) → slice_index totals.items n ≡ times_of n traces.now) }
{
    let mut totals = vec![in alloc; 0u32; OPS.len()]?;
    count_harts(&mut totals, traces);
    Ok(totals)
}

/// Appends an operation with its count, if it has one.
fn push_count(counts: &mut Vec<(Op, u32)>, op: Op, count: u32) -> Result<(), AllocError>
    ensures { OnOk result (counts.new.items ≡ counts.old.items ++ counted op count) }
{
    if count != 0 {
        counts.push((op, count))?;
    }
    Ok(())
}

/// The operations that have a count, each with it.
fn listed(alloc: Global, totals: &[u32], ops: &[Op]) -> Result<Vec<(Op, u32)>, AllocError>
    requires { length totals.now ≡ 58 }
    ensures { IfOk result (λ counts. counts.items ≡ counts_by totals.now ops.now) }
{
    let mut counts = Vec::new(alloc);
    for op in ops {
        push_count(&mut counts, *op, totals[usize::from(op.number())])?;
    }
    Ok(counts)
}

/// The operations that the steps of a test fetched, in the order of the table, each with how many steps of all harts
/// fetched it. A step whose fetch failed fetched none; one that trapped later counts.
pub fn counts(alloc: Global, c: &Cert) -> Result<Vec<(Op, u32)>, OutOfMemory>
    requires { sum_by (λ t. length t) c.now.traces < 2 ^ 32 }
    ensures { IfOk result (λ counts. counts.items ≡ counts_of c.now) }
{
    let totals = totals_of(alloc, c.traces.as_slice())?;
    let counts = listed(alloc, &totals, &OPS)?;
    Ok(counts)
}
