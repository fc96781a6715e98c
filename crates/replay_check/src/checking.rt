// The whole check of a certificate.
ghost use Rattle.std.specs.Prelude.{◌≡◌, ◌↔◌, ℕ, ◌≤◌, ◌<◌, IsTrue, IfOk, IfErr, IfSome, None, OnOk, Some, length};
ghost use Rattle.rv_mem.specs.Part.{part_at};
ghost use Rattle.rv_script.specs.Memory.{memory_after};
ghost use Rattle.tpl_admit.specs.declared.certificate.Cert.{Cert as ACert};
ghost use Rattle.tpl_admit.specs.Starts.{start_of, final_of, trace_of, first_memory};
ghost use Rattle.tpl_admit.specs.Races.{footprint_of, footprints_of};
ghost use Rattle.tpl_admit.specs.WellFormed.{IsWellFormed};
ghost use Rattle.tpl_ast.specs.States.{IsState};
ghost use Rattle.tpl_admit.specs.Validity.{in_turn, IsValid, EndsAsPrinted, MemoryEndsAsPrinted};
ghost use Rattle.rv_system.specs.Faithfulness.{IsFaithful};
ghost use Rattle.replay_check.specs.Failures.{HartIsRight, HartGoesWrong, AllAreRight, AllEndAsPrinted, FailsInStep, IsFirstFailure};
ghost use Rattle.replay_check.specs.declared.verdict.Verdict.TheVariants.{Yes, No};
ghost use Rattle.replay_check.specs.Internal.Memory.{Shows, ShowsOf, WhereShown, AreInWords};
ghost use Rattle.replay_check.specs.Internal.Replay.{AllEndAs, EndsAs, EndsOtherwise, IsFixedTold, IsReplayed};
ghost use Rattle.tpl_ast.specs.Limits.{most_records};

use crate::memory::{are_last, memory_of};
use crate::places::are_told;
use crate::racing::first_race;
use crate::stepping::{Wrong, take_all};
use crate::verdict::Kind;
use crate::{OutOfMemory, Verdict};
use given_start::hart_in;
use rv_hart::{Hart, Record, apply_all};
use rv_mem::PartMem;
use std::alloc::Global;
use tpl_admit::{Cert, HartState, admits};
use tpl_lang::template_law;

/// Where hart k starts.
fn start_state(cert: &Cert, k: u8) -> &HartState
    requires well_formed { IsWellFormed cert.now }
    requires there { k < length cert.now.start }
    ensures state { result.now ≡ start_of cert.now k }
    ensures sound { IsState result.now }
{
    &cert.start.as_slice()[usize::from(k)]
}

/// Where hart k is printed to end.
fn final_state(cert: &Cert, k: u8) -> &HartState
    requires well_formed { IsWellFormed cert.now }
    requires there { k < length cert.now.start }
    ensures state { result.now ≡ final_of cert.now k }
    ensures sound { IsState result.now }
{
    &cert.finals.as_slice()[usize::from(k)]
}

/// The records of hart k.
fn trace(cert: &Cert, k: u8) -> &[Record]
    requires well_formed { IsWellFormed cert.now }
    requires there { k < length cert.now.start }
    ensures records { result.now ≡ trace_of cert.now k }
    ensures count { length result.now ≤ most_records }
{
    cert.traces.as_slice()[usize::from(k)].as_slice()
}

/// Memory as the start gives it.
fn start_memory(alloc: Global, cert: &Cert) -> Result<PartMem, OutOfMemory>
    requires { IsWellFormed cert.now }
    ensures { IfOk result (λ m. ShowsOf cert.now (first_memory cert.now) (part_at m)) }
{
    // RAM is whole frames.
    template_law();
    memory_of(alloc, cert.template.ram.as_slice(), cert.words.as_slice())
}

/// Hart k after all its steps alone on the start's memory, or the first of them that is not that of its record.
fn replayed(cert: &Cert, k: u8, memory: &mut PartMem) -> Result<Hart, Wrong>
    requires well_formed { IsWellFormed cert.now }
    requires there { k < length cert.now.start }
    requires memory { ShowsOf cert.now (first_memory cert.now) (part_at memory.old) }
    ensures right { IfOk result (λ h. HartIsRight cert.now k) }
    ensures end { IfOk result (λ h. EndsAs cert.now k h) }
    ensures wrong { IfErr result (λ w. HartGoesWrong cert.now k w.kind w.step) }
    ensures memory { OnOk result (ShowsOf cert.now (memory_after (footprint_of (trace_of cert.now k)) (first_memory cert.now)) (part_at memory.new)) }
    ensures words { OnOk result (AreInWords (trace_of cert.now k)) }
{
    let mut hart = hart_in(start_state(cert, k), u32::from(k));
    match take_all(&mut hart, memory, trace(cert, k)) {
        None => Ok(hart),
        Some(wrong) => Err(wrong),
    }
}

/// Whether the fixed parts of hart k are those of a state.
fn is_fixed_told(told: &HartState, k: u8, hart: &Hart) -> bool
    ensures { IsTrue result ↔ IsFixedTold told.now k hart.now }
{
    told.pc == hart.pc
        && told.privilege == hart.privilege
        && told.mstatus == hart.csrs.mstatus()
        && told.medeleg == hart.csrs.medeleg()
        && told.satp == hart.csrs.satp()
        && hart.csrs.hart() == u32::from(k)
}

/// Whether hart k ends as printed, where this is what it knows in the end.
fn ends_as_told(cert: &Cert, k: u8, hart: &Hart) -> bool
    requires well_formed { IsWellFormed cert.now }
    requires there { k < length cert.now.start }
    requires end { EndsAs cert.now k hart.now }
    ensures { IsTrue result ↔ EndsAsPrinted cert.now k }
{
    let told = final_state(cert, k);
    is_fixed_told(told, k, hart) && are_told(hart, told.places.as_slice())
}

/// Whether memory ends as printed, where this is what is known of it after all steps.
fn memory_ends_as_told(cert: &Cert, memory: &PartMem) -> bool
    requires well_formed { IsWellFormed cert.now }
    requires end { ShowsOf cert.now (in_turn (length cert.now.start) (footprints_of (trace_of cert.now)) (first_memory cert.now)) (part_at memory.now) }
    ensures { IsTrue result ↔ MemoryEndsAsPrinted cert.now }
{
    are_last(memory, cert.words.as_slice(), cert.last.as_slice())
}

/// Where a certificate fails, and of which kind that is.
#[derive(Clone, Copy)]
struct Failure {
    kind: u8,
    hart: u8,
    step: u32,
}

/// Hart k after all its steps alone, or the first of them that is not that of its record.
fn alone(alloc: Global, cert: &Cert, k: u8) -> Result<Result<Hart, Wrong>, OutOfMemory>
    requires well_formed { IsWellFormed cert.now }
    requires there { k < length cert.now.start }
    ensures right { IfOk result (λ r. IfOk r (λ h. HartIsRight cert.now k)) }
    ensures end { IfOk result (λ r. IfOk r (λ h. EndsAs cert.now k h)) }
    ensures words { IfOk result (λ r. IfOk r (λ h. AreInWords (trace_of cert.now k))) }
    ensures wrong { IfOk result (λ r. IfErr r (λ w. HartGoesWrong cert.now k w.kind w.step)) }
{
    let mut memory = start_memory(alloc, cert)?;
    Ok(replayed(cert, k, &mut memory))
}

/// The harts after all their steps, each alone from the start, or the first step that is not that of its record.
fn all_alone(alloc: Global, cert: &Cert) -> Result<Result<Vec<Hart>, Failure>, OutOfMemory>
    requires { IsWellFormed cert.now }
    ensures right { IfOk result (λ r. IfOk r (λ harts. AllAreRight cert.now)) }
    ensures ends { IfOk result (λ r. IfOk r (λ harts. AllEndAs cert.now harts.items)) }
    ensures words { IfOk result (λ r. IfOk r (λ harts. (k : ℕ) → AreInWords (trace_of cert.now k))) }
    ensures wrong { IfOk result (λ r. IfErr r (λ f. FailsInStep cert.now f.kind f.hart f.step)) }
{
    let mut harts = Vec::new(alloc);
    for k in 0..cert.start.len() as u8 {
        match alone(alloc, cert, k)? {
            Ok(hart) => harts.push(hart)?,
            Err(Wrong { kind, step }) => return Ok(Err(Failure {
                kind,
                hart: k,
                step,
            })),
        }
    }
    Ok(Ok(harts))
}

/// The first hart that does not end as printed.
fn other_end(cert: &Cert, harts: &[Hart]) -> Option<u8>
    requires well_formed { IsWellFormed cert.now }
    requires ends { AllEndAs cert.now harts.now }
    ensures none { result ≡ None → AllEndAsPrinted cert.now }
    ensures some { (k : ℕ) → result ≡ Some k → EndsOtherwise cert.now k }
{
    for k in 0..cert.start.len() as u8 {
        if !ends_as_told(cert, k, &harts[usize::from(k)]) {
            return Some(k);
        }
    }
    None
}

/// Does what the records of a hart do to memory.
fn do_all(memory: &mut PartMem, records: &[Record])
    requires { AreInWords records.now }
    ensures { WhereShown (part_at memory.old) (λ ram given m. Shows ram given (memory_after (footprint_of records.now) m) (part_at memory.new)) }
{
    for record in records {
        apply_all(memory, record.accesses.as_slice());
    }
}

/// Memory after the records of all harts, hart by hart in ascending order.
fn end_memory(alloc: Global, cert: &Cert) -> Result<PartMem, OutOfMemory>
    requires well_formed { IsWellFormed cert.now }
    requires words { (k : ℕ) → AreInWords (trace_of cert.now k) }
    ensures { IfOk result (λ m. ShowsOf cert.now (in_turn (length cert.now.start) (footprints_of (trace_of cert.now)) (first_memory cert.now)) (part_at m)) }
{
    let mut memory = start_memory(alloc, cert)?;
    for k in 0..cert.start.len() as u8 {
        do_all(&mut memory, trace(cert, k));
    }
    Ok(memory)
}

/// The first end of a hart that is not as printed, or else that of memory.
fn unlike_end(alloc: Global, cert: &Cert, harts: &[Hart]) -> Result<Option<Failure>, OutOfMemory>
    requires well_formed { IsWellFormed cert.now }
    requires right { AllAreRight cert.now }
    requires ends { AllEndAs cert.now harts.now }
    requires words { (k : ℕ) → AreInWords (trace_of cert.now k) }
    ensures none { IfOk result (λ o. o ≡ None → IsReplayed cert.now) }
    ensures some { IfOk result (λ o. IfSome o (λ f. IsFirstFailure cert.now f.kind f.hart f.step)) }
{
    let kind = Kind::OtherEnd as u8;
    if let Some(hart) = other_end(cert, harts) {
        let step = trace(cert, hart).len() as u32;
        return Ok(Some(Failure { kind, hart, step }));
    }
    let memory = end_memory(alloc, cert)?;
    if !memory_ends_as_told(cert, &memory) {
        let hart = cert.start.len() as u8;
        return Ok(Some(Failure {
            kind,
            hart,
            step: 0,
        }));
    }
    Ok(None)
}

/// The first step that is not as printed, or else the first end of a hart, or else that of memory.
fn unlike_machine(alloc: Global, cert: &Cert) -> Result<Option<Failure>, OutOfMemory>
    requires { IsWellFormed cert.now }
    ensures none { IfOk result (λ o. o ≡ None → IsReplayed cert.now) }
    ensures some { IfOk result (λ o. IfSome o (λ f. IsFirstFailure cert.now f.kind f.hart f.step)) }
{
    match all_alone(alloc, cert)? {
        Ok(harts) => unlike_end(alloc, cert, &harts),
        Err(failure) => Ok(Some(failure)),
    }
}

/// The first record that races, or else where the template does not admit the trace.
fn unfit(alloc: Global, cert: &Cert) -> Result<Option<Failure>, OutOfMemory>
    requires well_formed { IsWellFormed cert.now }
    requires replayed { IsReplayed cert.now }
    ensures none { IfOk result (λ o. o ≡ None → IsValid cert.now) }
    ensures some { IfOk result (λ o. IfSome o (λ f. IsFirstFailure cert.now f.kind f.hart f.step)) }
{
    if let Some((hart, step)) = first_race(alloc, cert)? {
        return Ok(Some(Failure {
            kind: Kind::Race as u8,
            hart,
            step,
        }));
    }
    if let Some(unmet) = admits(cert) {
        return Ok(Some(Failure {
            kind: Kind::NotAdmitted as u8,
            hart: unmet.hart,
            step: unmet.step,
        }));
    }
    Ok(None)
}

/// The first failure of a certificate.
fn first_failure(alloc: Global, cert: &Cert) -> Result<Option<Failure>, OutOfMemory>
    requires { IsWellFormed cert.now }
    ensures none { IfOk result (λ o. o ≡ None → IsValid cert.now) }
    ensures some { IfOk result (λ o. IfSome o (λ f. IsFirstFailure cert.now f.kind f.hart f.step)) }
{
    if let Some(failure) = unlike_machine(alloc, cert)? {
        return Ok(Some(failure));
    }
    unfit(alloc, cert)
}

/// Whether a certificate is valid, or its first failure: the steps of each hart alone are looked at first, then the
/// ends of harts and of memory, then whether accesses race, and then whether the template admits the trace.
pub fn check(alloc: Global, cert: &Cert) -> Result<Verdict, OutOfMemory>
    requires { IsWellFormed cert.now }
    ensures yes { IfOk result (λ v. v ≡ Yes → IsValid cert.now) }
    ensures faithful { IfOk result (λ v. v ≡ Yes → IsFaithful cert.now) }
    ensures no { IfOk result (λ v. (kind hart step : ℕ) → v ≡ No kind hart step → IsFirstFailure cert.now kind hart step) }
{
    match first_failure(alloc, cert)? {
        None => Ok(Verdict::Yes),
        Some(Failure { kind, hart, step }) => Ok(Verdict::No { kind, hart, step }),
    }
}

/// The law that a valid certificate has no first failure, and that each has one at most.
pub fn one_verdict()
    ensures valid { (c : ACert) (kind hart step : ℕ) → IsFirstFailure c kind hart step → IsValid c → ⊥ }
    ensures one { (c : ACert) (kind hart step kind' hart' step' : ℕ) → IsFirstFailure c kind hart step → IsFirstFailure c kind' hart' step' → (kind ≡ kind') × (hart ≡ hart') × (step ≡ step') }
{}
