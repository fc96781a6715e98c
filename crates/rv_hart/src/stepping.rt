// The step of a hart.
ghost use Rattle.std.specs.Prelude.{◌≡◌, ◌<◌, ◌≤◌, ◌/◌, true, ◌%◌, ◌+◌, ◌^◌, ℕ, [], All, length, None, Some, IsTrue};
ghost use Rattle.std.specs.List.{AllByRecursion};
ghost use Rattle.std.specs.Option.{ForSome};
ghost use Rattle.rv_csr.specs.State.{IsLegal};
ghost use Rattle.rv_script.specs.Folds.{answer_on, prefixed};
ghost use Rattle.rv_mem.specs.Seen.{is_there};
ghost use Rattle.rv_hart.specs.Machine.{script, fetched_at};
ghost use Rattle.rv_mem.specs.declared.words.Seen.{Seen as ASeen};
ghost use Rattle.rv_hart.specs.Changes.{IsSoundChange, csrs_after, outcome_of, privilege_after};
ghost use Rattle.rv_hart.specs.Whole.{record_of};
ghost use Rattle.rv_hart.specs.View.{known, fixed_of, looked, shown, pc_after, regs_after, change_in, control_in, accesses_in};
ghost use Rattle.rv_hart.specs.Effects.{IsAccess, IsInWord, seen_after};
ghost use Rattle.rv_hart.specs.Sighted.{answer_seen, sighted};
ghost use Rattle.rv_hart.specs.Clauses.{IsMachineStep, IsMachineStepWith, IsLocalStep, IsLocalStepWith, IsAfter, IsAfterWith, IsFitOutcome, IsFitRecord, IsFitStep, IsSound, IsSoundStep};

use crate::looked::Looked;
use crate::reaching::{fetch_view, reach};
use crate::rows::execute;
use crate::seeing::{MemoryWith, Sighted};
use crate::sights::FETCHED_WORD;
use crate::storing::apply_all;
use crate::{Change, Control, Hart, Mem, NoSights, Outcome, Record, Seen, Sights, Stepped, Words};
use rv_script::{Access, Accesses, Place, Role};
use sv_walk::Kind;

/// The fetch from a physical address, and what the fetched word does.
#[tactic(auto, unfolding(crate::specs::Machine::fetched_at))]
fn fetch_at<M: Sighted>(h: &Hart, m: &M, pa: u32, log: &mut Accesses) -> Looked
    requires aligned { pa % 4 ≡ 0 }
    requires there { is_there (M.at m.now (pa / 4)) ≡ true }
    requires room { length log.old ≤ 2 }
    ensures sound { IsSound h.now.privilege h.now.csrs result }
    ensures words { All IsInWord log.old → All IsInWord log.new }
    ensures answer { looked log.new result ≡ prefixed log.old (answer_seen (sighted (M.sights m.now)) (known h.now (M.at m.now)) (fetched_at (fixed_of h.now (M.at m.now)) pa)) }
{
    match m.word_seen(FETCHED_WORD, pa) {
        Seen::Vacant => unreachable!(),
        Seen::Untouched => Looked::Missing(Place::Word(pa)),
        Seen::Known(word) => {
            log.push(Access {
                role: Role::Fetch,
                addr: pa,
                size: 4,
                value: word,
            });
            execute(h, m, word, log)
        }
    }
}

/// What the next step would do, with its accesses in the log.
#[tactic(auto, unfolding(crate::specs::Machine::script))]
fn look_at<M: Sighted>(h: &Hart, m: &M, log: &mut Accesses) -> Looked
    requires { log.old ≡ [] }
    ensures sound { IsSound h.now.privilege h.now.csrs result }
    ensures words { All IsInWord log.new }
    ensures answer { looked log.new result ≡ answer_seen (sighted (M.sights m.now)) (known h.now (M.at m.now)) (script (fixed_of h.now (M.at m.now))) }
{
    match reach(h, m, 0, fetch_view(h, m), Kind::Fetch, h.pc, log) {
        Ok(pa) => fetch_at(h, m, pa, log),
        Err(looked) => looked,
    }
}

/// How a step ends.
fn outcome_of(h: &Hart, change: Change) -> Outcome
    requires { IsSoundChange h.now.privilege h.now.csrs change }
    ensures outcome { (at : ℕ → ASeen) → result ≡ outcome_of (fixed_of h.now at) change.control }
    ensures fit { IsFitOutcome result }
{
    match change.control {
        Control::Trap { cause, value } => Outcome::Trap {
            cause,
            value,
            to: h.csrs.vector(h.privilege, cause).0,
        },
        _ => Outcome::Retired,
    }
}

/// Where a hart stands.
fn pc_of(h: &Hart) -> u32
    ensures { result ≡ h.now.pc }
{
    h.pc
}

/// The record of a step.
fn record_of(h: &Hart, change: Change, accesses: Accesses) -> Record
    requires { IsSoundChange h.now.privilege h.now.csrs change }
    ensures record { (at : ℕ → ASeen) → result ≡ record_of (fixed_of h.now at) accesses change }
    ensures next_pc { result.next_pc ≡ change.next_pc }
    ensures rd { result.rd ≡ change.rd }
    ensures accesses { result.accesses ≡ accesses }
    ensures fit { AllByRecursion IsAccess accesses → IsFitRecord result }
{
    // There are at most eight.
    let _count = accesses.len();
    Record {
        pc: pc_of(h),
        privilege: h.privilege,
        word: change.word,
        outcome: outcome_of(h, change),
        rd: change.rd,
        accesses,
        next_pc: change.next_pc,
    }
}

/// What the script answers on what is known, with the change that it comes with.
fn observe<M: Words, S: Sights>(h: &Hart, m: &M, s: &S) -> (Stepped, Option<Change>)
    ensures legal { IsLegal h.now.csrs }
    ensures sound { IsSoundStep result.0 }
    ensures kept { IsFitStep (fixed_of h.now (M.at m.now)) (known h.now (M.at m.now)) result.0 }
    ensures fit { ForSome result.1 (λ c. IsSoundChange h.now.privilege h.now.csrs c) }
    ensures answer { result.0 ≡ shown (fixed_of h.now (M.at m.now)) (answer_seen (sighted (S.words s.now)) (known h.now (M.at m.now)) (script (fixed_of h.now (M.at m.now)))) }
    ensures change { result.1 ≡ change_in (answer_seen (sighted (S.words s.now)) (known h.now (M.at m.now)) (script (fixed_of h.now (M.at m.now)))) }
{
    h.csrs.legal_values();
    let mut accesses = Accesses::new();
    let seen = MemoryWith {
        memory: m,
        sights: s,
    };
    match look_at(h, &seen, &mut accesses) {
        Looked::Does(change) => (Stepped::Did(record_of(h, change, accesses)), Some(change)),
        Looked::Missing(place) => (Stepped::Missing(place), None),
        Looked::Outside => (Stepped::Outside, None),
    }
}

/// The accesses of what was done.
fn accesses_of(stepped: &Stepped) -> &[Access]
    ensures { result.now ≡ accesses_in stepped.now }
{
    match stepped {
        Stepped::Did(record) => record.accesses.as_slice(),
        _ => &[],
    }
}

/// What `step` would answer. Nothing changes.
pub fn look<M: Words>(h: &Hart, m: &M) -> Stepped
    // The answer of every whole hart and memory that has what is known.
    ensures machine { IsMachineStep (fixed_of h.now (M.at m.now)) (known h.now (M.at m.now)) result }

    // A step rests on the registers and bytes that it looked at alone.
    ensures local { IsLocalStep (fixed_of h.now (M.at m.now)) (known h.now (M.at m.now)) result }

    ensures answer { result ≡ shown (fixed_of h.now (M.at m.now)) (answer_on (known h.now (M.at m.now)) (script (fixed_of h.now (M.at m.now)))) }

    // What it would do leaves a hart as it must be, and each access keeps to a word.
    ensures sound { IsSoundStep result }

    // What it would do can stand in a file, and a start can give a value to what is missing, which has none.
    ensures fit { IsFitStep (fixed_of h.now (M.at m.now)) (known h.now (M.at m.now)) result }
{
    observe(h, m, &NoSights).0
}

/// Does one step that sees the sights' words: a read in one of their roles takes the sight's word where there is one, and
/// the memory's word else. Where RAM is, the memory tells alone. Missing and Outside come as for `step`, where a word that
/// has a sight counts as known, and change nothing. No sight changes memory.
pub fn step_seen<M: Mem, S: Sights>(h: &mut Hart, m: &mut M, s: &S) -> Stepped
    // The answer of every whole hart and memory that has what is known.
    ensures machine { IsMachineStepWith (sighted (S.words s.now)) (fixed_of h.old (M.at m.old)) (known h.old (M.at m.old)) result }

    // A step rests on its sights and on the registers and bytes that it looked at alone.
    ensures local { IsLocalStepWith (sighted (S.words s.now)) (fixed_of h.old (M.at m.old)) (known h.old (M.at m.old)) result }

    // Each whole hart and memory that had what was known makes the step, and then has what is known: what was
    // known, as the step left it, and the registers and CSRs that it wrote. Missing and Outside change nothing.
    ensures after { IsAfterWith (sighted (S.words s.now)) (fixed_of h.old (M.at m.old)) (known h.old (M.at m.old)) result (fixed_of h.new (M.at m.new)) (known h.new (M.at m.new)) }

    ensures answer { result ≡ shown (fixed_of h.old (M.at m.old)) (answer_seen (sighted (S.words s.now)) (known h.old (M.at m.old)) (script (fixed_of h.old (M.at m.old)))) }
    ensures pc { h.new.pc ≡ pc_after result h.old.pc }
    ensures regs { h.new.regs ≡ regs_after result h.old.regs }
    ensures privilege { h.new.privilege ≡ privilege_after h.old.privilege h.old.csrs.mstatus h.old.csrs.medeleg (control_in (answer_seen (sighted (S.words s.now)) (known h.old (M.at m.old)) (script (fixed_of h.old (M.at m.old))))) }
    ensures csrs { h.new.csrs ≡ csrs_after h.old.privilege h.old.pc (control_in (answer_seen (sighted (S.words s.now)) (known h.old (M.at m.old)) (script (fixed_of h.old (M.at m.old))))) h.old.csrs }

    // Memory after the accesses of the record.
    ensures memory { (n : ℕ) → M.at m.new n ≡ seen_after (accesses_in result) (M.at m.old) n }

    // What was done leaves a hart as it must be, and each access keeps to a word.
    ensures sound { IsSoundStep result }

    // What was done can stand in a file, and a start can give a value to what is missing, which has none.
    ensures fit { IsFitStep (fixed_of h.old (M.at m.old)) (known h.old (M.at m.old)) result }
{
    let (result, change) = observe(h, m, s);
    if let Some(change) = change {
        h.take(&change);
        apply_all(m, accesses_of(&result));
    }
    result
}

/// Does one step, where what is known tells which. Missing carries the first place that it needs and that
/// isn't known, in the order page table entries of the fetch, instruction word, rs1, rs2, CSR, page table entries of the
/// data access, data word, vector; Outside comes where the machine has no step. Both change nothing. The word of a store
/// is needed too.
pub fn step<M: Mem>(h: &mut Hart, m: &mut M) -> Stepped
    // The answer of every whole hart and memory that has what is known.
    ensures machine { IsMachineStep (fixed_of h.old (M.at m.old)) (known h.old (M.at m.old)) result }

    // A step rests on the registers and bytes that it looked at alone.
    ensures local { IsLocalStep (fixed_of h.old (M.at m.old)) (known h.old (M.at m.old)) result }

    // Each whole hart and memory that had what was known makes the step, and then has what is known: what was
    // known, as the step left it, and the registers and CSRs that it wrote. Missing and Outside change nothing.
    ensures after { IsAfter (fixed_of h.old (M.at m.old)) (known h.old (M.at m.old)) result (fixed_of h.new (M.at m.new)) (known h.new (M.at m.new)) }

    ensures answer { result ≡ shown (fixed_of h.old (M.at m.old)) (answer_on (known h.old (M.at m.old)) (script (fixed_of h.old (M.at m.old)))) }
    ensures pc { h.new.pc ≡ pc_after result h.old.pc }
    ensures regs { h.new.regs ≡ regs_after result h.old.regs }
    ensures privilege { h.new.privilege ≡ privilege_after h.old.privilege h.old.csrs.mstatus h.old.csrs.medeleg (control_in (answer_on (known h.old (M.at m.old)) (script (fixed_of h.old (M.at m.old))))) }
    ensures csrs { h.new.csrs ≡ csrs_after h.old.privilege h.old.pc (control_in (answer_on (known h.old (M.at m.old)) (script (fixed_of h.old (M.at m.old))))) h.old.csrs }

    // Memory after the accesses of the record.
    ensures memory { (n : ℕ) → M.at m.new n ≡ seen_after (accesses_in result) (M.at m.old) n }

    // What was done leaves a hart as it must be, and each access keeps to a word.
    ensures sound { IsSoundStep result }

    // What was done can stand in a file, and a start can give a value to what is missing, which has none.
    ensures fit { IsFitStep (fixed_of h.old (M.at m.old)) (known h.old (M.at m.old)) result }
{
    step_seen(h, m, &NoSights)
}
