// The certificate of a test that was made.
ghost use Rattle.std.specs.Prelude.{◌≡◌, ◌*◌, ◌/◌, ◌^◌, ◌<◌, ℕ, IfOk, Some, map};
ghost use Rattle.std.specs.List.{AllByRecursion};
ghost use Rattle.rv_mem.specs.Part.{part_at};
ghost use Rattle.rv_mem.specs.Seen.{known_word};
ghost use Rattle.part_told.specs.Finishing.{known_from, told_state};
ghost use Rattle.part_told.specs.Words.{IsWithinRam, ListsWords};
ghost use Rattle.tpl_ast.specs.States.{IsState, IsWord};
ghost use Rattle.part_machine.specs.Notes.{IsKnownAt};
ghost use Rattle.part_machine.specs.Undo.{whole_of};
ghost use Rattle.part_machine.specs.Whole.{given, bare};
ghost use Rattle.part_state.specs.Told.{Tells};

use crate::OutOfMemory;
use part_machine::Running;
use part_told::{choices_of, copy_traces, last_of, names_of, states_of, words_of};
use rv_hart::Record;
use std::alloc::Global;
use tpl_admit::{Cert, Dropped};
use tpl_ast::{HartState, Items, Template};

/// Where the harts start, what they do, and where they end.
#[derive(Drop)]
struct Runs {
    start: Items<HartState>,
    traces: Items<Items<Record>>,
    finals: Items<HartState>,
}

/// The words that are given, and their last values.
#[derive(Drop)]
struct Memory {
    words: Items<(u32, u32)>,
    last: Items<u32>,
}

/// The choices, the values of names and the dropped biases.
#[derive(Drop)]
struct Way {
    choices: Items<u32>,
    names: Items<(u32, u32)>,
    dropped: Items<Dropped>,
}

fn runs_of(alloc: Global, machine: &Running) -> Result<Runs, OutOfMemory>
    ensures start { IfOk result (λ r. r.start ≡ map told_state (map bare machine.now.first.items)) }
    ensures traces { IfOk result (λ r. r.traces ≡ machine.now.traces.items) }
    ensures finals { IfOk result (λ r. r.finals ≡ map told_state (map bare machine.now.harts.items)) }
    ensures start_states { IfOk result (λ r. AllByRecursion IsState r.start) }
    ensures final_states { IfOk result (λ r. AllByRecursion IsState r.finals) }
{
    let start = states_of(alloc, &machine.first)?;
    let traces = copy_traces(alloc, &machine.traces)?;
    let finals = states_of(alloc, &machine.harts)?;
    Ok(Runs {
        start,
        traces,
        finals,
    })
}

fn memory_of(alloc: Global, machine: &Running) -> Result<Memory, OutOfMemory>
    requires small { (n v : ℕ) → given machine.now.words.items n ≡ Some v → n < 2 ^ 30 }
    requires inside { IsWithinRam machine.now.ram machine.now.words.items }
    requires known { (n v : ℕ) → given machine.now.words.items n ≡ Some v → IsKnownAt (part_at machine.now.memory) (n * 4) }
    ensures words { IfOk result (λ m. ListsWords machine.now.ram machine.now.words.items m.words) }
    ensures last { IfOk result (λ m. map (λ v. Some v) m.last ≡ map (λ e. known_word (part_at machine.now.memory (e.0 / 4))) m.words) }
    ensures fits { IfOk result (λ m. AllByRecursion IsWord m.last) }
{
    let words = words_of(alloc, &machine.words)?;
    let last = last_of(alloc, &machine.memory, words.as_slice())?;
    Ok(Memory { words, last })
}

fn way_of(alloc: Global, machine: &Running) -> Result<Way, OutOfMemory>
    ensures choices { IfOk result (λ w. w.choices ≡ machine.now.choices.items) }
    ensures names { IfOk result (λ w. w.names ≡ known_from 0 machine.now.names.items) }
    ensures dropped { IfOk result (λ w. w.dropped ≡ machine.now.dropped.items) }
    ensures fits { IfOk result (λ w. AllByRecursion IsWord w.choices) }
{
    let choices = choices_of(alloc, &machine.choices)?;
    let names = names_of(alloc, &machine.names)?;
    let dropped = Items::from_slice(alloc, &machine.dropped)?;
    Ok(Way {
        choices,
        names,
        dropped,
    })
}

/// The certificate of these parts.
fn assembled(runs: Runs, memory: Memory, template: Template, way: Way) -> Cert
    ensures template { result.template ≡ template }
    ensures start { result.start ≡ runs.start }
    ensures traces { result.traces ≡ runs.traces }
    ensures finals { result.finals ≡ runs.finals }
    ensures words { result.words ≡ memory.words }
    ensures last { result.last ≡ memory.last }
    ensures choices { result.choices ≡ way.choices }
    ensures names { result.names ≡ way.names }
    ensures dropped { result.dropped ≡ way.dropped }
{
    Cert {
        start: runs.start,
        words: memory.words,
        traces: runs.traces,
        finals: runs.finals,
        last: memory.last,
        template,
        choices: way.choices,
        names: way.names,
        dropped: way.dropped,
    }
}

/// The certificate of what a machine has come to.
pub fn certificate_of(
    alloc: Global,
    machine: &Running,
    template: Template,
) -> Result<Cert, OutOfMemory>
    requires small { (n v : ℕ) → given machine.now.words.items n ≡ Some v → n < 2 ^ 30 }
    requires inside { IsWithinRam machine.now.ram machine.now.words.items }
    requires known { (n v : ℕ) → given machine.now.words.items n ≡ Some v → IsKnownAt (part_at machine.now.memory) (n * 4) }
    ensures tells { IfOk result (Tells template (whole_of machine.now)) }
    ensures start { IfOk result (λ c. AllByRecursion IsState c.start) }
    ensures finals { IfOk result (λ c. AllByRecursion IsState c.finals) }
    ensures last { IfOk result (λ c. AllByRecursion IsWord c.last) }
    ensures choices { IfOk result (λ c. AllByRecursion IsWord c.choices) }
{
    let runs = runs_of(alloc, machine)?;
    let memory = memory_of(alloc, machine)?;
    let way = way_of(alloc, machine)?;
    Ok(assembled(runs, memory, template, way))
}
