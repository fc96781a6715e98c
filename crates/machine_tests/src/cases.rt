// Steps that stand in a row of a table, done and compared.
use crate::fixtures::{assert_same, assert_step, assert_told, copy_of, hart_with, left_by};
use rv_hart::{Hart, Outcome, Seen, Sights, Words, step_seen};
use rv_mem::PartMem;
use std::alloc::Global;
use std::process::Abort;
use std::test::Fail;
use step_rows::{Case, Done, Ending, Told, case_of, saved_by, told_by, trapped};
use test_rows::memory_of;

/// The record of the step of a case, where it retires.
fn retired_as(hart: &Hart, case: &Case, next_pc: u32) -> Done {
    Done {
        pc: hart.pc,
        privilege: hart.privilege,
        word: case.word,
        outcome: Outcome::Retired,
        rd: case.changes.regs.first().copied(),
        accesses: case.accesses,
        next_pc,
    }
}

/// What the step says, and the hart that it leaves.
fn wanted(rt: &impl Abort, hart: &Hart, case: &Case) -> (Told, Hart) {
    match case.ending {
        Ending::Retires(next_pc, to) => {
            let done = retired_as(hart, case, next_pc);
            let left = left_by(rt, hart, &done, to, &case.changes.csrs);
            (Told::Did(done), left)
        }
        Ending::Traps(cause, value, to, mstatus) => {
            let mut done = trapped(hart, case.word, cause, value, to);
            done.accesses = case.accesses;
            let saved = saved_by(hart.pc, cause, value, to, mstatus);
            (Told::Did(done), left_by(rt, hart, &done, to, &saved))
        }
        Ending::Needs(place) => (Told::Missing(place), copy_of(hart)),
        Ending::Outside => (Told::Outside, copy_of(hart)),
    }
}

fn assert_words(rt: &impl Abort, memory: &PartMem, words: &[(u32, u32)], line: &str) {
    for (addr, value) in words {
        assert_eq!(rt; *addr % 4, 0);
        assert_eq!(rt;
            memory.word(*addr),
            Seen::Known(*value),
            "{addr:#x} after {line}"
        );
    }
}

/// The hart before the step.
fn hart_of(rt: &impl Abort, case: &Case) -> Hart {
    let known = &case.known;
    hart_with(rt, known.pc, case.from, &known.csrs, &known.regs)
}

fn assert_case(rt: &impl Abort, alloc: Global, end: u32, line: &str) -> Result<(), Fail> {
    let case = case_of(alloc, line)?;
    let mut hart = hart_of(rt, &case);
    let mut memory = memory_of(alloc, end, &case.known.words)?;
    let (told, want) = wanted(rt, &hart, &case);
    assert_step(rt, &mut hart, &mut memory, line, told, &want);
    assert_words(rt, &memory, &case.changes.words, line);
    assert!(rt; case.changes.regs.len() < 2, "{line}");
    Ok(())
}

/// Each row of the table is as the machine does with RAM from 80000000 up to an end.
pub fn assert_cases(rt: &impl Abort, alloc: Global, end: u32, table: &str) -> Result<(), Fail> {
    for line in table.lines() {
        assert_case(rt, alloc, end, line)?;
    }
    Ok(())
}

/// Sights: role, address and word.
#[derive(Drop)]
struct Listed<'a>(&'a [(u8, u32, u32)]);

impl Sights for Listed<'_> {
    ghost use Rattle.std.specs.Prelude.{nat_eq, ◌&&◌};
    ghost use Rattle.std.specs.List.{find};
    ghost use Rattle.std.specs.Option.{option_map};

    ghost words = { λ sights role addr. option_map (λ x. x.2) (find (λ x. nat_eq x.0 role && nat_eq x.1 addr) sights.0.now) };

    fn seen(&self, role: u8, addr: u32) -> Option<u32> {
        self.0
            .iter()
            .find(|x| x.0 == role && x.1 == addr)
            .map(|x| x.2)
    }
}

fn told_with(hart: &mut Hart, memory: &mut PartMem, sights: &[(u8, u32, u32)]) -> Told {
    told_by(&step_seen(hart, memory, &Listed(sights)))
}

fn assert_sighted_case(rt: &impl Abort, alloc: Global, end: u32, line: &str) -> Result<(), Fail> {
    let case = case_of(alloc, line)?;
    let mut hart = hart_of(rt, &case);
    let mut memory = memory_of(alloc, end, &case.known.words)?;
    let (told, want) = wanted(rt, &hart, &case);
    let stepped = told_with(&mut hart, &mut memory, &case.known.sights);
    assert_told(rt, stepped, told, line);
    assert_same(rt, &hart, &want, line);
    assert_words(rt, &memory, &case.changes.words, line);
    Ok(())
}

/// The same of steps that see the sights of their rows.
pub fn assert_sighted_cases(
    rt: &impl Abort,
    alloc: Global,
    end: u32,
    table: &str,
) -> Result<(), Fail> {
    for line in table.lines() {
        assert_sighted_case(rt, alloc, end, line)?;
    }
    Ok(())
}
