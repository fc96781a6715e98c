//! Answers of small problems, by hand and against a plain search through all assignments.
ghost use Rattle.std.specs.Prelude.{IfOk};
ghost use Rattle.fd_prob.specs.Fitting.{IsProblem};

use crate::plain;
use fd_prob::{Assignment, Problem, space};
use fd_solve::{Solved, solve};
use problem_rows::{assignment_of, problem_of};
use std::alloc::Global;
use std::process::Abort;
use std::test::Fail;

/// Problems, budgets and answers.
const BUDGETS: &str = "\
addi rs1=1..2 a=5..6 imm=1; holds rs1 a - 7 6 => 2 => addi rs1=2 a=6 imm=1
addi rs1=1..2 a=5..6 imm=1; holds rs1 a - 7 6 => 1 => spent
addi rs1=1..2 a=5..6 imm=1; holds rs1 a - 7 8 => 2 => none
addi rs1=1..2 a=5..6 imm=1; holds rs1 a - 7 8 => 1 => spent";

/// The same of a fetch with 5 pairs of page table entries.
const FETCHES: &str = "\
addi rs1=1..2 a=5..6 imm=1; holds rs1 a - 7 6 => 5 => addi rs1=2 a=6 imm=1
addi rs1=1..2 a=5..6 imm=1; holds rs1 a - 7 6 => 4 => spent";

pub fn answer_of(text: &str) -> Result<Solved, Fail> {
    match text {
        "none" => Ok(Solved::NoneFits),
        "spent" => Ok(Solved::Spent),
        _ => Ok(Solved::Found(assignment_of(text)?)),
    }
}

fn small_problem(alloc: Global, text: &str, fetch: bool) -> Result<Problem, Fail>
    ensures { IfOk result IsProblem }
{
    let mut p = problem_of(alloc, text, 0)?;
    if fetch {
        p.pairs = 5;
        p.fetch = true;
    }
    Ok(p)
}

/// Whether the answer is the wanted one.
fn is_answered(alloc: Global, row: &str, fetch: bool) -> Result<bool, Fail> {
    let (text, rest) = row.split_once(" => ").ok_or("a budget")?;
    let (budget, want) = rest.split_once(" => ").ok_or("an answer")?;
    let p = small_problem(alloc, text, fetch)?;
    Ok(solve(alloc, &p, budget.parse()?)? == answer_of(want)?)
}

#[test]
fn two_registers_are_the_space(rt: HostRuntime) -> Result<(), Fail> {
    let p = small_problem(
        rt.alloc(),
        "addi rs1=1..2 a=5..6 imm=1; holds rs1 a - 7 6",
        false,
    )?;
    assert_eq!(rt; space(&p), 2);
    Ok(())
}

#[test]
fn a_register_with_a_fitting_value_is_found(rt: HostRuntime) -> Result<(), Fail> {
    for row in BUDGETS.split('\n') {
        assert!(rt; is_answered(rt.alloc(), row, false)?, "at {row}");
    }
    Ok(())
}

#[test]
fn a_fetch_has_the_budget_of_its_pairs(rt: HostRuntime) -> Result<(), Fail> {
    for row in FETCHES.split('\n') {
        assert!(rt; is_answered(rt.alloc(), row, true)?, "at {row}");
    }
    Ok(())
}

/// A problem a row.
const PROBLEMS: &str = "\
-
addi rs1=0..3 a=none
add rs1=0..4 rs2=1..3 a=0..3,7..9 b=2,6..7 rd=3..5; holds rs1 a 0 7 - 2 7; holds rs2 b 0 7 - 2 7; linked
blt rs1=1..2 rs2=2..3 imm=0..8,0xfffffffc..0xffffffff a=0..1,0x80000000..0x80000001 b=0..2,0xffffffff; taken; linked; target 4 0,8..9; differ a b
addi rs1=1..3 imm=0..2,0xfffffffe..0xffffffff a=0..1,6..8 b=0,5..7 rd=0..3; sum a imm b | addi rs1=0..3 rd=2 a=6..8; same rs1 rd
addi rs1=0..3 a=none | addi rs1=0..3 rd=2 a=6..8; same rs1 rd | addi rs1=1..3 imm=0..2,0xfffffffe..0xffffffff a=0..1,6..8 b=0,5..7 rd=0..3; sum a imm b
csrrw rs1=1..2 csr=0x300,0x340 a=0..3; writes | blt rs1=1..2 rs2=2..3 imm=0..8,0xfffffffc..0xffffffff a=0..1,0x80000000..0x80000001 b=0..2,0xffffffff; taken; linked; target 4 0,8..9; differ a b | addi rs1=1..3 imm=0..2,0xfffffffe..0xffffffff a=0..1,6..8 b=0,5..7 rd=0..3; sum a imm b
add op=18 | add rs1=0..4 rs2=1..3 a=0..3,7..9 b=2,6..7 rd=3..5; holds rs1 a 0 7 - 2 7; holds rs2 b 0 7 - 2 7; linked | addi rs1=0..3 a=none | csrrw rs1=1..2 csr=0x300,0x340 a=0..3; writes
addi rs1=0..3 a=none | add op=18";

/// Draws for all variables alike.
pub const DRAWS: [u32; 6] = [0, 1, 2, 5, 11, u32::MAX];

pub fn solved(least: Option<Assignment>) -> Solved {
    match least {
        Some(x) => Solved::Found(x),
        None => Solved::NoneFits,
    }
}

/// Whether the answer is that of the plain search.
fn is_plain(alloc: Global, text: &str, draw: u32) -> Result<bool, Fail> {
    let p = problem_of(alloc, text, draw)?;
    Ok(solve(alloc, &p, u64::MAX)? == solved(plain::least(&p)))
}

/// The answer is that of the plain search, whatever is drawn.
pub fn compare(rt: &impl Abort, alloc: Global, text: &str) -> Result<(), Fail> {
    for draw in DRAWS {
        assert!(rt; is_plain(alloc, text, draw)?, "{text} with {draw}");
    }
    Ok(())
}

pub fn compare_all(rt: &impl Abort, alloc: Global, rows: &str) -> Result<(), Fail> {
    for row in rows.split('\n') {
        compare(rt, alloc, row)?;
    }
    Ok(())
}

#[test]
fn answers_are_those_of_a_plain_search(rt: HostRuntime) -> Result<(), Fail> {
    compare_all(&rt, rt.alloc(), PROBLEMS)
}
