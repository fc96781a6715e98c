//! Problems as a generator poses them, each with its answer: each line of the files that the program's words name is
//! read and solved, and the answer is compared with the one that stands in the line. For each file the program prints
//! how many lines gave another one.
//!
//! A line is numbers: one of its own, the budget, the expected answer (0 found, 1 none fits, 2 spent) with its 14 values, and the
//! problem.
#![tactic(auto)]

mod numbers;
mod posed;
mod stop;

use crate::numbers::Numbers;
use crate::posed::problem;
use crate::stop::Stop;
use fd_prob::Assignment;
use fd_solve::{Solved, solve};
use std::alloc::Global;
use std::process::ExitCode;
use std::{env, fs, io};

/// The answer that a line expects.
fn expected(kind: u64, values: [u32; 14]) -> Solved {
    match kind {
        0 => Solved::Found(Assignment { values }),
        1 => Solved::NoneFits,
        _ => Solved::Spent,
    }
}

/// Whether the problem of a line has the answer that the line expects.
fn is_right(alloc: Global, text: &str) -> Result<bool, Stop> {
    let mut line = Numbers::of(alloc, text)?;
    let _name = line.take()?;
    let nodes = line.take()?;
    let kind = line.take()?;
    let values = line.words()?;
    let p = problem(alloc, &mut line)?;
    let answer = solve(alloc, &p, nodes)?;
    Ok(answer == expected(kind, values))
}

/// Solves the problems of a text, and prints how many were answered wrongly. Whether none was.
fn run_text(rt: &HostRuntime, file: &str, text: &str) -> io::Result<bool> {
    let mut lines = 0u32;
    let mut wrong = 0u32;
    for line in text.lines() {
        lines = lines.wrapping_add(1);
        match is_right(rt.alloc(), line) {
            Ok(true) => {}
            Ok(false) => wrong = wrong.wrapping_add(1),
            Err(stop) => {
                println!(rt; "{file}: line {lines}: {stop}")?;
                return Ok(false);
            }
        }
    }
    println!(rt; "{file}: {lines} problems, {wrong} wrong")?;
    Ok(wrong == 0)
}

/// Solves the problems of each file that the words name.
fn run_files(rt: &HostRuntime) -> io::Result<bool> {
    let mut well = true;
    for file in env::args(rt)?.skip(1) {
        let text = fs::read_to_string(rt, &file)?;
        well = run_text(rt, file.as_str(), text.as_str())? && well;
    }
    Ok(well)
}

fn main(rt: HostRuntime) -> io::Result<ExitCode> {
    if run_files(&rt)? {
        Ok(ExitCode::SUCCESS)
    } else {
        Ok(ExitCode::FAILURE)
    }
}
