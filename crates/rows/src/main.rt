//! The rows of the whole tool: each file of `data/` that the program's words name is read line by line, each row of it is run, and what it gives is compared with what the row says it has to
//! give. For each file the program prints how many rows it has, and each row that gave something else. `docs/ROWS.md` has the language of the rows.
#![tactic(auto)]

mod answer;
mod runs;

use crate::answer::Tool;
use row_language::Reader;
use std::process::ExitCode;
use std::{env, fs, io};

/// Runs the rows of a text and prints what came of them. Whether each gave what it has to.
fn run_text(rt: &HostRuntime, file: &str, text: &str) -> io::Result<bool> {
    let mut reader = Reader::new(rt.alloc());
    let outcome = reader.read_all(rt.alloc(), &Tool, text);
    for line in reader.told() {
        println!(rt; "{file}: {line}")?;
    }
    if let Err(stop) = outcome {
        println!(rt; "{file}: line {}: {stop}", reader.line())?;
        return Ok(false);
    }
    println!(rt; "{file}: {} rows, {} wrong", reader.rows(), reader.wrong())?;
    Ok(reader.wrong() == 0 && reader.rows() != 0)
}

/// Runs the rows of each file that the words name.
fn run_files(rt: &HostRuntime) -> io::Result<bool> {
    let mut well = true;
    let mut files = 0u32;
    for file in env::args(rt)?.skip(1) {
        let text = fs::read_to_string(rt, &file)?;
        well = run_text(rt, file.as_str(), text.as_str())? && well;
        files = files.wrapping_add(1);
    }
    Ok(well && files != 0)
}

fn main(rt: HostRuntime) -> io::Result<ExitCode> {
    if run_files(&rt)? {
        Ok(ExitCode::SUCCESS)
    } else {
        Ok(ExitCode::FAILURE)
    }
}
