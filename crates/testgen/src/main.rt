//! The program testgen: from a template on standard input to an ELF file on standard output and its report on standard error, from a file to the verdict on it, to a run of it or to its report,
//! and a demo. It hands its words and the standard streams to `run` of `tool_top`, which carries the promise of the whole tool, and ends with the status that `run` answers.
#![tactic(auto)]

use std::env;
use std::process::ExitCode;
use streams::{ReadSource, WriteSink};
use tool_top::{run, words_of};

/// The status that says that memory ran out.
const NO_MEMORY: u8 = 8;

fn main(rt: HostRuntime) -> ExitCode {
    let alloc = rt.alloc();
    let Ok(words) = words_of(alloc, env::args(&rt)) else {
        return ExitCode::from(NO_MEMORY);
    };
    let mut source = ReadSource::new(rt.stdin());
    let mut out = WriteSink::new(rt.stdout());
    let mut report = WriteSink::new(rt.stderr());
    ExitCode::from(run(alloc, &words, &mut source, &mut out, &mut report))
}
