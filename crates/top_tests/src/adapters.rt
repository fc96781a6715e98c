// The commands over a reader and writers of std.
ghost use Rattle.std.specs.Prelude.{◌≤◌};

use std::alloc::{AllocError, Global};
use std::test::Fail;
use streams::{ReadSource, WriteSink};
use tool_top::{ArgList, run};

const TEXT: &str = "ram 0x80000000 0x80001000
pool 0x80000000
hart 0 {
start pc 0x80000000 priv m
body {
do op in {addi}; rd in {5}; rs1 in {0}; imm in {7}
}
}
";

const REPORT: &str = "harts 1
hart 0 pc 80000000 priv m mstatus 00000000 medeleg 00000000 satp 00000000
step 0 0 pc 80000000 m 00700293 retire x5=00000007 fetch@80000000:4=00700293 next 80000004
end 0 pc 80000004 priv m mstatus 00000000 medeleg 00000000 satp 00000000
final 0 x5 00000007
word 80000000 00700293 00700293
";

/// What a command answers and writes.
#[derive(Drop)]
struct Answer {
    status: u8,
    out: Vec<u8>,
    report: Vec<u8>,
}

/// What the command of these words does with this input.
fn answer_of(alloc: Global, words: &[&str], input: &[u8]) -> Result<Answer, AllocError> {
    let mut list = ArgList::new(alloc);
    for word in words {
        list.push(alloc, word)?;
    }
    let mut source = ReadSource::new(input);
    let mut written = Vec::new(alloc);
    let mut told = Vec::new(alloc);
    let mut out = WriteSink::new(&mut written);
    let mut report = WriteSink::new(&mut told);
    let status = run(alloc, &list, &mut source, &mut out, &mut report);
    Ok(Answer {
        status,
        out: written,
        report: told,
    })
}

#[test]
fn a_template_gives_its_file_and_its_report(rt: HostRuntime) -> Result<(), Fail> {
    let answer = answer_of(rt.alloc(), &["gen", "--seed", "1"], TEXT.as_bytes())?;
    assert_eq!(rt; answer.status, 0);
    assert_eq!(rt; answer.out.len(), 488);
    assert_eq!(rt; answer.report.as_slice(), REPORT.as_bytes());
    Ok(())
}

#[test]
fn the_file_replays(rt: HostRuntime) -> Result<(), Fail> {
    let made = answer_of(rt.alloc(), &["gen", "--seed", "1"], TEXT.as_bytes())?;
    let answer = answer_of(rt.alloc(), &["replay"], &made.out)?;
    assert_eq!(rt; answer.status, 0);
    assert_eq!(rt; answer.out.as_slice(), b"yes\n".as_slice());
    assert_eq!(rt; answer.report.len(), 0);
    Ok(())
}
