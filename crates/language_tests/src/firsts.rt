// Which fault is told of several, and which lines have none.
use crate::every::{compare, compare_all};
use crate::told::{assert_told, compare_texts};
use std::alloc::Global;
use std::process::Abort;
use std::test::Fail;
use test_texts::EVERY;
use tpl_lang::{Fault, Kind};
use tpl_parse::ParseError;

/// Lines with two kinds of faults, of which the least is told.
const TWO_KINDS: &str = "\
1 1 => 1 foo \x01
22 1 => 22 label n1 # \x02
22 1 => 22 do rs1 in {32} # \x02
22 1 => 22 fault outcome in {2} # \t\x02
41 1 => 41 } do \x03
1 2 => 1 set x1 = {0x100000000}
1 2 => 1 ram 0x100000000
1 2 => 1 start pc 2 priv m
1 2 => 1 reg x0 = 1
1 2 => 1 repeat 8193 {
7 2 => 7 set ram = none
7 2 => 7 name in = {5..4}
7 2 => 7 vectors {1}
7 2 => 7 vectors none
7 2 => 7 vectors {0x100000000}
8 2 => 8 set odd = {1} align
8 2 => 8 set odd = {5..4} 0x100000000
15 2 => 15 csr sstatus = 0x100000000
15 2 => 15 csr mhartid = 0
15 2 => 15 csr sstatus = 1
20 2 => 20 start pc 1 priv m
20 2 => 20 label op
27 2 => 27 label top
30 2 => 30 do rs1 in {32}
30 2 => 30 do rs1 == none
30 2 => 30 label top
38 2 => 38 ram 0x80000000 0x80010000
38 2 => 38 set odd = {1}
38 2 => 38 data 1 = 1
39 2 => 24 seq {|seq {|seq {|seq {|seq {|seq {|seq {|seq {|seq {|seq {|seq {|seq {|seq {|seq {|seq {|2: {
21 3 => 21 do rs1 in {32}; rs2 in none
21 3 => 21 do rs1 == none; rs2 in {32}
21 3 => 21 do op in {foo}; rd in {32}
21 3 => 21 do rs1 == n1; rs2 == n1; rd in {32}
21 3 => 21 do rd in {0x100000000..4}
21 3 => 21 do imm in {5..4}; ea in {4} align 3
15 3 => 15 csr foo = 0x100000000
15 3 => 15 csr mstatus = 0x100001000
8 3 => 8 set odd = {0x100000000}
8 3 => 8 set odd = {0x100000000..1}
8 3 => 8 set odd = {1..3} align 12
5 3 => 5 pteflags 257
5 3 => 5 pteflags 0 0 0 0 0 0 0 0 256
5 3 => 5 pteflags 1 256
1 3 => 1 ram 0x100000000 0
1 3 => 1 hart 0x100000001 {
18 3 => 18 reg x0 = 0x100000000
39 3 => 24 seq {|seq {|seq {|seq {|seq {|seq {|seq {|seq {|seq {|seq {|seq {|seq {|seq {|seq {|seq {|repeat 8193 {
8 4 => 8 set odd = none
8 4 => 8 set near = none
9 4 => 9 name odd in none
15 4 => 15 csr foo = 1
21 4 => 21 do rs1 == none; rs2 == none
21 4 => 21 do rs1 == n1; rs2 == n1; rd in none
21 4 => 21 do rs1 in {5..4}; rs2 in none
21 4 => 21 do op in {foo}; imm in {5..4}
8 5 => 8 set odd = {5..4}
8 5 => 8 set odd = {1..3} align 4
10 5 => 10 name n1 in {-1..-2}
21 6 => 21 do rs1 == n1; rs2 == n1; imm in {5..4}
21 6 => 21 do imm in {5..4}; prefer rs1 == n1; prefer rs2 == n1
4 10 => 4 tables 0x80001000 0x80001000 0x80001000 0x80001000 0x80001000 0x80001000 0x80001000 0x80001000 0x80001000
5 10 => 5 pteflags 1 1 1 1 1 1 1 1 1";

/// Two faulty lines, of which the first is told.
const TWO_LINES: &str = "\
1 12 => 1 hart 9 {|foo
2 11 => 2 data 1 = 1|ram 0
5 11 => 5 pteflags 1|\x01
7 7 => 7 set odd = {5..4}|set odd = {0x100000000}|foo
15 12 => 15 csr mtvec = 2|csr sstatus = 0
22 6 => 22 do rs1 == n1; rd == n1|do rs1 in {32}
22 5 => 22 label n1|do target == none
27 2 => 26 repeat 8192 {|label x";

/// Lines without a fault: a number, and what stands in that line's place.
const NO_FAULT: &str = "\
1 ram 0x80000000 0x83fff000
2 ram 0x80010000 0x80011000
2 ram 0x7ffff000 0x80000000
2 ram 0xffffe000 0xfffff000
1 ram 0x80000000 0x80010000 # 0x100000000
1 ram 0x80000000 0x80010000\r
1 ram 0x80000000 0x80010000 # \r
3 pool 0x80000000 0x80001000|pool 0x8000f000|tables 0x80003000 0x80004000
3 pool 0|tables 0x80001000
5 pteflags 0 255
5 pteflags 0xcf 0xcf 0xcf
5 pteflags 0x03 0x05 0x09 0x0f 0xd0
6 vectors {0..7}
6 vectors {2..4} align 2
6 set v4 = {0x80000100..0x80000103}|vectors v4
6 # default
7 set odd = {1, 3, 5..4, 9..8}
12 data -2147479548 = -1
12 data 0 = 0
12 data 0xffc = 4294967295
13 hart 0x0 {
13 hart 00 {
13 hart -0 {
13 hart 0{
14 start pc -4 priv s
14 start pc 0 priv u
16 reg x031 = 0xffffffff
18 reg x05 = 0
17 csr satp = 0|csr mstatus = 0|csr medeleg = 0
20 label top|label x32|label x07
21 do rs1 in {0..31}; rs2 in {31}; rd not in {0}
21 do rs1 in near; rd in near
21 do outcome in {retire, 0, 1, 2, 3, 4, 5, 6, 7, 8, 9, 11, 12, 13, 15}
21 do rs1 == n1; rs2 == n2; rd == top
21 do imm in {5..4, 1}
22 fault outcome in {retire}
22 fault outcome in {12}
22 fault outcome in {1, 1, 12, 0xc, 001, retire}
24 label in_sequence
24 |
24 seq {|seq {|}|}
27 repeat 0 {|}
27 seq {|choose {|0: {|}|1: {|repeat 2 {|do|}|}|}|}
31 label in_alternative
31 choose {|1: {|label inner|}|}
30 65535: {
33 65535: {
33 0: {|}|0: {
26 repeat 8187 {
26 repeat 0 {
26 repeat 0x1ffb {
41 repeat 8184 {|}|}
41 repeat 8183 {|}|fault outcome in {1}|}
41 repeat 4092 {|repeat 2 {|}|}|}
41 repeat 4092 {|choose {|1: {|}|0: {|do|}|}|}|}
41 repeat 2046 {|choose {|1: {|do|}|0: {|do|do|do|}|0: {|}|}|}|}
41 repeat 0 {|repeat 8192 {|}|}|repeat 8184 {|}|}
42 }|
42 }|||
42 }|# end
42 } # end
42 }|hart 2 {|start pc 0 priv s|body {|}|}
42 }|hart 2 {|start pc 0 priv s|reg x1 = 1|body {|do target == top|}|}|";

/// Short texts.
const TEXTS: &str = "\
1 2 => 
1 11 => ram 0x80000000 0x80000800|
1 7 => set q1 = {5..4}|
1 3 => set q1 = {0x100000000}|
2 2 => ram 0x80000000 0x80001000|foo
2 2 => |
1 2 => # nothing
1 1 => \r
2 2 => \r|
5 2 => |\r|\t |# foo|foo|
1 2 => set q1 = {1}
1 2 => }";

#[test]
fn the_least_kind_and_the_first_line_are_told(rt: HostRuntime) -> Result<(), Fail> {
    compare_all(&rt, rt.alloc(), TWO_KINDS)?;
    compare_all(&rt, rt.alloc(), TWO_LINES)
}

#[test]
fn faults_of_short_texts_are_told(rt: HostRuntime) -> Result<(), Fail> {
    compare_texts(&rt, rt.alloc(), TEXTS)
}

#[test]
fn lines_without_a_fault_are_taken(rt: HostRuntime) -> Result<(), Fail> {
    for row in NO_FAULT.split('\n') {
        compare(&rt, rt.alloc(), row, "ok", row)?;
    }
    Ok(())
}

/// After so many lines, the text ends too early on the next one, or is a template.
fn compare_first(
    rt: &impl Abort,
    alloc: Global,
    text: &str,
    n: usize,
    at: usize,
) -> Result<(), Fail> {
    if n == 37 || n == 42 {
        return assert_told(rt, alloc, text, "ok", "the end of a hart");
    }
    let want = format!(in alloc; "{at} 2")?;
    assert_told(rt, alloc, text, &want, &want)
}

/// Without and with a line feed behind the lines.
fn compare_lines(rt: &impl Abort, alloc: Global, lines: &str, n: usize) -> Result<(), Fail> {
    compare_first(rt, alloc, lines, n, n)?;
    let ended = format!(in alloc; "{lines}\n")?;
    compare_first(rt, alloc, &ended, n, n.saturating_add(1))
}

#[test]
fn a_text_ends_behind_a_hart(rt: HostRuntime) -> Result<(), Fail> {
    let alloc = rt.alloc();
    let mut lines = String::new(alloc);
    for (i, line) in EVERY.split('\n').enumerate() {
        if i > 0 {
            lines.push('\n')?;
        }
        lines.push_str(line)?;
        compare_lines(&rt, alloc, &lines, i.saturating_add(1))?;
    }
    Ok(())
}

#[test]
fn an_error_is_told_in_one_line(rt: HostRuntime) -> Result<(), Fail> {
    let alloc = rt.alloc();
    let fault = ParseError::Fault(Fault {
        line: 7,
        kind: Kind::TooDeep,
    });
    let memory = ParseError::OutOfMemory;
    let lines = format!(in alloc; "{fault}, {memory}")?;
    assert_eq!(rt; lines.as_str(), "template line 7: fault 8, out of memory");
    Ok(())
}
