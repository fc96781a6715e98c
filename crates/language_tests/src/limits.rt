// Limits, each at its value and one above.
use crate::told::assert_told;
use std::alloc::{AllocError, Global};
use std::fmt::Write;
use std::process::Abort;
use std::test::Fail;

/// How often a piece may stand; what is told where it stands once more; what stands before the pieces; the piece; what
/// stands as often behind the pieces; the text's end. A bar stands for a line feed, a percent sign for the piece's number
/// in hexadecimal, a plus for the lines that open a hart and its body, and a dollar for those that close them.
const LIMITS: &str = "\
4~21 10~~hart 0x% {|start pc 0 priv m|body {|}|}|~~
8~9 10~~ram 0x8%00000 0x8%01000|~~+$
32~2 10~ram 0x80000000 0x84000000|pool~ 0x800%000~~|+$
32~34 10~ram 0x80000000 0x84000000|~pool 0x800%000|~~+$
8~2 10~ram 0x80000000 0x84000000|tables~ 0x800%000~~|+$
8~10 10~ram 0x80000000 0x84000000|~tables 0x800%000|~~+$
8~1 10~pteflags~ 0xcf~~|+$
8~9 10~~pteflags 0xcf|~~+$
64~65 10~~set q% = {1}|~~+$
256~257 10~~name n% in {1}|~~+$
255~260 10~name n1 in {1}|+~label l%|~~$
63~1 10~set q1 = {0~,0x%~~}|+$
63~1 10~name q1 in {0~,-4..3~~} align 2|+$
63~1 10~vectors {0~,8..9~~}|+$
63~4 10~+do imm in {0~, 1~~}|$
63~4 10~+do imm not in {0~, 1..2~~}|$
63~4 10~+do op in {add~, sub~~}|$
63~4 10~+do csr not in {mepc~, mepc~~}|$
63~4 10~+do outcome in {retire~, 2~~}|$
63~4 10~+fault outcome in {1~, 12~~}|$
31~4 10~+do taken~; taken~~|$
31~4 10~+do prefer rs1 in {1}~; prefer rs2 != rd~~|$
64~133 10~+choose {|~1: {|}|~~}|$
63~133 10~+choose {|~0: {|}|~~5: {|}|}|$
16~20 8~+~seq {|~}|~$
16~20 8~+~repeat 1 {|~}|~$
8~20 8~+~choose {|1: {|~}|}|~$
14~20 8~+choose {|1: {|~seq {|~}|~}|}|$
8192~8197 9~+~do|~~$
2~9 9~+repeat 4096 {|~fault outcome in {1}|~~}|$
4096~8198 9~+~do|do|~~$
31~1 2~set q~a~~ = {1}|+$
31~1 2~name q~_~~ in {1}|+$
31~4 2~+label q~9~~|$
65497~0 9~+$#~ ~~
65497~0 9~+$|~\t~~";

/// Rows of the same form: what is told where the pieces stand so often.
const LONG: &str = "\
65536~1 2~~ ~~
65537~0 9~~ ~~
65536~1 1~~\x01~~
65537~0 9~~\x01~~
65536~65537 2~~|~~
15~20 8~+~seq {|~~choose {|1: {|
16~20 2~+~seq {|~~2: {|
16~20 2~+~seq {|~~seq 1 {|
16~20 3~+~seq {|~~repeat 8193 {|
5~14 9~+~repeat 8192 {|~}|~$
16~36 9~+~repeat 8192 {|~}|~$
7~22 9~+choose {|1: {|~repeat 8192 {|~}|~}|}|$
8193~8197 9~+~do|~~}|}
8193~8197 2~+~do|~~}
64~4 7~+do imm in {5..4~, 5..4~~}|$
64~4 3~+do imm in {0x100000000~, 1~~}|$
64~4 4~+do op in {foo~, add~~}|$
64~1 7~set q1 = {5..4~, 5..4~~}|+$
64~1 3~set q1 = {0x100000000~, 1~~}|+$
64~1 2~set q1 = {1~, 1~~,}|+$
64~1 7~vectors {1~, 1~~}|+$
64~2 5~set q1 = {1}|set q1 = {1~, 1~~}|+$
32~4 7~+do imm in {5..4}~; taken~~|$
32~4 3~+do rs1 in {32}~; taken~~|$
32~4 4~+do rs1 == none~; taken~~|$
32~4 2~+do taken~; taken~~;|$
31~5 6~name n1 in {1}|+do a == n1; b == n1~; taken~~|$
33~1 10~pool~ 0x80010000~~|+$
33~1 3~pool~ 0x100000000~~|+$
9~1 10~tables~ 4~~|+$
9~1 10~pteflags~ 1~~|+$
9~1 3~pteflags~ 257~~|+$
8~9 10~~ram 0x8%00000 0x8%01000|~~ram 0x80000000 0x80001000|+$
8~9 3~~ram 0x8%00000 0x8%01000|~~ram 0x100000000 0|+$
64~65 5~~set q% = {1}|~~set q00 = {1}|+$
64~65 7~~set q% = {1}|~~set r1 = {5..4}|+$
64~65 4~~set q% = {1}|~~set r1 = q40|+$
256~257 5~~name n% in {1}|~~name nff in {1}|+$
256~260 10~~name n% in {1}|~~+label l1|$
256~260 5~~name n% in {1}|~~+label nff|$
256~260 2~~name n% in {1}|~~+label op|$
256~ok~~name n% in {1}|~~+do rs1 == nff; rs2 == n00|$
64~ok~~set q% = {1}|~~+do imm in q3f; ea in q00|$
4~21 10~~hart % {|start pc 0 priv m|body {|}|}|~~hart 9 {|
4~21 3~~hart % {|start pc 0 priv m|body {|}|}|~~hart 0x100000004 {|
4~21 2~~hart % {|start pc 0 priv m|body {|}|}|~~hart 4 {
64~133 3~+choose {|~1: {|}|~~65536: {|
64~133 2~+choose {|~1: {|}|~~do|";

fn push_expanded(text: &mut String, part: &str, n: usize) -> Result<(), AllocError> {
    for c in part.chars() {
        match c {
            '|' => text.push('\n')?,
            '%' => write!(text, "{n:02x}")?,
            '+' => text.push_str("hart 0 {\nstart pc 0 priv m\nbody {\n")?,
            '$' => text.push_str("}\n}\n")?,
            _ => text.push(c)?,
        }
    }
    Ok(())
}

fn push_repeated(text: &mut String, part: &str, count: usize) -> Result<(), AllocError> {
    for n in 0..count {
        push_expanded(text, part, n)?;
    }
    Ok(())
}

/// A row of a table.
#[derive(Drop)]
struct Limit<'a> {
    count: usize,
    told: &'a str,
    before: &'a str,
    piece: &'a str,
    behind: &'a str,
    end: &'a str,
}

fn limit_of(row: &str) -> Result<Limit<'_>, Fail> {
    let (count, row) = row.split_once('~').ok_or("how often")?;
    let (told, row) = row.split_once('~').ok_or("what is told")?;
    let (before, row) = row.split_once('~').ok_or("what stands before")?;
    let (piece, row) = row.split_once('~').ok_or("the piece")?;
    let (behind, end) = row.split_once('~').ok_or("what stands behind")?;
    let count = count.parse()?;
    Ok(Limit {
        count,
        told,
        before,
        piece,
        behind,
        end,
    })
}

/// The text with so many pieces.
fn text_of(alloc: Global, limit: &Limit<'_>, count: usize) -> Result<String, AllocError> {
    let mut text = String::new(alloc);
    push_expanded(&mut text, limit.before, 0)?;
    push_repeated(&mut text, limit.piece, count)?;
    push_repeated(&mut text, limit.behind, count)?;
    push_expanded(&mut text, limit.end, 0)?;
    Ok(text)
}

/// What is told of the row's text with so many pieces.
fn compare(rt: &impl Abort, alloc: Global, row: &str, more: bool) -> Result<(), Fail> {
    let limit = limit_of(row)?;
    let count = if more {
        limit.count.saturating_add(1)
    } else {
        limit.count
    };
    let text = text_of(alloc, &limit, count)?;
    assert_told(rt, alloc, &text, limit.told, row)
}

/// Nothing is wrong at the limit.
fn assert_kept(rt: &impl Abort, alloc: Global, row: &str) -> Result<(), Fail> {
    let limit = limit_of(row)?;
    let text = text_of(alloc, &limit, limit.count)?;
    assert_told(rt, alloc, &text, "ok", row)
}

#[test]
fn limits_are_kept(rt: HostRuntime) -> Result<(), Fail> {
    for row in LIMITS.split('\n') {
        assert_kept(&rt, rt.alloc(), row)?;
        compare(&rt, rt.alloc(), row, true)?;
    }
    Ok(())
}

#[test]
fn long_texts_tell_the_least_kind(rt: HostRuntime) -> Result<(), Fail> {
    for row in LONG.split('\n') {
        compare(&rt, rt.alloc(), row, false)?;
    }
    Ok(())
}

/// Faults that docs/TEMPLATES.md tells of.
const EXAMPLES: &str = "\
1~5 6~name n1 in {1}|+do rs1 == n1; rs2 == n1|~~~
1~7 9~+do|repeat 8192 {|}|}|~~~
17~20 8~+~seq {|~~";

#[test]
fn examples_have_their_faults(rt: HostRuntime) -> Result<(), Fail> {
    for row in EXAMPLES.split('\n') {
        compare(&rt, rt.alloc(), row, false)?;
    }
    Ok(())
}
