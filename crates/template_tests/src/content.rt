// What templates say.
use crate::printing::shown;
use std::alloc::Global;
use std::process::Abort;
use std::test::Fail;
use test_texts::{EVERY, PAGE_FAULT};

/// What the template with every statement says.
const ALL: &str = "ram 80000000-80010000 00000000-00001000
pool 80000000 80001000
tables 80002000
pteflags 00 cf
vectors { 80000100 80000104 80000108 }
words 80001004=deadbeef 80001ffc=00000007
name n1 { 1 3 5 6 7 }
name n2 { 0 1024 2048 3072 }
name label top { 0 1 .. ffffffff: 4294967296 }
hart 80000000 m 00000000 00000000 80080002 5=00000005 1f=ffffffff 1305=80000100
label 2
leaf 21; op in { 0 18 }; rd in { 1 3 5 6 7 }; prefer imm in { 0 2 fffffffc fffffffe }
fault 22 { 1 12 }
seq
leaf 24; rs1 == name 0; not taken
end
repeat 3
leaf 27
end
choose 29
way 2
leaf 31; target == name 2
end
way 0
end
end
hart 00001000 u 00000000 00000000 00000000
";

/// What a load whose page has no entry yet says.
const PAGE_FAULT_SAYS: &str = "ram 80000000-80005000
pool 80003000
tables 80001000
pteflags 00
vectors { 00400100 }
words 80001004=20000801 80002000=20000c4b
hart 00400000 s 00000000 00002000 80080001
leaf 13; op in { 12 }; rd in { 6 }; rs1 in { 5 }; imm in { 0 }; ea in { 00802000 }; outcome in { 13 }
";

/// Loads and stores of a program in user mode.
const USER_MODE: &str = "ram 0x80000000 0x80010000
pool 0x80000000 0x80004000 0x80005000 0x80006000 0x80007000
vectors {0x80000800}
data 0x80001004 = 0x20000801
data 0x80002000 = 0x2000105b
data 0x80002004 = 0x200014d7
data 0x80002008 = 0x200018d7
data 0x8000200c = 0x20001cd7
hart 0 {
start pc 0x80000000 priv m
csr satp = 0x80080001
reg x30 = 0x00403800
reg x31 = 0x00402000
body {
do op in {csrrw}; csr in {mepc}; rd in {0}; rs1 in {1}; a in {0x00400000}
do op in {mret}
repeat 100 {
do op in {add, sub, xor, sltu, mul, divu}; rd in {1..29}
choose {
1: {
do op in {lw, lbu}; rs1 in {30, 31}; rd in {1..29}
}
1: {
do op in {sw, sb}; rs1 in {30, 31}
}
}
}
do op in {ecall}; outcome in {8}
do op in {csrrs}; csr in {mcause}; rs1 in {0}; rd in {5}
do op in {mret}
}
}
";

const USER_MODE_SAYS: &str = "ram 80000000-80010000
pool 80000000 80004000 80005000 80006000 80007000
tables
pteflags
vectors { 80000800 }
words 80001004=20000801 80002000=2000105b 80002004=200014d7 80002008=200018d7 8000200c=20001cd7
hart 80000000 m 00000000 00000000 80080001 1e=00403800 1f=00402000
leaf 15; op in { 48 }; csr in { 833 }; rd in { 0 }; rs1 in { 1 }; a in { 00400000 }
leaf 16; op in { 54 }
repeat 100
leaf 18; op in { 27 28 31 32 40 45 }; rd in { 1 2 .. 29: 29 }
choose 19
way 1
leaf 21; op in { 12 13 }; rs1 in { 30 31 }; rd in { 1 2 .. 29: 29 }
end
way 1
leaf 24; op in { 15 17 }; rs1 in { 30 31 }
end
end
end
leaf 28; op in { 38 }; outcome in { 8 }
leaf 29; op in { 49 }; csr in { 834 }; rs1 in { 0 }; rd in { 5 }
leaf 30; op in { 54 }
";

/// The template of `demo 40`.
const DEMO: &str = "ram 0x80000000 0x80020000
pool 0x80000000 0x80001000 0x80010000
hart 0 {
start pc 0x80000000 priv m
reg x31 = 0x80010800
body {
repeat 40 {
choose {
3: {
do op in {add, sub, xor, or, and, sltu, sra, addi, slli}; rd in {0..30}
}
2: {
do op in {lw, lhu, lb}; rs1 in {31}; rd in {0..30}
}
2: {
do op in {sw, sh, sb}; rs1 in {31}
}
1: {
do op in {mul, mulhu, div, remu}; rd in {0..30}
}
}
}
}
}
";

const DEMO_SAYS: &str = "ram 80000000-80020000
pool 80000000 80001000 80010000
tables
pteflags
vectors { 80000000 80000004 .. 80010ffc: 3072 }
words
hart 80000000 m 00000000 00000000 00000000 1f=80010800
repeat 40
choose 8
way 3
leaf 10; op in { 18 24 27 28 31 32 34 35 36 }; rd in { 0 1 .. 30: 31 }
end
way 2
leaf 13; op in { 10 12 14 }; rs1 in { 31 }; rd in { 0 1 .. 30: 31 }
end
way 2
leaf 16; op in { 15 16 17 }; rs1 in { 31 }
end
way 1
leaf 19; op in { 40 43 44 47 }; rd in { 0 1 .. 30: 31 }
end
end
end
";

fn assert_shown(rt: &impl Abort, alloc: Global, text: &str, want: &str) -> Result<(), Fail> {
    assert_eq!(rt; shown(alloc, text)?.as_str(), want, "of {text}");
    Ok(())
}

#[test]
fn texts_say_their_templates(rt: HostRuntime) -> Result<(), Fail> {
    assert_shown(&rt, rt.alloc(), EVERY, ALL)?;
    assert_shown(&rt, rt.alloc(), PAGE_FAULT, PAGE_FAULT_SAYS)?;
    assert_shown(&rt, rt.alloc(), USER_MODE, USER_MODE_SAYS)?;
    assert_shown(&rt, rt.alloc(), DEMO, DEMO_SAYS)
}

/// The template of every statement with as few blanks as may be.
const TIGHT: &str = "\
ram 0x80000000 0x80010000
ram 0 4096
pool 0x80000000 0x80001000
tables 0x80002000
pteflags 0x00 0xcf
vectors{0x80000100..0x8000010b}
set odd={1,3,5..7}
set near={-4..3}align 2
name n1 in odd
name n2 in{0..4095}align 0x400
data 0x80001ffc=7
data 0x80001004=0xdeadbeef
hart 0{
start pc 0x80000000 priv m
csr mtvec=0x80000100
reg x31=-1
csr satp=0x80080002
reg x5=5
body{
label top
do op in{addi,lui};rd in odd;prefer imm in near
fault outcome in{1,12}
seq{
do rs1==n1;not taken
}
repeat 3{
do
}
choose{
2:{
do target==top
}
0:{
}
}
}
}
hart 1{
start pc 0x1000 priv u
body{
}
}";

/// The template of every statement with other texts in place of each blank and each line feed.
fn spaced(alloc: Global, blank: &str, between: &str) -> Result<String, Fail> {
    let mut out = String::new(alloc);
    for c in EVERY.chars() {
        match c {
            ' ' => out.push_str(blank)?,
            '\n' => out.push_str(between)?,
            _ => out.push(c)?,
        }
    }
    Ok(out)
}

#[test]
fn blanks_say_nothing(rt: HostRuntime) -> Result<(), Fail> {
    let alloc = rt.alloc();
    assert_shown(&rt, alloc, TIGHT, ALL)?;
    assert_shown(&rt, alloc, &spaced(alloc, "\t  ", "\n")?, ALL)
}

#[test]
fn comments_and_carriage_returns_say_nothing(rt: HostRuntime) -> Result<(), Fail> {
    let alloc = rt.alloc();
    for between in [
        "\r\n",
        "  \t\n\t ",
        "# do { } = ~ \" # $ \n",
        " # a comment\r\n",
        "#\n",
    ] {
        assert_shown(&rt, alloc, &spaced(alloc, " ", between)?, ALL)?;
    }
    Ok(())
}

#[test]
fn ends_say_nothing(rt: HostRuntime) -> Result<(), Fail> {
    let alloc = rt.alloc();
    for end in [
        "\n",
        "\r\n",
        "\n \t\n# the end",
        " ",
        " # the end",
        "\n\n\n",
    ] {
        assert_shown(&rt, alloc, &format!(in alloc; "{EVERY}{end}")?, ALL)?;
    }
    Ok(())
}
