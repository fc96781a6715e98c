// Domains of all numbers.
use crate::solving::answer_of;
use fd_solve::solve;
use problem_rows::{number, problem_of};
use std::alloc::Global;
use std::process::Abort;
use std::test::Fail;

// Each row has a problem, one draw for all variables, and the values of the operation that is found.

const WIDE: &str = "\
lw rs1=each imm=signed rd=each a=all ea=page; holds rs1 a 0 0x80001900 - 0x80000007; sum a imm ea => 0 => lw rs1=2 ea=0x80000000 a=0x80000000
lw rs1=0..2 imm=signed rd=each a=all ea=page; holds rs1 a 0 0x80001900 0x7ffff700; sum a imm ea => 0 => none
bltu rs1=each rs2=each imm=signed a=all; taken; linked => 0 => none
beq rs1=each rs2=each imm=signed a=all b=all; taken; linked; target 8 4 => 0 => beq imm=0xfffffffc
addi rs1=each imm=signed rd=each a=1..2 b=1..2 word=1..2; differ a b; differ b word; differ a word => 0 => none
bltu rs1=each rs2=each imm=signed a=all; taken; linked | addi rs1=each imm=signed rd=each a=1..2 b=1..2 word=1..2; differ a b; differ b word; differ a word | beq rs1=each rs2=each imm=signed a=all b=all; taken; linked; target 8 4 | lw rs1=0..2 imm=signed rd=each a=all ea=page; holds rs1 a 0 0x80001900 0x7ffff700; sum a imm ea => 0 => beq imm=0xfffffffc
lw rs1=each imm=signed rd=each a=all ea=all word=all; holds rs1 a 0 0x80001900 - 0x80000007; sum a imm ea; rows 0x80000ffc 0 0 9..0xffffffff => 0 => lw rs1=2 ea=0x80000ffc a=0x80000ffc word=9
sw rs1=each rs2=each imm=signed a=all b=all ea=page; sum a imm ea; same a b; linked => 0 => sw ea=0x80000000 a=0x80000000 b=0x80000000";

/// What the relations say together of the operands.
const TOGETHER: &str = "\
bne rs1=3 rs2=3 a=all b=all; taken; linked => 0 => none
blt rs1=3 rs2=3 a=all b=all; linked; taken => 0 => none
bgeu rs1=3 rs2=3 a=all b=all; linked; not_taken => 0 => none
beq rs1=3 rs2=3 a=all b=all; linked; not_taken => 0 => none
bne rs1=3 rs2=3..4 a=all b=all; taken; linked => 0 => bne rs1=3 rs2=4 b=1
bltu rs1=3 rs2=3..4 a=all b=all; taken; not_taken => 0 => none
add rs1=3 rs2=3..4 a=all b=all; same a b; differ b a => 0 => none
bge rs1=3 rs2=3..4 a=all b=all; not_taken; same a b => 0 => none
blt rs1=3 rs2=3..4 a=all b=all; differ b a; taken; linked; same a b => 0 => none
bgeu rs1=3 rs2=3..4 a=all b=all; taken; differ b a => 0 => bgeu rs1=3 rs2=3 a=1";

/// Operands that few words are in between.
const OPERANDS: &str = "\
csrrs rs1=5 csr=0x300 a=all old=8; writes => 0x800000 => csrrs rs1=5 csr=0x300 old=8
csrrs rs1=5 csr=0x180 a=all old=0x80000001; writes => 0x100000 => csrrs rs1=5 csr=0x180 a=0x80000000 old=0x80000001
csrrc rs1=5 csr=0x180 a=all old=0x80000001; writes => 0x80000000 => csrrc rs1=5 csr=0x180 a=0x80000001 old=0x80000001
csrrs rs1=5 csr=0x342 a=all old=0..9; writes => 16 => csrrs rs1=5 csr=0x342 old=6
csrrc rs1=5 csr=0x342 a=all old=0..9; writes => 0xffffffff => csrrc rs1=5 csr=0x342 a=0xffffffff old=5
csrrs rs1=5 csr=0x341 a=all old=all; writes => 0xffffffff => csrrs rs1=5 csr=0x341 old=0";

/// No value is legal for mhartid, nor at an address without a register.
const ILLEGAL: &str = "\
csrrc rs1=1..31 csr=0xf14 a=all old=0..3; writes => 0 => none
csrrs rs1=1..31 csr=0xf14 a=all old=0..3; writes => 7 => none
csrrc rs1=1..31 csr=0x301 a=all old=0; writes => 0xffffffff => none
csrrc rs1=each csr=0x340,0xf14 a=all old=all; writes => 1 => csrrc rs1=1 csr=0x340 a=1 old=1";

/// Old values, addresses and registers of what is known besides, and variables that are equal in a row, of which
/// the last is known, each relation before the one that it waits for.
const KNOWN: &str = "\
csrrc rs1=5 csr=0x180 a=0x80000000 old=all; writes => 0x12345 => csrrc rs1=5 csr=0x180 a=0x80000000 old=0x80000000
csrrs rs1=5 csr=0x142 a=16 old=all; writes => 3 => none
csrrs rs1=5 csr=0x300 a=0x1000 old=all; writes => 0x12345678 => csrrs rs1=5 csr=0x300 a=0x1000 old=0x800
csrrc rs1=5 csr=0x180 a=0x80000000..0x8007ffff,0x80100000..0x8017ffff,0xffe00000..0xffe7ffff old=0x80080000; writes => 0 => none
csrrw rs1=5 csr=all a=7; writes => 0x141 => csrrw rs1=5 csr=0x142 a=7
csrrw rs1=5 csr=all a=7; writes => 0x344 => csrrw rs1=5 csr=0x140 a=7
csrrc rs1=each csr=0xf14 a=7; writes => 1 => csrrc csr=0xf14 a=7
addi imm=5 rd=all csr=all ea=all a=all b=all root=all leaf=all word=all old=all vector=all; same old vector; same word old; same leaf word; same root leaf; same b root; same a b; same ea a; same csr ea; same rd csr; same imm rd => 6 => addi imm=5 rd=5 csr=5 ea=5 a=5 b=5 root=5 leaf=5 word=5 old=5 vector=5";

/// Sums of few numbers are just those: a store between the two pages that its base reaches.
const FEW: &str = "\
sw rs1=each rs2=each imm=signed a=0x1000,0x5000 b=all ea=0x3000..0x3fff; sum a imm ea; linked => 0 => none";

/// A store through any register, with an aligned base and address and an immediate that is not.
const MISALIGNED: &str =
    "sw rs1=each rs2=each imm=signed/2+1 a=page/4 b=all ea=all/4 word=all; sum a imm ea; linked => 17 => none";

/// Whether the answer is the wanted one.
fn is_answered(alloc: Global, row: &str) -> Result<bool, Fail> {
    let (text, rest) = row.split_once(" => ").ok_or("a draw")?;
    let (draw, want) = rest.split_once(" => ").ok_or("an answer")?;
    let p = problem_of(alloc, text, number(draw)?)?;
    Ok(solve(alloc, &p, u64::MAX)? == answer_of(want)?)
}

fn compare_all(rt: &impl Abort, alloc: Global, rows: &str) -> Result<(), Fail> {
    for row in rows.split('\n') {
        assert!(rt; is_answered(alloc, row)?, "at {row}");
    }
    Ok(())
}

#[test]
fn an_immediate_that_is_not_aligned_is_left_at_once(rt: HostRuntime) -> Result<(), Fail> {
    compare_all(&rt, rt.alloc(), MISALIGNED)
}

#[test]
fn domains_of_all_numbers_are_searched(rt: HostRuntime) -> Result<(), Fail> {
    for rows in [WIDE, TOGETHER, OPERANDS, ILLEGAL, KNOWN, FEW] {
        compare_all(&rt, rt.alloc(), rows)?;
    }
    Ok(())
}
