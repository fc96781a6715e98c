// Small problems of each relation, against the plain search.
use crate::solving::{compare, compare_all};
use std::alloc::Global;
use std::fmt::Write;
use std::process::Abort;
use std::test::Fail;

/// Relations of branches, on words at both ends of both orders.
const ASKED: &str = "\
taken
not_taken
taken; linked
not_taken; linked
taken; same a b
taken; differ b a
not_taken; same a b
not_taken; differ b a; linked
taken; not_taken
same a b; differ b a
taken; holds rs1 a 0 1 -; holds rs2 b 0 1 - 0xffffffff; linked
not_taken; holds rs1 a 0 1 -; holds rs2 b 0 1 - 0xffffffff; linked
differ b a; holds rs1 a 0 1 -; holds rs2 b 0 1 - 0xffffffff
same a b; holds rs1 a 0 1 -; holds rs2 b 0 1 - 0xffffffff; differ rs1 rs2";

const JUMPS: &str = "\
jal imm=offsets rd=0..1; target 4 0,8..11
jal imm=offsets; target 0xfffffffc 3,0xfffffff8..0xfffffff9
jal imm=offsets; target 64 0..51
jalr rs1=1..2 a=0..3,0x80000001..0x80000002,0xfffffffd..0xffffffff imm=0..3,0xfffffffe..0xffffffff; target 0 0,2,5
jalr rs1=1..2 a=0..3,0x80000001..0x80000002,0xfffffffd..0xffffffff imm=0..3,0xfffffffe..0xffffffff; target 0 1,3
jalr rs1=1..2 a=0..3,0x80000001..0x80000002,0xfffffffd..0xffffffff imm=0..3,0xfffffffe..0xffffffff; target 8 0x80000002..0x80000004; holds rs1 a 0 1 -
addi rs1=1..2 a=0..3,0x80000001..0x80000002,0xfffffffd..0xffffffff imm=0..3,0xfffffffe..0xffffffff; target 0 0..100";

const SUMS: &str = "\
lw rs1=0..2 imm=0..3,0xfffffffd..0xffffffff a=0..2,0xfffffffe..0xffffffff ea=0..1,4..5,0xffffffff; sum a imm ea
lw rs1=0..2 imm=0..3,0xfffffffd..0xffffffff a=0..2,0xfffffffe..0xffffffff ea=0..1,4..5,0xffffffff; sum a imm ea; holds rs1 a 0 1 -
lw rs1=0..2 imm=0..3,0xfffffffd..0xffffffff a=0..2,0xfffffffe..0xffffffff ea=0..1,4..5,0xffffffff; sum a a ea
lw rs1=0..2 imm=0..3,0xfffffffd..0xffffffff a=0..2,0xfffffffe..0xffffffff ea=0..1,4..5,0xffffffff; sum ea imm ea
lw rs1=0..2 imm=0..3,0xfffffffd..0xffffffff a=0..2,0xfffffffe..0xffffffff ea=0..1,4..5,0xffffffff; sum a imm ea; differ a ea; differ imm ea";

const ROWS: &str = "\
lw imm=0..2 a=0..1 ea=0..3 root=0..1 leaf=0..2 word=5..6; rows 0 0..1 1..2 7..9 / 2..3 1 0,2 6..9 / 1..3 0 2 0..5
lw imm=0..2 a=0..1 ea=0..3 root=0..1 leaf=0..2 word=5..6; sum a imm ea; rows 0 0..1 1..2 7..9 / 2..3 1 0,2 6..9 / 1..3 0 2 0..5
lw imm=0..2 a=0..1 ea=0..3 root=0..1 leaf=0..2 word=5..6; rows 0 0 0..2 5 / 3 1 0..2 6; same root leaf
lw imm=0..2 a=0..1 ea=0..3 root=0..1 leaf=0..2 word=5..6; rows 0 0 0..2 5 / 3 1 0..2 6; differ imm root; sum a imm ea
lw imm=0..2 a=0..1 ea=0..3 root=0..1 leaf=0..2 word=5..6; rows 0 0..1 1..2 7..9 / 2..3 1 0,2 6..9 / 1..3 0 2 0..5; rows 0 0 0..2 5 / 3 1 0..2 6
lw imm=0..2 a=0..1 ea=0..3 root=0..1 leaf=0..2 word=5..6; rows";

// Sets that variables are in beside their domains.
const INSIDE: &str = "\
lw rs1=0..2 imm=0..3,0xfffffffd..0xffffffff a=0..2,0xfffffffe..0xffffffff ea=0..1,4..5,0xffffffff; sum a imm ea; in ea 1,5..9
lw rs1=0..2 imm=0..3,0xfffffffd..0xffffffff a=0..2,0xfffffffe..0xffffffff ea=0..1,4..5,0xffffffff; sum a imm ea; in ea 0..1; in ea 1..4
lw rs1=0..2 imm=0..3,0xfffffffd..0xffffffff a=0..2,0xfffffffe..0xffffffff ea=0..1,4..5,0xffffffff; in ea none; sum a imm ea
lw rs1=0..2 imm=0..3,0xfffffffd..0xffffffff a=0..2,0xfffffffe..0xffffffff ea=0..1,4..5,0xffffffff; in a 1..2; differ a ea; sum a imm ea; in ea 0..4/4
lw rs1=0..2 imm=0..3,0xfffffffd..0xffffffff a=0..2,0xfffffffe..0xffffffff ea=0..1,4..5,0xffffffff; in imm 0..2; sum ea imm ea; same a imm";

/// Addresses with and without a register, and values of each part of a write.
const WRITTEN: &str = "\
rs1=0..1 imm=0,2,16 csr=0x180,0x300,0x305,0x342,0x999 a=0,2..3,0x1000,0x80000000 old=0,9,0x1800
rs1=0..1 imm=each csr=0x342 a=0..17 old=9,11
rs1=3 imm=1 csr=0x341 a=3..9 old=4,8";

fn compare_branch(rt: &impl Abort, alloc: Global, op: &str) -> Result<(), Fail> {
    for asked in ASKED.split('\n') {
        let text = format!(in alloc; "{op} rs1=1..2 rs2=2..3 a=edges b=edges; {asked}")?;
        compare(rt, alloc, &text)?;
    }
    Ok(())
}

#[test]
fn branches_are_solved_as_by_a_plain_search(rt: HostRuntime) -> Result<(), Fail> {
    for op in ["beq", "bne", "blt", "bge", "bltu", "bgeu"] {
        compare_branch(&rt, rt.alloc(), op)?;
    }
    Ok(())
}

#[test]
fn each_relation_is_solved_as_by_a_plain_search(rt: HostRuntime) -> Result<(), Fail> {
    for rows in [JUMPS, SUMS, ROWS, INSIDE] {
        compare_all(&rt, rt.alloc(), rows)?;
    }
    Ok(())
}

/// 6 values of 10 each, in a set of 400 numbers that are 3 apart: too many pairs for the domain to be cut at once.
fn apart(alloc: Global) -> Result<String, Fail> {
    let mut text = format!(in alloc; "lw imm=0..1 a=0..60 ea=0")?;
    for n in 1..6u32 {
        write!(text, ",{}", n * 10)?;
    }
    text.push_str("; sum a imm ea; in ea 1")?;
    for n in 1..400u32 {
        write!(text, ",{}", n * 3 + 1)?;
    }
    Ok(text)
}

#[test]
fn a_set_of_many_pieces_is_searched(rt: HostRuntime) -> Result<(), Fail> {
    let alloc = rt.alloc();
    compare(&rt, alloc, &apart(alloc)?)
}

fn compare_write(rt: &impl Abort, alloc: Global, op: &str) -> Result<(), Fail> {
    for domains in WRITTEN.split('\n') {
        compare(rt, alloc, &format!(in alloc; "{op} {domains}; writes")?)?;
    }
    Ok(())
}

#[test]
fn writes_are_solved_as_by_a_plain_search(rt: HostRuntime) -> Result<(), Fail> {
    for op in ["csrrw", "csrrs", "csrrc", "csrrwi", "csrrsi", "csrrci"] {
        compare_write(&rt, rt.alloc(), op)?;
    }
    Ok(())
}
