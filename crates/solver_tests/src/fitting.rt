// Each relation on values whose meaning the manuals give.
use crate::spaces::full_problem;
use fd_prob::fits;
use problem_rows::{assignment_of, problem_of};
use std::alloc::Global;
use std::process::Abort;
use std::test::Fail;

// Each row has an operation with values, a relation, and whether it holds.

const HELD: &str = "\
addi rs1=1 a=7; holds rs1 a - 7 6 - => yes
addi rs1=1 a=6; holds rs1 a - 7 6 - => no
addi rs1=2 a=6; holds rs1 a - 7 6 - => yes
addi rs1=3 a=9; holds rs1 a - 7 6 - => yes
addi rs1=4 a=9; holds rs1 a - 7 6 - => yes";

const COMPARED: &str = "\
addi a=5 b=5 ea=10; same a b => yes
addi a=5 b=5 ea=10; differ a b => no
addi a=5 b=5 ea=10; sum a b ea => yes
addi a=5 b=6 ea=12; same a b => no
addi a=5 b=6 ea=12; differ a b => yes
addi a=5 b=6 ea=12; sum a b ea => no
addi a=0xffffffff b=6 ea=5; same a b => no
addi a=0xffffffff b=6 ea=5; differ a b => yes
addi a=0xffffffff b=6 ea=5; sum a b ea => yes
addi a=0x80000000 b=0x80000000; same a b => yes
addi a=0x80000000 b=0x80000000; differ a b => no
addi a=0x80000000 b=0x80000000; sum a b ea => yes";

/// Less, less as signed numbers, and the same; `jal` and `addi` have no condition.
const CONDITIONS: &str = "\
beq a=1 b=2; taken => no
beq a=0xffffffff b=0; taken => no
beq a=3 b=3; taken => yes
beq a=1 b=2; not_taken => yes
beq a=0xffffffff b=0; not_taken => yes
beq a=3 b=3; not_taken => no
bne a=1 b=2; taken => yes
bne a=0xffffffff b=0; taken => yes
bne a=3 b=3; taken => no
bne a=1 b=2; not_taken => no
bne a=0xffffffff b=0; not_taken => no
bne a=3 b=3; not_taken => yes
blt a=1 b=2; taken => yes
blt a=0xffffffff b=0; taken => yes
blt a=3 b=3; taken => no
blt a=1 b=2; not_taken => no
blt a=0xffffffff b=0; not_taken => no
blt a=3 b=3; not_taken => yes
bge a=1 b=2; taken => no
bge a=0xffffffff b=0; taken => no
bge a=3 b=3; taken => yes
bge a=1 b=2; not_taken => yes
bge a=0xffffffff b=0; not_taken => yes
bge a=3 b=3; not_taken => no
bltu a=1 b=2; taken => yes
bltu a=0xffffffff b=0; taken => no
bltu a=3 b=3; taken => no
bltu a=1 b=2; not_taken => no
bltu a=0xffffffff b=0; not_taken => yes
bltu a=3 b=3; not_taken => yes
bgeu a=1 b=2; taken => no
bgeu a=0xffffffff b=0; taken => yes
bgeu a=3 b=3; taken => yes
bgeu a=1 b=2; not_taken => yes
bgeu a=0xffffffff b=0; not_taken => no
bgeu a=3 b=3; not_taken => no
jal a=1 b=2; taken => no
jal a=0xffffffff b=0; taken => no
jal a=3 b=3; taken => no
jal a=1 b=2; not_taken => no
jal a=0xffffffff b=0; not_taken => no
jal a=3 b=3; not_taken => no
addi a=1 b=2; taken => no
addi a=0xffffffff b=0; taken => no
addi a=3 b=3; taken => no
addi a=1 b=2; not_taken => no
addi a=0xffffffff b=0; not_taken => no
addi a=3 b=3; not_taken => no";

const LINKED: &str = "\
add rs1=4 rs2=4 a=1; linked => no
add rs1=4 rs2=4 a=1 b=1; linked => yes
add rs1=4 rs2=5 a=1; linked => yes
add rs1=4 rs2=5 a=1 b=1; linked => yes";

/// From 0x100: `jal`, `beq` that is not taken, `jalr`, which clears bit 0, and `addi`, which has none.
const TARGETS: &str = "\
jal imm=0x800; target 0x100 0x900 => yes
jal imm=0x800; target 0x100 0..0x8ff,0x901..0xffffffff => no
jal imm=0xfffffef0; target 0x100 0xfffffff0 => yes
jal imm=0xfffffef0; target 0x100 0..0xffffffef,0xfffffff1..0xffffffff => no
beq imm=0xfffffffc a=1; target 0x100 0xfc => yes
beq imm=0xfffffffc a=1; target 0x100 0..0xfb,0xfd..0xffffffff => no
jalr imm=4 a=0x1003; target 0x100 0x1006 => yes
jalr imm=4 a=0x1003; target 0x100 0..0x1005,0x1007..0xffffffff => no
jalr imm=5 a=0xffffffff; target 0x100 4 => yes
jalr imm=5 a=0xffffffff; target 0x100 0..3,5..0xffffffff => no
addi; target 0x100 all => no";

/// `csrrw` of mepc, mhartid, mcause and an address that is no register's; `csrrs`, `csrrc`, `csrrwi`, `csrrsi` and
/// `csrrci` of mepc; `addi` writes nothing.
const WRITES: &str = "\
csrrw csr=0x341 a=8; writes => yes
csrrw csr=0x341 a=9; writes => no
csrrw csr=0xf14 a=0; writes => no
csrrw csr=0x342 a=15; writes => yes
csrrw csr=0x342 a=14; writes => no
csrrw csr=0x10341 a=8; writes => no
csrrs csr=0x341 rs1=5 a=8 old=4; writes => yes
csrrs csr=0x341 rs1=5 a=2 old=4; writes => no
csrrs csr=0x341 rs1=0 a=2 old=4; writes => yes
csrrc csr=0x341 rs1=5 a=2 old=6; writes => yes
csrrc csr=0x341 rs1=5 a=4 old=6; writes => no
csrrwi csr=0x341 imm=3; writes => no
csrrsi csr=0x341 imm=3; writes => no
csrrsi csr=0x341 imm=0 old=3; writes => yes
csrrci csr=0x341 imm=3 old=7; writes => yes
csrrci csr=0xf14 imm=0; writes => yes
addi csr=0x341 imm=3 a=3; writes => yes";

const ROWS: &str = "\
lw ea=4 root=1 word=9; rows 4 1 0 all / 8 2 0 all => yes
lw ea=8 root=2; rows 4 1 0 all / 8 2 0 all => yes
lw ea=4 root=2; rows 4 1 0 all / 8 2 0 all => no
lw ea=12 root=1; rows 4 1 0 all / 8 2 0 all => no
lw ea=4 root=1 leaf=1; rows 4 1 0 all / 8 2 0 all => no
lw ea=4 root=1 word=9; rows => no
lw ea=8 root=2; rows => no
lw ea=4 root=2; rows => no
lw ea=12 root=1; rows => no
lw ea=4 root=1 leaf=1; rows => no";

/// Any number for each variable.
const FREE: &str =
    "op=all rs1=all rs2=all imm=all rd=all csr=all ea=all a=all b=all root=all leaf=all word=all old=all \
    vector=all";

/// Whether the values fit a case of their operation in which this relation alone stands.
fn holds(alloc: Global, text: &str) -> Result<bool, Fail> {
    let (values, rel) = text.split_once("; ").ok_or("values")?;
    let (op, _) = values.split_once(' ').unwrap_or((values, ""));
    let p = problem_of(alloc, &format!(in alloc; "{op} {FREE}; {rel}")?, 0)?;
    Ok(fits(&p, &assignment_of(values)?))
}

const fn answer(holds: bool) -> &'static str {
    if holds { "yes" } else { "no" }
}

fn compare_all(rt: &impl Abort, alloc: Global, rows: &str) -> Result<(), Fail> {
    for row in rows.split('\n') {
        let (text, want) = row.split_once(" => ").ok_or("whether it holds")?;
        assert_eq!(rt; answer(holds(alloc, text)?), want, "at {row}");
    }
    Ok(())
}

#[test]
fn registers_hold_their_values(rt: HostRuntime) -> Result<(), Fail> {
    compare_all(&rt, rt.alloc(), HELD)
}

#[test]
fn values_are_compared_and_added(rt: HostRuntime) -> Result<(), Fail> {
    compare_all(&rt, rt.alloc(), COMPARED)
}

#[test]
fn branches_have_their_conditions(rt: HostRuntime) -> Result<(), Fail> {
    compare_all(&rt, rt.alloc(), CONDITIONS)
}

#[test]
fn one_register_has_one_value(rt: HostRuntime) -> Result<(), Fail> {
    compare_all(&rt, rt.alloc(), LINKED)
}

#[test]
fn targets_are_those_of_the_operation(rt: HostRuntime) -> Result<(), Fail> {
    compare_all(&rt, rt.alloc(), TARGETS)
}

#[test]
fn written_values_are_legal(rt: HostRuntime) -> Result<(), Fail> {
    compare_all(&rt, rt.alloc(), WRITES)
}

#[test]
fn one_row_holds_the_whole_access(rt: HostRuntime) -> Result<(), Fail> {
    compare_all(&rt, rt.alloc(), ROWS)
}

/// Values, and whether they fit `addi` or `lw` with two registers of three values.
const TWO_CASES: &str = "\
addi rs1=30 a=7 imm=0xfffff800 => yes
lw rs1=31 a=9 ea=4 => yes
addi rs1=29 a=7 => no
addi rs1=30 a=6 => no
addi rs1=30 a=7 vector=4 => no
sw rs1=30 a=7 => no";

#[test]
fn an_assignment_fits_one_of_the_cases(rt: HostRuntime) -> Result<(), Fail> {
    let alloc = rt.alloc();
    let p = full_problem(alloc, "addi rs1=30..31 a=7..9 | lw rs1=30..31 a=7..9")?;
    for row in TWO_CASES.split('\n') {
        let (values, want) = row.split_once(" => ").ok_or("whether it fits")?;
        assert_eq!(rt; answer(fits(&p, &assignment_of(values)?)), want, "at {row}");
    }
    Ok(())
}
