// Spaces of worked examples.
ghost use Rattle.std.specs.Prelude.{IfOk};
ghost use Rattle.fd_prob.specs.Fitting.{IsProblem};

use fd_prob::{Problem, space};
use problem_rows::problem_of;
use std::alloc::Global;
use std::fmt::Write;
use std::process::Abort;
use std::test::Fail;

/// The operations of each format, the domains of their fields, and the space of one of them alone where nothing
/// is translated.
const FORMATS: &str = "\
lui auipc; rd=each imm=all/4096; 1
jal; rd=each imm=jump/2; 1
jalr; rd=each rs1=each imm=signed; 131072
beq bne blt bge bltu bgeu; rs1=each rs2=each imm=far/2; 4194304
lb lh lw lbu lhu; rd=each rs1=each imm=signed ea=all; 1179648
sb sh sw; rs1=each rs2=each imm=signed ea=all; 5242880
addi slti sltiu xori ori andi; rd=each rs1=each imm=signed; 131072
slli srli srai; rd=each rs1=each imm=each; 1024
add sub sll slt sltu xor srl sra or and; rd=each rs1=each rs2=each; 1024
fence; imm=0..255; 256
ecall ebreak; ; 1
mul mulh mulhsu mulhu div divu rem remu; rd=each rs1=each rs2=each; 1024
csrrw; rd=each rs1=each csr=csrs; 480
csrrs; rd=each rs1=each csr=csrs; 480
csrrc; rd=each rs1=each csr=csrs; 480
csrrwi; rd=each imm=each csr=csrs; 480
csrrsi; rd=each imm=each csr=csrs; 480
csrrci; rd=each imm=each csr=csrs; 480
mret sret; ; 1
sfence_vma; rs1=each rs2=each; 1024
illegal; imm=0,0xffffffff; 2";

/// Operations with cuts of their domains, how many pairs of page table entries there are, and the space.
const SPACES: &str = "\
lw; 1; 1179648
lw; 7; 7471104
lw ea=near; 7; 131093
lw ea=near imm=none; 7; 21
lw op=0..11,13..57; 7; 0
lw op=0..11,13..57 | addi op=0..11,13..57; 7; 131072
lw ea=near | sw ea=near; 7; 4325397
sb rs1=30..31 | sw rs1=30..31; 1; 1572864
addi rd=none; 5; 131072
addi imm=none; 5; 0
addi a=7..9; 5; 131072
lui imm=none; 5; 1
csrrw a=7..9; 5; 1440
csrrw a=none; 5; 0
lw ea=near; 18446744073709551615; 18446744073709551615
lw ea=near | lw ea=near; 1; 131075";

/// The same, where the first case of the first access has few pages.
const FIRST_ACCESSES: &str = "\
lw rd=0 ea=near | lw; 1; 131075
sw | lw rd=0 ea=near; 1; 4325379
lw rd=0 ea=near | lb; 1; 1310720";

/// The same of a load without an immediate, whose space is that of its pages.
const PAGES: &str = "\
lw imm=none ea=none; 1; 0
lw imm=none ea=0; 1; 1
lw imm=none ea=0..4095; 1; 1
lw imm=none ea=0..4096; 1; 2
lw imm=none ea=4095..4096,4097..8191; 1; 2
lw imm=none ea=0..0x9000/4096; 1; 10
lw imm=none ea=1..3,0xfffff000..0xffffffff/2; 1; 2
lw imm=none ea=5..0x3fff,0x80000000..0x80000fff; 1; 5";

fn has_word(words: &str, wanted: &str) -> bool {
    for word in words.split(' ') {
        if word == wanted {
            return true;
        }
    }
    false
}

/// The domains of an operation's fields.
fn fields_of(op: &str) -> Result<&'static str, Fail> {
    for row in FORMATS.split('\n') {
        let (ops, rest) = row.split_once("; ").ok_or("operations")?;
        if has_word(ops, op) {
            let (fields, _) = rest.split_once("; ").ok_or("domains")?;
            return Ok(fields);
        }
    }
    Err(Fail::new("an operation without a format"))
}

/// Adds the case of an operation with cuts: its fields have their domains, and the operation and the values of
/// registers are any numbers.
fn push_case(text: &mut String, case: &str) -> Result<(), Fail> {
    let (op, cuts) = case.split_once(' ').unwrap_or((case, ""));
    let fields = fields_of(op)?;
    if !text.is_empty() {
        text.push_str(" | ")?;
    }
    write!(text, "{op} {cuts} {fields} op=all a=all b=all")?;
    Ok(())
}

/// The problem of such cases.
pub fn full_problem(alloc: Global, cases: &str) -> Result<Problem, Fail>
    ensures { IfOk result IsProblem }
{
    let mut text = String::new(alloc);
    for case in cases.split(" | ") {
        push_case(&mut text, case)?;
    }
    problem_of(alloc, &text, 0)
}

fn space_of(alloc: Global, cases: &str, pairs: u64, fetch: bool) -> Result<u64, Fail> {
    let mut p = full_problem(alloc, cases)?;
    p.pairs = pairs;
    p.fetch = fetch;
    Ok(space(&p))
}

fn compare(rt: &impl Abort, alloc: Global, row: &str) -> Result<(), Fail> {
    let (cases, rest) = row.split_once("; ").ok_or("cases")?;
    let (pairs, want) = rest.split_once("; ").ok_or("pairs")?;
    let got = space_of(alloc, cases, pairs.parse()?, false)?;
    assert_eq!(rt; got, want.parse()?, "at {row}");
    Ok(())
}

fn compare_all(rt: &impl Abort, alloc: Global, rows: &str) -> Result<(), Fail> {
    for row in rows.split('\n') {
        compare(rt, alloc, row)?;
    }
    Ok(())
}

#[test]
fn spaces_count_what_cuts_leave(rt: HostRuntime) -> Result<(), Fail> {
    let alloc = rt.alloc();
    let mut nothing = problem_of(alloc, "-", 0)?;
    nothing.pairs = 9;
    assert_eq!(rt; space(&nothing), 0);
    compare_all(&rt, alloc, SPACES)
}

#[test]
fn the_first_case_of_the_first_access_has_the_pages(rt: HostRuntime) -> Result<(), Fail> {
    compare_all(&rt, rt.alloc(), FIRST_ACCESSES)
}

#[test]
fn pages_are_counted_once(rt: HostRuntime) -> Result<(), Fail> {
    compare_all(&rt, rt.alloc(), PAGES)
}

/// Each of the operations has the space.
fn compare_format(rt: &impl Abort, alloc: Global, ops: &str, want: u64) -> Result<(), Fail> {
    for op in ops.split(' ') {
        assert_eq!(rt; space_of(alloc, op, 1, false)?, want, "of {op}");
    }
    Ok(())
}

#[test]
fn each_format_has_its_space(rt: HostRuntime) -> Result<(), Fail> {
    for row in FORMATS.split('\n') {
        let (ops, rest) = row.split_once("; ").ok_or("operations")?;
        let (_, space) = rest.split_once("; ").ok_or("domains")?;
        compare_format(&rt, rt.alloc(), ops, space.parse()?)?;
    }
    Ok(())
}

const OPERATIONS: &str =
    "lui auipc jal jalr beq bne blt bge bltu bgeu lb lh lw lbu lhu sb sh sw addi slti sltiu xori ori andi slli srli \
    srai add sub sll slt sltu xor srl sra or and fence ecall ebreak mul mulh mulhsu mulhu div divu rem remu csrrw csrrs \
    csrrc csrrwi csrrsi csrrci mret sret sfence_vma illegal";

/// All operations, each with the cuts.
fn every_case(alloc: Global, cuts: &str) -> Result<String, Fail> {
    let mut text = String::new(alloc);
    for op in OPERATIONS.split(' ') {
        if !text.is_empty() {
            text.push_str(" | ")?;
        }
        write!(text, "{op} {cuts}")?;
    }
    Ok(text)
}

/// The space of all operations with the cuts.
fn compare_every(rt: &impl Abort, alloc: Global, cuts: &str, want: u64) -> Result<(), Fail> {
    let cases = every_case(alloc, cuts)?;
    assert_eq!(rt; space_of(alloc, &cases, 1, false)?, want, "with {cuts}");
    Ok(())
}

#[test]
fn a_bare_leaf_has_the_space_of_all_operations(rt: HostRuntime) -> Result<(), Fail> {
    let alloc = rt.alloc();
    compare_every(&rt, alloc, "", 40_395_849)?;
    compare_every(&rt, alloc, "a=0..4095", 46_292_649)?;
    compare_every(&rt, alloc, "a=0..4096", 40_395_849)
}

#[test]
fn a_fetch_has_its_pairs(rt: HostRuntime) -> Result<(), Fail> {
    for pairs in [0, 1, 144, u64::MAX] {
        assert_eq!(rt; space_of(rt.alloc(), "lw", pairs, true)?, pairs);
    }
    Ok(())
}
