// The instructions on control and status registers, as Zicsr of the Unprivileged manual has them. The tables of single
// steps are as `cases` reads them.
use crate::cases::assert_cases;
use crate::fixtures::{
    BEYOND, MHARTID, MTVEC, SSTATUS, assert_did, assert_none, assert_traps, hart_with, mpp,
};
use rv_csr::row_of;
use rv_hart::Priv;
use std::alloc::Global;
use std::process::Abort;
use std::test::Fail;
use step_rows::{MSTATUS, RAM, TO_MACHINE, Told, csr_named, retired};
use test_rows::{Row, memory_of};

/// A CSR: its name, the lowest privilege that has access, its value, an operand, and its value after
/// the operand was written, set and cleared, `-` where that isn't legal.
const LINES: &str = "\
sstatus S c0122 2 2 c0122 c0120
stvec S 80000004 14 14 80000014 80000000
sscratch S ffff0003 15 15 ffff0017 ffff0002
sepc S 40000c 14 14 40001c 400008
scause S c 5 5 d 8
stval S 7fffffff 1f 1f 7fffffff 7fffffe0
satp S 0 5 - - 0
mstatus M 8 a a a 0
medeleg M 103 15 15 117 102
mtvec M 80000200 14 14 80000214 80000200
mscratch M 12345678 15 15 1234567d 12345668
mepc M fffffff4 c c fffffffc fffffff0
mcause M 3 9 9 b 2
mtval M 0 11 11 11 0
mhartid M 3 5 - - -";

#[derive(Drop)]
struct Line<'a> {
    text: &'a str,
    addr: u16,
    lowest: Priv,
    old: u32,
    operand: u32,
    written: Option<u32>,
    set: Option<u32>,
    cleared: Option<u32>,
}

fn line_of<'a>(text: &'a str) -> Result<Line<'a>, Fail> {
    let mut row = Row::of(text);
    let register = csr_named(row.word()?).ok_or("a CSR")?;
    let line = Line {
        text,
        addr: row_of(*register).address(),
        lowest: row.privilege()?,
        old: row.number()?,
        operand: row.number()?,
        written: row.option()?,
        set: row.option()?,
        cleared: row.option()?,
    };
    row.end()?;
    Ok(line)
}

/// The word of a CSR instruction that writes the old value to x1.
fn word_of(addr: u16, field: u32, funct3: u32) -> u32 {
    (u32::from(addr) << 20) | (field << 15) | (funct3 << 12) | 0xF3
}

/// mstatus after a trap to M of an instruction on the line's CSR.
fn status_after(addr: u16, from: Priv) -> u32 {
    let rest = match addr {
        SSTATUS => 0x000C_0122,
        MSTATUS => 0x80,
        _ => 0,
    };
    rest | mpp(from)
}

/// Does the instruction of this funct3 with this field for its operand on the line's CSR; `wanted`
/// is the value after it, if it writes.
fn assert_access(
    rt: &impl Abort,
    alloc: Global,
    line: &Line<'_>,
    from: Priv,
    funct3: u32,
    field: u32,
    writes: bool,
    wanted: Option<u32>,
) -> Result<(), Fail> {
    let vector = (MTVEC, TO_MACHINE);
    let own = if line.addr == MHARTID {
        vector
    } else {
        (line.addr, line.old)
    };
    let mut hart = hart_with(rt, RAM, from, &[vector, own], &[(5, line.operand)]);
    let word = word_of(line.addr, field, funct3);
    if from.level() < line.lowest.level() || (line.addr == MHARTID && writes) {
        let after = status_after(line.addr, from);
        return assert_traps(
            rt,
            alloc,
            &mut hart,
            line.text,
            word,
            2,
            word,
            Priv::M,
            after,
        );
    }
    let mut memory = memory_of(alloc, BEYOND, &[(RAM, word)])?;
    let done = retired(&hart, word, Some((1, line.old)), RAM + 4);
    if !writes {
        assert_did(rt, &mut hart, &mut memory, line.text, done, from, &[]);
    } else if let Some(value) = wanted {
        assert_did(
            rt,
            &mut hart,
            &mut memory,
            line.text,
            done,
            from,
            &[(line.addr, value)],
        );
    } else {
        assert_none(rt, &mut hart, &mut memory, line.text, Told::Outside);
    }
    Ok(())
}

/// The two instructions of a kind: with x5 or the immediate as the operand, and with x0 or the immediate 0, where
/// CSRRW alone writes.
fn assert_kind(
    rt: &impl Abort,
    alloc: Global,
    line: &Line<'_>,
    from: Priv,
    kind: u32,
    wanted: Option<u32>,
) -> Result<(), Fail> {
    let writes = kind == 1;
    assert_access(rt, alloc, line, from, kind, 5, true, wanted)?;
    assert_access(rt, alloc, line, from, kind | 4, line.operand, true, wanted)?;
    assert_access(rt, alloc, line, from, kind, 0, writes, Some(0))?;
    assert_access(rt, alloc, line, from, kind | 4, 0, writes, Some(0))
}

#[test]
fn each_csr_is_accessed_where_the_privilege_suffices(rt: HostRuntime) -> Result<(), Fail> {
    for text in LINES.lines() {
        let line = line_of(text)?;
        for from in [Priv::U, Priv::S, Priv::M] {
            assert_kind(&rt, rt.alloc(), &line, from, 1, line.written)?;
            assert_kind(&rt, rt.alloc(), &line, from, 2, line.set)?;
            assert_kind(&rt, rt.alloc(), &line, from, 3, line.cleared)?;
        }
    }
    Ok(())
}

const EXCHANGES: &str = "\
M 34029073 x5=7 | retires 80000004 M | mscratch=7 # csrrw x0, mscratch, x5, which does not read
M 3401d073 | retires 80000004 M | mscratch=3 # csrrwi x0, mscratch, 3
M 340290f3 mscratch=9 x5=7 | retires 80000004 M | x1=9 mscratch=7 # csrrw x1, mscratch, x5, and x5, mscratch, x5
M 340292f3 mscratch=9 x5=7 | retires 80000004 M | x5=9 mscratch=7
M f14020f3 | retires 80000004 M | x1=3 # csrrs, csrrc, csrrsi and csrrci of mhartid with no operand
M f14030f3 | retires 80000004 M | x1=3
M f14060f3 | retires 80000004 M | x1=3
M f1407073 | retires 80000004 M
S 1002a0f3 mstatus=401888 x5=c0122 | retires 80000004 S | x1=0 mstatus=4c19aa # csrrs x1, sstatus, x5
S 1002b0f3 mstatus=5e19aa x5=ffffffff | retires 80000004 S | x1=c0122 mstatus=521888 # csrrc x1, sstatus, x5
M 100290f3 mstatus=19aa x5=40002 | retires 80000004 M | x1=122 mstatus=4188a # csrrw x1, sstatus, x5
S 100020f3 mstatus=5e19aa | retires 80000004 S | x1=c0122 # csrrs x1, sstatus, x0
S 18029073 x5=80080001 | retires 80000004 S | satp=80080001 # csrrw x0, satp, x5
M 180020f3 mstatus=100000 satp=80080001 | retires 80000004 M | x1=80080001 # csrrs x1, satp, x0, while TVM is set in M, and while all but TVM is in S
S 180020f3 mstatus=4e19aa | retires 80000004 S | x1=0
M 1802b0f3 satp=80080001 x5=1 | retires 80000004 M | x1=80080001 satp=80080000 # csrrc x1, satp, x5
S 1802a0f3 x5=80080001 | retires 80000004 S | x1=0 satp=80080001 # csrrs x1, satp, x5, and csrrsi x1, satp, 5, csrrci x1, satp, 1 and csrrwi x1, satp, 0
M 1802a0f3 x5=80080001 | retires 80000004 M | x1=0 satp=80080001
M 1802e0f3 satp=80080000 | retires 80000004 M | x1=80080000 satp=80080005
M 1800f0f3 satp=80080001 | retires 80000004 M | x1=80080001 satp=80080000
M 180050f3 satp=80080001 | retires 80000004 M | x1=80080001 satp=0
M 3002a073 mstatus=88 x5=21800 | retires 80000004 M | mstatus=21888 # csrrs x0, mstatus, x5, and csrrw x1, mstatus, x5
M 300290f3 mstatus=88 x5=21800 | retires 80000004 M | x1=88 mstatus=21800";

#[test]
fn csr_instructions_read_and_write(rt: HostRuntime) -> Result<(), Fail> {
    assert_cases(&rt, rt.alloc(), BEYOND, EXCHANGES)
}

/// Accesses that are denied although no register is known.
const DENIED: &str = "\
U 340290f3 mstatus=0 mtvec=80000200 | traps 2 340290f3 M 0 # csrrw x1, mscratch, x5
S 340290f3 mstatus=0 mtvec=80000200 | traps 2 340290f3 M 800
S 34129073 mstatus=0 mtvec=80000200 | traps 2 34129073 M 800 # csrrw x0, mepc, x5
U 140290f3 mstatus=0 mtvec=80000200 | traps 2 140290f3 M 0 # csrrw x1, sscratch, x5
U 100020f3 mstatus=0 mtvec=80000200 | traps 2 100020f3 M 0 # csrrs x1, sstatus, x0
U 180020f3 mstatus=0 mtvec=80000200 | traps 2 180020f3 M 0 # csrrs x1, satp, x0
S 180020f3 mstatus=100000 mtvec=80000200 | traps 2 180020f3 M 100800
S 18029073 mstatus=100000 mtvec=80000200 | traps 2 18029073 M 100800 # csrrw x0, satp, x5
S f14020f3 mstatus=0 mtvec=80000200 | traps 2 f14020f3 M 800 # csrrs x1, mhartid, x0
M f14290f3 mstatus=0 mtvec=80000200 | traps 2 f14290f3 M 1800 # csrrw x1, mhartid, x5
M f142a0f3 mstatus=0 mtvec=80000200 | traps 2 f142a0f3 M 1800 # csrrs x1, mhartid, x5
M f142b073 mstatus=0 mtvec=80000200 | traps 2 f142b073 M 1800 # csrrc x0, mhartid, x5
M f1405073 mstatus=0 mtvec=80000200 | traps 2 f1405073 M 1800 # csrrwi x0, mhartid, 0
M f140e0f3 mstatus=0 mtvec=80000200 | traps 2 f140e0f3 M 1800 # csrrsi x1, mhartid, 1";

#[test]
fn a_denied_access_needs_no_register(rt: HostRuntime) -> Result<(), Fail> {
    assert_cases(&rt, rt.alloc(), BEYOND, DENIED)
}

const LACKS: &str = "\
M 340290f3 | needs x5 # csrrw x1, mscratch, x5
M 340290f3 mscratch=1 | needs x5
M 340290f3 x5=7 | needs mscratch
M 34029073 | needs x5 # csrrw x0, mscratch, x5
M 3401d0f3 | needs mscratch # csrrwi x1, mscratch, 3
M 340020f3 | needs mscratch # csrrs x1, mscratch, x0, and x0, mscratch, x5, and x0, mscratch, x0
M 3402a073 x5=7 | needs mscratch
M 34002073 | needs mscratch
M 340070f3 | needs mscratch # csrrci x1, mscratch, 0
S 105290f3 x5=4 | needs stvec # csrrw x1, stvec, x5
M 341290f3 | needs x5 # csrrw x1, mepc, x5: whether the value is legal is asked last
M 341290f3 x5=2 | needs mepc
M 341290f3 mepc=4 x5=2 | outside
M 34129073 x5=2 | outside # csrrw x0, mepc, x5
M 30029073 x5=1000 | outside # csrrw x0, mstatus, x5, where MPP would be 2
M 3002b073 mstatus=1800 x5=800 | outside # csrrc x0, mstatus, x5
M 18029073 x5=1 | outside # csrrw x0, satp, x5
S 18029073 x5=80100000 | outside
S 1002a0f3 x5=8 | outside # csrrs x1, sstatus, x5
M 3422a073 mcause=8 x5=2 | outside # csrrs x0, mcause, x5
S 14229073 x5=b | outside # csrrw x0, scause, x5
M 30229073 x5=800 | outside # csrrw x0, medeleg, x5
M 304290f3 | outside # csrrw x1, mie, x5
S 304290f3 | outside
U 304290f3 mtvec=80000200 | outside
M c00020f3 | outside # csrrs x1, cycle, x0
S 340290f3 | needs mtvec # csrrw x1, mscratch, x5, which is denied
U 340290f3 medeleg=4 | needs stvec
M f142a0f3 stvec=0 | needs mtvec # csrrs x1, mhartid, x5, which is denied";

#[test]
fn a_csr_access_needs_the_operand_and_then_the_csr(rt: HostRuntime) -> Result<(), Fail> {
    assert_cases(&rt, rt.alloc(), BEYOND, LACKS)
}
