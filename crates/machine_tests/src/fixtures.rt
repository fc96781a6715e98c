// What the tests start from, and how they compare what a step says and leaves.
ghost use Rattle.std.specs.Prelude.{◌<◌};

use rv_csr::Wrote;
use rv_hart::{Csrs, Hart, Priv, look, step};
use rv_mem::PartMem;
use std::alloc::Global;
use std::process::Abort;
use std::test::Fail;
use step_rows::{Done, TO_MACHINE, TO_SUPERVISOR, Told, saved_by, told_by, trapped};
use test_rows::memory_of;

/// The word after the first one.
pub const NEXT: u32 = 0x8000_0004;

pub const DATA: u32 = 0x8000_0040;

/// The end of small RAM.
pub const BEYOND: u32 = 0x8000_0100;

/// The end of RAM with page tables and pages.
pub const PAGES: u32 = 0x8000_4000;

/// The number of the hart.
pub const NUMBER: u32 = 3;

/// The addresses of CSRs.
pub const SSTATUS: u16 = 0x100;

pub const STVEC: u16 = 0x105;

pub const MEDELEG: u16 = 0x302;

pub const MTVEC: u16 = 0x305;

pub const MHARTID: u16 = 0xF14;

/// Makes a register known.
pub fn give(hart: &mut Hart, n: u8, value: u32)
    requires { (0 < n) × (n < 32) }
{
    hart.regs[n as usize] = Some(value);
}

/// Makes registers known.
pub fn give_all(rt: &impl Abort, hart: &mut Hart, regs: &[(u8, u32)]) {
    for (n, value) in regs {
        assert!(rt; 0 < *n && *n < 32);
        give(hart, *n, *value);
    }
}

/// Gives CSRs values.
pub fn write_all(rt: &impl Abort, csrs: &mut Csrs, values: &[(u16, u32)]) {
    for (addr, value) in values {
        let wrote = csrs.write(*addr, Priv::M, *value);
        assert_eq!(rt; wrote, Wrote::Done, "{addr:#x}");
    }
}

/// A hart of which these CSRs and registers are known; mstatus, medeleg and satp are else 0.
pub fn hart_with(
    rt: &impl Abort,
    pc: u32,
    privilege: Priv,
    csrs: &[(u16, u32)],
    regs: &[(u8, u32)],
) -> Hart {
    let mut values = Csrs::new(NUMBER, 0, 0, 0);
    write_all(rt, &mut values, csrs);
    assert_eq!(rt; pc % 4, 0);
    let mut hart = Hart::new(pc, privilege, values);
    give_all(rt, &mut hart, regs);
    hart
}

/// The same hart once more.
pub fn copy_of(hart: &Hart) -> Hart {
    Hart {
        pc: hart.pc,
        privilege: hart.privilege,
        regs: hart.regs,
        csrs: hart.csrs,
    }
}

fn looked(hart: &Hart, memory: &PartMem) -> Told {
    told_by(&look(hart, memory))
}

fn stepped(hart: &mut Hart, memory: &mut PartMem) -> Told {
    told_by(&step(hart, memory))
}

pub fn assert_told(rt: &impl Abort, told: Told, want: Told, row: &str) {
    assert_eq!(rt; told, want, "{row}");
}

fn have_same_registers(hart: &Hart, want: &Hart) -> bool {
    hart.regs == want.regs
}

fn have_same_csrs(hart: &Hart, want: &Hart) -> bool {
    hart.csrs == want.csrs
}

/// The hart is this one.
pub fn assert_same(rt: &impl Abort, hart: &Hart, want: &Hart, row: &str) {
    assert_eq!(rt; hart.pc, want.pc, "pc after {row}");
    assert_eq!(rt; hart.privilege, want.privilege, "privilege after {row}");
    assert!(rt; have_same_registers(hart, want), "registers after {row}");
    assert!(rt; have_same_csrs(hart, want), "CSRs after {row}");
}

/// Looks and steps, and compares what both say and what the step leaves.
pub fn assert_step(
    rt: &impl Abort,
    hart: &mut Hart,
    memory: &mut PartMem,
    row: &str,
    told: Told,
    want: &Hart,
) {
    assert_told(rt, looked(hart, memory), told, row);
    assert_told(rt, stepped(hart, memory), told, row);
    assert_same(rt, hart, want, row);
}

/// The hart after a step with this record that ends in this privilege and changes these CSRs.
pub fn left_by(
    rt: &impl Abort,
    hart: &Hart,
    done: &Done,
    to: Priv,
    changes: &[(u16, u32)],
) -> Hart {
    let mut left = copy_of(hart);
    assert_eq!(rt; done.next_pc % 4, 0);
    left.pc = done.next_pc;
    left.privilege = to;
    write_all(rt, &mut left.csrs, changes);
    if let Some((n, value)) = done.rd {
        give_all(rt, &mut left, &[(n, value)]);
    }
    left
}

/// The step has this record, ends in this privilege and changes these CSRs, and nothing else.
pub fn assert_did(
    rt: &impl Abort,
    hart: &mut Hart,
    memory: &mut PartMem,
    row: &str,
    done: Done,
    to: Priv,
    changes: &[(u16, u32)],
) {
    let want = left_by(rt, hart, &done, to, changes);
    assert_step(rt, hart, memory, row, Told::Did(done), &want);
}

/// The step is none, for this reason, and changes nothing.
pub fn assert_none(rt: &impl Abort, hart: &mut Hart, memory: &mut PartMem, row: &str, told: Told) {
    let want = copy_of(hart);
    assert_step(rt, hart, memory, row, told, &want);
}

/// The step traps, and mstatus is this afterwards.
pub fn assert_traps(
    rt: &impl Abort,
    alloc: Global,
    hart: &mut Hart,
    row: &str,
    word: u32,
    cause: u8,
    value: u32,
    to: Priv,
    mstatus: u32,
) -> Result<(), Fail> {
    let mut memory = memory_of(alloc, BEYOND, &[(hart.pc, word)])?;
    let done = trapped(hart, word, cause, value, to);
    let changes = saved_by(hart.pc, cause, value, to, mstatus);
    assert_did(rt, hart, &mut memory, row, done, to, &changes);
    Ok(())
}

/// MPP, as the privilege before a trap or the one that MPRV takes.
pub fn mpp(privilege: Priv) -> u32 {
    match privilege {
        Priv::U => 0,
        Priv::S => 0x0800,
        Priv::M => 0x1800,
    }
}
