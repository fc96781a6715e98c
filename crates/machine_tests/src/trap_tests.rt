// Traps, returns from traps and the address fence, as the Privileged manual has them. The tables of single steps are as
// `cases` reads them.
ghost use Rattle.std.specs.Prelude.{◌<◌};

use crate::cases::assert_cases;
use crate::fixtures::{BEYOND, MEDELEG, MTVEC, STVEC, assert_traps, hart_with};
use rv_hart::Priv;
use std::alloc::Global;
use std::process::Abort;
use std::test::Fail;
use step_rows::{MSTATUS, RAM, TO_MACHINE, TO_SUPERVISOR};
use test_rows::Row;

const CHANGES: &str = "\
M 30200073 mepc=400000 | retires 00400000 U | mstatus=80 # mret
U 00000073 pc=80000010 medeleg=100 stvec=80000400 | traps 8 0 S 0 # ecall, which is delegated
S 10200073 mstatus=400000 mtvec=80000200 | traps 2 10200073 M 400800 # sret, while TSR is 1
M 00100073 pc=80000020 mtvec=80000200 | traps 3 80000020 M 1800 # ebreak
U f14020f3 medeleg=b3fb mtvec=80000200 | traps 2 f14020f3 M 0 # csrrs x1, mhartid, x0
U f14020f3 medeleg=4 stvec=80000400 | traps 2 f14020f3 S 0";

#[test]
fn traps_and_returns_change_the_status(rt: HostRuntime) -> Result<(), Fail> {
    assert_cases(&rt, rt.alloc(), BEYOND, CHANGES)
}

const IN_MACHINE_MODE: &str = "\
M 002280e7 x5=80000100 mtvec=80000200 | traps 0 80000102 M 1800 # jalr x1, 2(x5)
M 00000000 mtvec=80000200 | traps 2 0 M 1800
M - pc=90000000 mtvec=80000200 80000000=13 | traps 1 90000000 M 1800 # a fetch from outside RAM";

#[test]
fn three_steps_trap_in_machine_mode(rt: HostRuntime) -> Result<(), Fail> {
    assert_cases(&rt, rt.alloc(), BEYOND, IN_MACHINE_MODE)
}

/// A way to raise a cause: the cause, the word, x5, the trap value.
const RAISED: &str = "\
0 002280e7 80000040 80000042 # jalr x1, 2(x5)
0 000280e7 80000043 80000042 # jalr x1, 0(x5)
0 002000ef 1 80000002 # jal x1, 2
0 00528163 1 80000002 # beq x5, x5, 2
2 00000000 1 0
2 ffffffff 1 ffffffff
2 f14010f3 1 f14010f3 # csrrw x1, mhartid, x0
3 00100073 1 80000000
4 00029303 80000041 80000041 # lh x6, 0(x5)
4 0002d303 80000043 80000043 # lhu x6, 0(x5)
4 0002a303 80000042 80000042 # lw x6, 0(x5)
4 0012a303 80000040 80000041 # lw x6, 1(x5)
4 0002a303 2 2
4 00029283 80000101 80000101 # lh x5, 0(x5)
5 00028303 80000100 80000100 # lb x6, 0(x5)
5 0002c303 7fffffff 7fffffff # lbu x6, 0(x5)
5 00029303 80000102 80000102
5 0002a283 0 0 # lw x5, 0(x5)
6 00529023 80000041 80000041 # sh x5, 0(x5)
6 0052a023 80000042 80000042 # sw x5, 0(x5)
6 0052a023 80000102 80000102
7 00528023 7fffffff 7fffffff # sb x5, 0(x5)
7 00529023 80000102 80000102
7 0052a023 0 0
7 0052a023 80000100 80000100";

/// mstatus with SIE and MIE set, and after a trap from a privilege to M or to S.
const ENABLED: u32 = 0x0000_000A;

fn status_after(from: Priv, to: Priv) -> u32 {
    match (to, from) {
        (Priv::S, Priv::S) => 0x0000_0128,
        (Priv::S, _) => 0x0000_0028,
        (_, Priv::M) => 0x0000_1882,
        (_, Priv::S) => 0x0000_0882,
        (_, Priv::U) => 0x0000_0082,
    }
}

/// Where a trap goes: the privilege before it, whether its cause alone is delegated or each other
/// one, the privilege that takes it.
const TAKEN: [(Priv, bool, Priv); 6] = [
    (Priv::U, false, Priv::M),
    (Priv::U, true, Priv::S),
    (Priv::S, false, Priv::M),
    (Priv::S, true, Priv::S),
    (Priv::M, false, Priv::M),
    (Priv::M, true, Priv::M),
];

/// medeleg with the bit of a cause alone, or with each legal bit but this one.
fn delegated(cause: u8, is_delegated: bool) -> u32
    requires { cause < 32 }
{
    let bit = 1u32 << cause;
    if is_delegated {
        bit & 0xB3FF
    } else {
        0xB3FF & !bit
    }
}

/// CSRs that say where a trap goes.
fn vectors(medeleg: u32) -> [(u16, u32); 4] {
    [
        (MEDELEG, medeleg),
        (MSTATUS, ENABLED),
        (MTVEC, TO_MACHINE),
        (STVEC, TO_SUPERVISOR),
    ]
}

#[derive(Clone, Copy)]
struct Raised {
    cause: u8,
    word: u32,
    x5: u32,
    value: u32,
}

fn raised_of(line: &str) -> Result<Raised, Fail> {
    let mut row = Row::of(line);
    let raised = Raised {
        cause: row.small()?,
        word: row.number()?,
        x5: row.number()?,
        value: row.number()?,
    };
    row.end()?;
    Ok(raised)
}

fn assert_raised(
    rt: &impl Abort,
    alloc: Global,
    line: &str,
    raised: Raised,
    taken: (Priv, bool, Priv),
) -> Result<(), Fail> {
    let Raised {
        cause,
        word,
        x5,
        value,
    } = raised;
    let (from, is_delegated, to) = taken;
    assert!(rt; cause < 32, "{line}");
    let csrs = vectors(delegated(cause, is_delegated));
    let mut hart = hart_with(rt, RAM, from, &csrs, &[(5, x5)]);
    let after = status_after(from, to);
    assert_traps(rt, alloc, &mut hart, line, word, cause, value, to, after)
}

#[test]
fn each_cause_goes_where_medeleg_says(rt: HostRuntime) -> Result<(), Fail> {
    for line in RAISED.lines() {
        let raised = raised_of(line)?;
        for taken in TAKEN {
            assert_raised(&rt, rt.alloc(), line, raised, taken)?;
        }
    }
    Ok(())
}

/// Fetches from outside RAM.
const FETCHES: &str = "\
U - pc=90000000 medeleg=b3fd mstatus=a mtvec=80000200 stvec=80000400 80000000=13 | traps 1 90000000 M 82
U - pc=90000000 medeleg=2 mstatus=a mtvec=80000200 stvec=80000400 80000000=13 | traps 1 90000000 S 28
S - pc=90000000 medeleg=b3fd mstatus=a mtvec=80000200 stvec=80000400 80000000=13 | traps 1 90000000 M 882
S - pc=90000000 medeleg=2 mstatus=a mtvec=80000200 stvec=80000400 80000000=13 | traps 1 90000000 S 128
M - pc=90000000 medeleg=b3fd mstatus=a mtvec=80000200 stvec=80000400 80000000=13 | traps 1 90000000 M 1882
M - pc=90000000 medeleg=2 mstatus=a mtvec=80000200 stvec=80000400 80000000=13 | traps 1 90000000 M 1882
U - pc=80000100 medeleg=b3fd mstatus=a mtvec=80000200 stvec=80000400 80000000=13 | traps 1 80000100 M 82
U - pc=80000100 medeleg=2 mstatus=a mtvec=80000200 stvec=80000400 80000000=13 | traps 1 80000100 S 28
S - pc=80000100 medeleg=b3fd mstatus=a mtvec=80000200 stvec=80000400 80000000=13 | traps 1 80000100 M 882
S - pc=80000100 medeleg=2 mstatus=a mtvec=80000200 stvec=80000400 80000000=13 | traps 1 80000100 S 128
M - pc=80000100 medeleg=b3fd mstatus=a mtvec=80000200 stvec=80000400 80000000=13 | traps 1 80000100 M 1882
M - pc=80000100 medeleg=2 mstatus=a mtvec=80000200 stvec=80000400 80000000=13 | traps 1 80000100 M 1882
U - pc=7ffffffc medeleg=b3fd mstatus=a mtvec=80000200 stvec=80000400 80000000=13 | traps 1 7ffffffc M 82
U - pc=7ffffffc medeleg=2 mstatus=a mtvec=80000200 stvec=80000400 80000000=13 | traps 1 7ffffffc S 28
S - pc=7ffffffc medeleg=b3fd mstatus=a mtvec=80000200 stvec=80000400 80000000=13 | traps 1 7ffffffc M 882
S - pc=7ffffffc medeleg=2 mstatus=a mtvec=80000200 stvec=80000400 80000000=13 | traps 1 7ffffffc S 128
M - pc=7ffffffc medeleg=b3fd mstatus=a mtvec=80000200 stvec=80000400 80000000=13 | traps 1 7ffffffc M 1882
M - pc=7ffffffc medeleg=2 mstatus=a mtvec=80000200 stvec=80000400 80000000=13 | traps 1 7ffffffc M 1882
U - pc=0 medeleg=b3fd mstatus=a mtvec=80000200 stvec=80000400 80000000=13 | traps 1 0 M 82
U - pc=0 medeleg=2 mstatus=a mtvec=80000200 stvec=80000400 80000000=13 | traps 1 0 S 28
S - pc=0 medeleg=b3fd mstatus=a mtvec=80000200 stvec=80000400 80000000=13 | traps 1 0 M 882
S - pc=0 medeleg=2 mstatus=a mtvec=80000200 stvec=80000400 80000000=13 | traps 1 0 S 128
M - pc=0 medeleg=b3fd mstatus=a mtvec=80000200 stvec=80000400 80000000=13 | traps 1 0 M 1882
M - pc=0 medeleg=2 mstatus=a mtvec=80000200 stvec=80000400 80000000=13 | traps 1 0 M 1882";

#[test]
fn a_fetch_outside_ram_goes_where_medeleg_says(rt: HostRuntime) -> Result<(), Fail> {
    assert_cases(&rt, rt.alloc(), BEYOND, FETCHES)
}

const CALLS: &str = "\
U 00000073 pc=80000010 medeleg=b2ff mstatus=a mtvec=80000200 stvec=80000400 | traps 8 0 M 82
U 00000073 pc=80000010 medeleg=100 mstatus=a mtvec=80000200 stvec=80000400 | traps 8 0 S 28
S 00000073 pc=80000010 medeleg=b1ff mstatus=a mtvec=80000200 stvec=80000400 | traps 9 0 M 882
S 00000073 pc=80000010 medeleg=200 mstatus=a mtvec=80000200 stvec=80000400 | traps 9 0 S 128
M 00000073 pc=80000010 medeleg=b3ff mstatus=a mtvec=80000200 stvec=80000400 | traps 11 0 M 1882";

#[test]
fn ecall_has_the_cause_of_its_privilege(rt: HostRuntime) -> Result<(), Fail> {
    assert_cases(&rt, rt.alloc(), BEYOND, CALLS)
}

/// SFENCE.VMA, SRET and MRET, which need no register.
const WITHHELD: &str = "\
U 12000073 mstatus=0 mtvec=80000200 | traps 2 12000073 M 0
U 12000073 mstatus=100000 mtvec=80000200 | traps 2 12000073 M 100000
S 12000073 mstatus=100000 mtvec=80000200 | traps 2 12000073 M 100800
S 12000073 mstatus=4e19aa mtvec=80000200 | retires 80000004 S # all but TVM
S 12000073 mstatus=0 mtvec=80000200 | retires 80000004 S
M 12000073 mstatus=100000 mtvec=80000200 | retires 80000004 M
M 12000073 mstatus=0 mtvec=80000200 | retires 80000004 M
U 10200073 mstatus=0 mtvec=80000200 | traps 2 10200073 M 0
U 10200073 mstatus=400000 mtvec=80000200 | traps 2 10200073 M 400000
S 10200073 mstatus=400000 mtvec=80000200 | traps 2 10200073 M 400800
U 30200073 mstatus=0 mtvec=80000200 | traps 2 30200073 M 0
U 30200073 mstatus=1800 mtvec=80000200 | traps 2 30200073 M 0
S 30200073 mstatus=0 mtvec=80000200 | traps 2 30200073 M 800
S 30200073 mstatus=1800 mtvec=80000200 | traps 2 30200073 M 800
U 12628073 mstatus=0 mtvec=80000200 | traps 2 12628073 M 0 # sfence.vma x5, x6
S 12628073 mstatus=100000 mtvec=80000200 | traps 2 12628073 M 100800
S 12628073 mstatus=0 mtvec=80000200 | retires 80000004 S # no register is known";

#[test]
fn instructions_are_illegal_in_lower_privileges(rt: HostRuntime) -> Result<(), Fail> {
    assert_cases(&rt, rt.alloc(), BEYOND, WITHHELD)
}

const RETURNS: &str = "\
M 30200073 mstatus=0 mepc=400000 sepc=400404 | retires 00400000 U | mstatus=80
M 30200073 mstatus=880 mepc=400000 sepc=400404 | retires 00400000 S | mstatus=88
M 30200073 mstatus=1808 mepc=400000 sepc=400404 | retires 00400000 M | mstatus=80
M 30200073 mstatus=20000 mepc=400000 sepc=400404 | retires 00400000 U | mstatus=80 # MPRV
M 30200073 mstatus=20800 mepc=400000 sepc=400404 | retires 00400000 S | mstatus=80
M 30200073 mstatus=21800 mepc=400000 sepc=400404 | retires 00400000 M | mstatus=20080
M 30200073 mstatus=5e19aa mepc=400000 sepc=400404 | retires 00400000 M | mstatus=5e01aa
S 10200073 mstatus=0 mepc=400000 sepc=400404 | retires 00400404 U | mstatus=20
S 10200073 mstatus=122 mepc=400000 sepc=400404 | retires 00400404 S | mstatus=22
S 10200073 mstatus=20102 mepc=400000 sepc=400404 | retires 00400404 S | mstatus=20 # MPRV
S 10200073 mstatus=100020 mepc=400000 sepc=400404 | retires 00400404 U | mstatus=100022 # TVM
M 10200073 mstatus=400000 mepc=400000 sepc=400404 | retires 00400404 U | mstatus=400020 # TSR
M 10200073 mstatus=5e19aa mepc=400000 sepc=400404 | retires 00400404 S | mstatus=5c18aa";

#[test]
fn returns_go_to_the_saved_privilege_and_pc(rt: HostRuntime) -> Result<(), Fail> {
    assert_cases(&rt, rt.alloc(), BEYOND, RETURNS)
}

const LACKS: &str = "\
M 0002a303 | needs x5 # lw x6, 0(x5)
M 0002a303 x5=80000042 | needs mtvec
M 0002a303 x5=80000040 | needs 80000040
M 0002a303 x5=80000100 | needs mtvec
U 0002d303 medeleg=10 x5=1 | needs stvec # lhu x6, 0(x5), of which the cause is delegated
U 0002d303 medeleg=10 x5=2 | needs mtvec
M 0072a023 x7=1 | needs x5 # sw x7, 0(x5)
M 0072a023 x5=80000042 | needs x7
M 0072a023 x5=80000042 x7=1 | needs mtvec
M 0072a023 x5=80000040 x7=1 | needs 80000040
M 0072a023 x5=80000100 x7=1 | needs mtvec
S 002280e7 | needs x5 # jalr x1, 2(x5)
S 002280e7 x5=80000040 | needs mtvec
S 002280e7 medeleg=1 x5=80000040 | needs stvec
M 00628163 x5=1 | needs x6 # beq x5, x6, 2
M 00628163 x5=1 x6=1 | needs mtvec
U 00000073 | needs mtvec
M 00100073 stvec=0 | needs mtvec
S 00000000 medeleg=4 mtvec=0 | needs stvec
M 30200073 sepc=0 | needs mepc
S 10200073 mepc=0 | needs sepc
U 10200073 sepc=0 | needs mtvec
M - pc=80000100 stvec=0 80000000=0 | needs mtvec # a fetch from outside RAM";

#[test]
fn a_trap_needs_its_vector_last(rt: HostRuntime) -> Result<(), Fail> {
    assert_cases(&rt, rt.alloc(), BEYOND, LACKS)
}
