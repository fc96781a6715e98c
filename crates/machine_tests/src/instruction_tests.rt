// Instructions that retire, and what a step lacks. The tables are as `cases` reads them.
use crate::cases::assert_cases;
use crate::fixtures::{BEYOND, DATA, NEXT, NUMBER, hart_with};
use rv_hart::{Csrs, Hart, Mem, Priv, Seen, Stepped, Words, look, step, step_law};
use std::process::Abort;
use std::test::Fail;
use step_rows::{RAM, Told, retired, told_by};
use test_rows::memory_of;

const ADDIS: &str = "\
M 00700293 satp=0 x5=1 | retires 80000004 M | x5=7 # addi x5, x0, 7
M fff28293 satp=0 x5=0 | retires 80000004 M | x5=ffffffff # addi x5, x5, -1
M 80028313 satp=0 x5=7ff | retires 80000004 M | x6=ffffffff # addi x6, x5, -2048
M 00128313 satp=0 x5=ffffffff | retires 80000004 M | x6=0 # addi x6, x5, 1
M 00700013 satp=0 x5=1 | retires 80000004 M # addi x0, x0, 7
M 00700293 satp=80080001 x5=1 | retires 80000004 M | x5=7
S 00700293 satp=0 x5=1 | retires 80000004 S | x5=7
U 00700293 satp=0 x5=1 | retires 80000004 U | x5=7";

#[test]
fn addi_retires(rt: HostRuntime) -> Result<(), Fail> {
    assert_cases(&rt, rt.alloc(), BEYOND, ADDIS)
}

#[test]
fn a_new_hart_knows_x0_alone(rt: HostRuntime) {
    let csrs = Csrs::new(3, 0x1800, 0xB3FF, 0x8000_0000);
    let hart = Hart::new(RAM, Priv::S, csrs);
    assert_eq!(rt; hart.register(0), Some(0));
    for n in 1..32u8 {
        assert_eq!(rt; hart.register(n), None, "x{n}");
    }
    assert_eq!(rt; hart.pc, RAM);
    assert_eq!(rt; hart.privilege, Priv::S);
    assert_eq!(rt; hart.csrs, csrs);
}

#[test]
fn the_laws_are_called() {
    step_law();
}

#[test]
fn the_last_instruction_goes_on_at_0(rt: HostRuntime) {
    let memory = LastWord(0x0070_0293);
    let hart = Hart::new(0xFFFF_FFFC, Priv::M, Csrs::new(NUMBER, 0, 0, 0));
    let want = retired(&hart, 0x0070_0293, Some((5, 7)), 0);
    assert_eq!(rt; told_by(&look(&hart, &memory)), Told::Did(want));
}

/// A memory of the last word alone.
#[derive(Drop)]
struct LastWord(u32);

impl Words for LastWord {
    ghost use Rattle.std.specs.Prelude.{nat_eq, if◌then◌else◌};
    ghost use Rattle.rv_mem.specs.declared.words.Seen.TheVariants.{Known, Vacant};

    ghost at = { λ m n. if nat_eq n 0x3FFFFFFF then Known m.0 else Vacant };

    fn word(&self, a: u32) -> Seen {
        if a / 4 == 0x3FFF_FFFF {
            Seen::Known(self.0)
        } else {
            Seen::Vacant
        }
    }
}

const LOADS: &str = "\
M 00028303 x5=80000040 80000040=80817f01 | retires 80000004 M | x6=1 | load/80000040/1/1 # lb x6, 0(x5)
M 00028303 x5=80000041 80000040=80817f01 | retires 80000004 M | x6=7f | load/80000041/1/7f
M 00028303 x5=80000042 80000040=80817f01 | retires 80000004 M | x6=ffffff81 | load/80000042/1/81
M 00028303 x5=80000043 80000040=80817f01 | retires 80000004 M | x6=ffffff80 | load/80000043/1/80
M 0002c303 x5=80000040 80000040=80817f01 | retires 80000004 M | x6=1 | load/80000040/1/1 # lbu x6, 0(x5)
M 0002c303 x5=80000041 80000040=80817f01 | retires 80000004 M | x6=7f | load/80000041/1/7f
M 0002c303 x5=80000042 80000040=80817f01 | retires 80000004 M | x6=81 | load/80000042/1/81
M 0002c303 x5=80000043 80000040=80817f01 | retires 80000004 M | x6=80 | load/80000043/1/80
M 00029303 x5=80000040 80000040=80817f01 | retires 80000004 M | x6=7f01 | load/80000040/2/7f01 # lh x6, 0(x5)
M 00029303 x5=80000042 80000040=80817f01 | retires 80000004 M | x6=ffff8081 | load/80000042/2/8081
M 0002d303 x5=80000040 80000040=80817f01 | retires 80000004 M | x6=7f01 | load/80000040/2/7f01 # lhu x6, 0(x5)
M 0002d303 x5=80000042 80000040=80817f01 | retires 80000004 M | x6=8081 | load/80000042/2/8081
M 0002a303 x5=80000040 80000040=80817f01 | retires 80000004 M | x6=80817f01 | load/80000040/4/80817f01 # lw x6, 0(x5)";

#[test]
fn loads_extend_the_bytes_that_they_read(rt: HostRuntime) -> Result<(), Fail> {
    assert_cases(&rt, rt.alloc(), BEYOND, LOADS)
}

const WRAPPING: &str = "\
M ffc2a303 x5=80000044 80000040=7fffffff | retires 80000004 M | x6=7fffffff | load/80000040/4/7fffffff # lw x6, -4(x5)
M 7ff2a303 x5=7ffff841 80000040=7fffffff | retires 80000004 M | x6=7fffffff | load/80000040/4/7fffffff # lw x6, 2047(x5)
M 0002a003 x5=80000040 80000040=9 | retires 80000004 M | | load/80000040/4/9 # lw x0, 0(x5), which reads";

#[test]
fn an_address_wraps_around(rt: HostRuntime) -> Result<(), Fail> {
    assert_cases(&rt, rt.alloc(), BEYOND, WRAPPING)
}

const STORES: &str = "\
M 00728023 x5=80000040 x7=aabbccdd 80000040=11223344 | retires 80000004 M | 80000040=112233dd 80000000=728023 | store/80000040/1/dd # sb x7, 0(x5)
M 00728023 x5=80000041 x7=aabbccdd 80000040=11223344 | retires 80000004 M | 80000040=1122dd44 80000000=728023 | store/80000041/1/dd
M 00728023 x5=80000042 x7=aabbccdd 80000040=11223344 | retires 80000004 M | 80000040=11dd3344 80000000=728023 | store/80000042/1/dd
M 00728023 x5=80000043 x7=aabbccdd 80000040=11223344 | retires 80000004 M | 80000040=dd223344 80000000=728023 | store/80000043/1/dd
M 00729023 x5=80000040 x7=aabbccdd 80000040=11223344 | retires 80000004 M | 80000040=1122ccdd 80000000=729023 | store/80000040/2/ccdd # sh x7, 0(x5)
M 00729023 x5=80000042 x7=aabbccdd 80000040=11223344 | retires 80000004 M | 80000040=ccdd3344 80000000=729023 | store/80000042/2/ccdd
M 0072a023 x5=80000040 x7=aabbccdd 80000040=11223344 | retires 80000004 M | 80000040=aabbccdd 80000000=72a023 | store/80000040/4/aabbccdd # sw x7, 0(x5)";

#[test]
fn stores_change_their_bytes_alone(rt: HostRuntime) -> Result<(), Fail> {
    assert_cases(&rt, rt.alloc(), BEYOND, STORES)
}

const BRANCHES: &str = "\
M 00628463 x5=80000000 x6=80000000 | retires 80000008 M # beq x5, x6, 8
M 00628463 x5=7fffffff x6=80000000 | retires 80000004 M
M 00629463 x5=0 x6=ffffffff | retires 80000008 M # bne x5, x6, 8
M 00629463 x5=1 x6=1 | retires 80000004 M
M 0062c463 x5=80000000 x6=7fffffff | retires 80000008 M # blt x5, x6, 8
M 0062c463 x5=1 x6=ffffffff | retires 80000004 M
M 0062d463 x5=ffffffff x6=ffffffff | retires 80000008 M # bge x5, x6, 8
M 0062d463 x5=ffffffff x6=0 | retires 80000004 M
M 0062e463 x5=7fffffff x6=80000000 | retires 80000008 M # bltu x5, x6, 8
M 0062e463 x5=ffffffff x6=1 | retires 80000004 M
M 0062f463 x5=80000000 x6=7fffffff | retires 80000008 M # bgeu x5, x6, 8
M 0062f463 x5=0 x6=1 | retires 80000004 M";

#[test]
fn branches_go_on_where_they_should(rt: HostRuntime) -> Result<(), Fail> {
    assert_cases(&rt, rt.alloc(), BEYOND, BRANCHES)
}

const OTHERS: &str = "\
M fffff337 x5=1 x6=1 | retires 80000004 M | x6=fffff000 # lui x6, 0xfffff
M 00000337 x5=1 x6=1 | retires 80000004 M | x6=0 # lui x6, 0
M 12345037 x5=1 x6=1 | retires 80000004 M # lui x0, 0x12345
M 80000317 x5=1 x6=1 | retires 80000004 M | x6=0 # auipc x6, 0x80000
M 00001317 x5=1 x6=1 | retires 80000004 M | x6=80001000 # auipc x6, 1
M 008000ef x5=1 x6=1 | retires 80000008 M | x1=80000004 # jal x1, 8
M ffdff06f x5=1 x6=1 | retires 7ffffffc M # jal x0, -4
M 000280e7 x5=80000041 x6=1 | retires 80000040 M | x1=80000004 # jalr x1, 0(x5)
M 003282e7 x5=80000041 x6=1 | retires 80000044 M | x5=80000004 # jalr x5, 3(x5)
M fe628ee3 x5=7 x6=7 | retires 7ffffffc M # beq x5, x6, -4
M 00628163 x5=7 x6=8 | retires 80000004 M # beq x5, x6, 2
M 0310000f x5=1 x6=1 | retires 80000004 M # fence rw, w
M 0ff0000f x5=1 x6=1 | retires 80000004 M # fence
M 00628033 x5=1 x6=1 | retires 80000004 M # add x0, x5, x6
M 0262c4b3 x5=80000000 x6=ffffffff | retires 80000004 M | x9=80000000 # div x9, x5, x6
M 0262c4b3 x5=7 x6=0 | retires 80000004 M | x9=ffffffff
M 406284b3 x5=80000000 x6=1 | retires 80000004 M | x9=7fffffff # sub x9, x5, x6
M 006294b3 x5=1 x6=21 | retires 80000004 M | x9=2 # sll x9, x5, x6
M 41f2d493 x5=80000000 x6=1 | retires 80000004 M | x9=ffffffff # srai x9, x5, 31";

#[test]
fn other_instructions_do_as_the_manual_says(rt: HostRuntime) -> Result<(), Fail> {
    assert_cases(&rt, rt.alloc(), BEYOND, OTHERS)
}

const MISSING: &str = "\
U fff28293 | needs x5 # addi x5, x5, -1
U 00028013 | needs x5 # addi x0, x5, 0
U 0002a303 | needs x5 # lw x6, 0(x5)
U 000280e7 | needs x5 # jalr x1, 0(x5)
U 0072a023 | needs x5 # sw x7, 0(x5)
U 0072a023 x5=80000040 | needs x7
U 00628463 | needs x5 # beq x5, x6, 8
U 00628463 x5=80000040 | needs x6
U 0262c4b3 | needs x5 # div x9, x5, x6
U 0262c4b3 x5=80000040 | needs x6
S 0002a303 x5=80000040 x7=1 | needs 80000040 # lw x6, 0(x5)
S 0002c303 x5=80000043 x7=1 | needs 80000040 # lbu x6, 0(x5)
S 00728023 x5=80000042 x7=1 | needs 80000040 # sb x7, 0(x5)";

#[test]
fn places_are_missing_in_their_order(rt: HostRuntime) -> Result<(), Fail> {
    assert_cases(&rt, rt.alloc(), BEYOND, MISSING)
}

/// The instruction word is missing before all.
const NO_WORD: &str = "\
M - | needs 80000000";

#[test]
fn the_instruction_word_is_missing_before_all(rt: HostRuntime) -> Result<(), Fail> {
    assert_cases(&rt, rt.alloc(), BEYOND, NO_WORD)
}

/// Words that no instruction has.
const OUTSIDE: &str = "\
U 00000001 | outside # compressed
S 00000001 | outside # compressed
M 00000001 | outside # compressed
U 0000007f | outside
S 0000007f | outside
M 0000007f | outside
U 10500073 | outside # wfi
S 10500073 | outside # wfi
M 10500073 | outside # wfi
U 0000100f | outside # fence.i
S 0000100f | outside # fence.i
M 0000100f | outside # fence.i
U 1002a0af | outside # lr.w x1, (x5)
S 1002a0af | outside # lr.w x1, (x5)
M 1002a0af | outside # lr.w x1, (x5)
U 00200073 | outside # uret
S 00200073 | outside # uret
M 00200073 | outside # uret
U 120000f3 | outside # sfence.vma with rd x1
S 120000f3 | outside # sfence.vma with rd x1
M 120000f3 | outside # sfence.vma with rd x1
U fffffffe | outside
S fffffffe | outside
M fffffffe | outside";

#[test]
fn other_words_are_outside(rt: HostRuntime) -> Result<(), Fail> {
    assert_cases(&rt, rt.alloc(), BEYOND, OUTSIDE)
}

/// Steps twice by the bound alone.
fn step_twice<M: Mem>(rt: &impl Abort, hart: &mut Hart, m: &mut M) {
    for _ in 0..2 {
        let is_done = matches!(step(hart, m), Stepped::Did(_));
        assert!(rt; is_done);
    }
}

#[test]
fn a_later_instruction_sees_the_store(rt: HostRuntime) -> Result<(), Fail> {
    // sw x7, 0(x5), which makes the next word sw x0, 0(x6)
    let words = [(RAM, 0x0072_A023), (NEXT, 0), (DATA, 1)];
    let mut memory = memory_of(rt.alloc(), BEYOND, &words)?;
    let regs = [(5, NEXT), (6, DATA), (7, 0x0003_2023)];
    let mut hart = hart_with(&rt, RAM, Priv::M, &[], &regs);
    step_twice(&rt, &mut hart, &mut memory);
    assert_eq!(rt; memory.word(DATA), Seen::Known(0));
    assert_eq!(rt; hart.pc, RAM + 8);
    Ok(())
}
