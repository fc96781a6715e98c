//! Words and lines of assembly, as LLVM's assembler has them, and arithmetic as the Unprivileged manual has it.
use rv_isa::{Instr, OPS, Op, alu, decode, encode, name_of, taken};
use std::process::Abort;
use std::test::Fail;
use test_rows::Row;

/// A word and its instruction: the operation, rd, rs1, rs2, the immediate, the address of the CSR.
/// One line for each operation, in the order of the table.
const LINES: &str = "\
123453b7 lui 7 0 0 12345000 0 # lui x7, 0x12345
ffffff97 auipc 31 0 0 fffff000 0 # auipc x31, 0xfffff
001000ef jal 1 0 0 800 0 # jal x1, 2048
ffc280e7 jalr 1 5 0 fffffffc 0 # jalr x1, x5, -4
fe208ce3 beq 0 1 2 fffffff8 0 # beq x1, x2, -8
7e419fe3 bne 0 3 4 ffe 0 # bne x3, x4, 4094
8062c063 blt 0 5 6 fffff000 0 # blt x5, x6, -4096
0083d0e3 bge 0 7 8 800 0 # bge x7, x8, 2048
00a4e863 bltu 0 9 10 10 0 # bltu x9, x10, 16
fec5ffe3 bgeu 0 11 12 fffffffe 0 # bgeu x11, x12, -2
fff10083 lb 1 2 0 ffffffff 0 # lb x1, -1(x2)
00221183 lh 3 4 0 2 0 # lh x3, 2(x4)
0002a303 lw 6 5 0 0 0 # lw x6, 0(x5)
7ff44383 lbu 7 8 0 7ff 0 # lbu x7, 2047(x8)
80055483 lhu 9 10 0 fffff800 0 # lhu x9, -2048(x10)
00110fa3 sb 0 2 1 1f 0 # sb x1, 31(x2)
02321023 sh 0 4 3 20 0 # sh x3, 32(x4)
fe512e23 sw 0 2 5 fffffffc 0 # sw x5, -4(x2)
fff28293 addi 5 5 0 ffffffff 0 # addi x5, x5, -1
00312093 slti 1 2 0 3 0 # slti x1, x2, 3
00123193 sltiu 3 4 0 1 0 # sltiu x3, x4, 1
fff34293 xori 5 6 0 ffffffff 0 # xori x5, x6, -1
0ff46393 ori 7 8 0 ff 0 # ori x7, x8, 255
00f57493 andi 9 10 0 f 0 # andi x9, x10, 15
00311093 slli 1 2 0 3 0 # slli x1, x2, 3
01025193 srli 3 4 0 10 0 # srli x3, x4, 16
41f25193 srai 3 4 0 1f 0 # srai x3, x4, 31
003100b3 add 1 2 3 0 0 # add x1, x2, x3
40628233 sub 4 5 6 0 0 # sub x4, x5, x6
009413b3 sll 7 8 9 0 0 # sll x7, x8, x9
00c5a533 slt 10 11 12 0 0 # slt x10, x11, x12
00f736b3 sltu 13 14 15 0 0 # sltu x13, x14, x15
0128c833 xor 16 17 18 0 0 # xor x16, x17, x18
015a59b3 srl 19 20 21 0 0 # srl x19, x20, x21
418bdb33 sra 22 23 24 0 0 # sra x22, x23, x24
01bd6cb3 or 25 26 27 0 0 # or x25, x26, x27
01eefe33 and 28 29 30 0 0 # and x28, x29, x30
0310000f fence 0 0 0 31 0 # fence rw, w
00000073 ecall 0 0 0 0 0 # ecall
00100073 ebreak 0 0 0 0 0 # ebreak
023100b3 mul 1 2 3 0 0 # mul x1, x2, x3
02629233 mulh 4 5 6 0 0 # mulh x4, x5, x6
029423b3 mulhsu 7 8 9 0 0 # mulhsu x7, x8, x9
02c5b533 mulhu 10 11 12 0 0 # mulhu x10, x11, x12
02f746b3 div 13 14 15 0 0 # div x13, x14, x15
0328d833 divu 16 17 18 0 0 # divu x16, x17, x18
035a69b3 rem 19 20 21 0 0 # rem x19, x20, x21
038bfb33 remu 22 23 24 0 0 # remu x22, x23, x24
34029073 csrrw 0 5 0 0 340 # csrrw x0, mscratch, x5
100120f3 csrrs 1 2 0 0 100 # csrrs x1, sstatus, x2
f14231f3 csrrc 3 4 0 0 f14 # csrrc x3, mhartid, x4
180fd2f3 csrrwi 5 0 0 1f 180 # csrrwi x5, satp, 31
30046373 csrrsi 6 0 0 8 300 # csrrsi x6, mstatus, 8
3410f3f3 csrrci 7 0 0 1 341 # csrrci x7, mepc, 1
30200073 mret 0 0 0 0 0 # mret
10200073 sret 0 0 0 0 0 # sret
12208073 sfence_vma 0 1 2 0 0 # sfence.vma x1, x2
ffffffff illegal 0 0 0 ffffffff 0 # all ones";

/// Further words with their instructions.
const WORDS: &str = "\
023100b3 mul 1 2 3 0 0
0002a303 lw 6 5 0 0 0
fe512e23 sw 0 2 5 fffffffc 0
fe208ce3 beq 0 1 2 fffffff8 0
001000ef jal 1 0 0 800 0
123453b7 lui 7 0 0 12345000 0
41f25193 srai 3 4 0 1f 0
34029073 csrrw 0 5 0 0 340
12000073 sfence_vma 0 0 0 0 0
00700293 addi 5 0 0 7 0
fff28293 addi 5 5 0 ffffffff 0
0ff0000f fence 0 0 0 ff 0
00000000 illegal 0 0 0 0 0
ffffffff illegal 0 0 0 ffffffff 0";

/// Words that the table lacks, each near one that it has.
const OUTSIDE: &str = "\
00000001 # one bit off all zeros
7fffffff # one bit off all ones
40109093 # slli with funct7 0x20
2010d093 # srai with funct7 0x10
403110b3 # sll with funct7 0x20
043100b3 # add with funct7 0x02
8330000f # fence.tso, whose fm is not 0
0ff0800f # fence with rs1 x1
0000100f # fence.i
120000f3 # sfence.vma with rd x1
10500073 # wfi
00200073 # ebreak with 2 in bits 31 to 20";

/// Two numbers; Add, Sub, Sll, Slt, Sltu, Xor, Srl, Sra, Or and And of them.
const COMPUTED: &str = "\
80000000 ffffffff 7fffffff 80000001 0 1 1 7fffffff 1 ffffffff ffffffff 80000000
7 0 7 7 7 0 0 7 7 7 7 0
7fffffff 20 8000001f 7fffffdf 7fffffff 0 0 7fffffdf 7fffffff 7fffffff 7fffffff 20
80000001 1f 80000020 7fffffe2 80000000 1 0 8000001e 1 ffffffff 8000001f 1
ffffffff ffffffff fffffffe 0 80000000 0 0 0 1 ffffffff ffffffff ffffffff
12345678 fffffff9 12345671 1234567f f0000000 0 1 edcba981 9 9 fffffff9 12345678
80000000 21 80000021 7fffffdf 0 1 0 80000021 40000000 c0000000 80000021 0
ffffffff 1 0 fffffffe fffffffe 1 0 fffffffe 7fffffff ffffffff ffffffff 1";

/// Two numbers; Mul, Mulh, Mulhsu, Mulhu, Div, Divu, Rem and Remu of them.
const MULTIPLIED: &str = "\
80000000 ffffffff 80000000 0 80000000 7fffffff 80000000 0 0 80000000
7 0 0 0 0 0 ffffffff ffffffff 7 7
ffffffff ffffffff 1 0 ffffffff fffffffe 1 1 0 0
12345678 fffffff9 8091a2b8 ffffffff 12345677 12345677 fd663ccb 0 5 12345678
80000000 21 80000000 ffffffef ffffffef 10 fc1f07c2 3e0f83e fffffffe 2
ffffffff 1 ffffffff ffffffff ffffffff 0 ffffffff ffffffff 0 0";

/// Two numbers; whether Beq, Bne, Blt, Bge, Bltu and Bgeu on them are taken.
const BRANCHES: &str = "\
80000000 ffffffff 0 1 1 0 1 0
7 0 0 1 0 1 0 1
ffffffff ffffffff 1 0 0 1 0 1
12345678 fffffff9 0 1 0 1 1 0
80000000 21 0 1 1 0 0 1
ffffffff 1 0 1 1 0 0 1";

fn op_named(rt: &impl Abort, name: &str) -> Op {
    let op = OPS.iter().find(|op| name_of(**op) == name.as_bytes());
    *op.expect(rt, name)
}

fn instr_of(rt: &impl Abort, row: &mut Row<'_>) -> Result<Instr, Fail> {
    Ok(Instr {
        op: op_named(rt, row.word()?),
        rd: row.small()?,
        rs1: row.small()?,
        rs2: row.small()?,
        imm: row.number()?,
        csr: row.address()?,
    })
}

fn decoded(word: u32) -> Option<Instr> {
    decode(word)
}

/// The word of the instruction that has this word.
fn encoded_again(word: u32) -> Option<u32> {
    match decode(word) {
        Some(instr) => Some(encode(&instr)),
        None => None,
    }
}

/// Asserts that the line's word is its instruction's, which it gives.
fn assert_line(rt: &impl Abort, line: &str) -> Result<Op, Fail> {
    let mut row = Row::of(line);
    let word = row.number()?;
    let instr = instr_of(rt, &mut row)?;
    row.end()?;
    assert_eq!(rt; decoded(word), Some(instr), "{line}");
    assert_eq!(rt; encoded_again(word), Some(word), "{line}");
    Ok(instr.op)
}

#[test]
fn encodes_and_decodes(rt: HostRuntime) -> Result<(), Fail> {
    for line in WORDS.lines() {
        let _ = assert_line(&rt, line)?;
    }
    Ok(())
}

/// Asserts that the operation stands at this place of the table.
fn assert_place(rt: &impl Abort, k: usize, op: Op) {
    assert!(rt; OPS.get(k) == Some(&op), "{op:?}");
    assert!(rt; op as usize == k, "{op:?}");
}

#[test]
fn decodes_a_line_of_each_operation(rt: HostRuntime) -> Result<(), Fail> {
    for (k, line) in LINES.lines().enumerate() {
        assert_place(&rt, k, assert_line(&rt, line)?);
    }
    assert_eq!(rt; LINES.lines().count(), OPS.len());
    Ok(())
}

#[test]
fn decodes_no_other_word(rt: HostRuntime) -> Result<(), Fail> {
    for line in OUTSIDE.lines() {
        let word = Row::of(line).number()?;
        assert_eq!(rt; decoded(word), None, "{line}");
    }
    Ok(())
}

/// What each operation of `COMPUTED` computes, register by register.
fn computed(x: u32, y: u32) -> [u32; 10] {
    [
        alu(Op::Add, x, y),
        alu(Op::Sub, x, y),
        alu(Op::Sll, x, y),
        alu(Op::Slt, x, y),
        alu(Op::Sltu, x, y),
        alu(Op::Xor, x, y),
        alu(Op::Srl, x, y),
        alu(Op::Sra, x, y),
        alu(Op::Or, x, y),
        alu(Op::And, x, y),
    ]
}

/// The same with an immediate; `Sub` has none.
fn computed_with(x: u32, immediate: u32) -> [u32; 10] {
    [
        alu(Op::Addi, x, immediate),
        alu(Op::Sub, x, immediate),
        alu(Op::Slli, x, immediate),
        alu(Op::Slti, x, immediate),
        alu(Op::Sltiu, x, immediate),
        alu(Op::Xori, x, immediate),
        alu(Op::Srli, x, immediate),
        alu(Op::Srai, x, immediate),
        alu(Op::Ori, x, immediate),
        alu(Op::Andi, x, immediate),
    ]
}

fn multiplied(x: u32, y: u32) -> [u32; 8] {
    [
        alu(Op::Mul, x, y),
        alu(Op::Mulh, x, y),
        alu(Op::Mulhsu, x, y),
        alu(Op::Mulhu, x, y),
        alu(Op::Div, x, y),
        alu(Op::Divu, x, y),
        alu(Op::Rem, x, y),
        alu(Op::Remu, x, y),
    ]
}

fn decided(x: u32, y: u32) -> [u32; 6] {
    [
        u32::from(taken(Op::Beq, x, y)),
        u32::from(taken(Op::Bne, x, y)),
        u32::from(taken(Op::Blt, x, y)),
        u32::from(taken(Op::Bge, x, y)),
        u32::from(taken(Op::Bltu, x, y)),
        u32::from(taken(Op::Bgeu, x, y)),
    ]
}

/// Asserts that the further numbers of the row are these.
fn assert_results(rt: &impl Abort, mut row: Row<'_>, results: &[u32]) -> Result<(), Fail> {
    for result in results {
        assert_eq!(rt; *result, row.number()?, "{}", row.line);
    }
    row.end()?;
    Ok(())
}

#[test]
fn computes_as_the_manual_says(rt: HostRuntime) -> Result<(), Fail> {
    for line in COMPUTED.lines() {
        let mut row = Row::of(line);
        let (x, y) = (row.number()?, row.number()?);
        assert_results(&rt, row, &computed(x, y))?;
    }
    Ok(())
}

#[test]
fn computes_with_immediates_as_the_manual_says(rt: HostRuntime) -> Result<(), Fail> {
    for line in COMPUTED.lines() {
        let mut row = Row::of(line);
        let (x, y) = (row.number()?, row.number()?);
        assert_results(&rt, row, &computed_with(x, y))?;
    }
    Ok(())
}

#[test]
fn multiplies_and_divides_as_the_manual_says(rt: HostRuntime) -> Result<(), Fail> {
    for line in MULTIPLIED.lines() {
        let mut row = Row::of(line);
        let (x, y) = (row.number()?, row.number()?);
        assert_results(&rt, row, &multiplied(x, y))?;
    }
    Ok(())
}

#[test]
fn branches_as_the_manual_says(rt: HostRuntime) -> Result<(), Fail> {
    for line in BRANCHES.lines() {
        let mut row = Row::of(line);
        let (x, y) = (row.number()?, row.number()?);
        assert_results(&rt, row, &decided(x, y))?;
    }
    Ok(())
}
