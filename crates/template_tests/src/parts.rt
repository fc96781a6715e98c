// What sets, atoms and starts say.
use crate::printing::{push_error, push_set, push_start, push_wishes, told};
use std::alloc::{AllocError, Global};
use std::process::Abort;
use std::test::Fail;
use tpl_ast::{Item, Template};
use tpl_parse::parse;

/// A hart without items.
const HART: &str = "hart 0 {
start pc 0 priv m
body {
}
}
";

/// Sets, and their elements or their faults.
const SETS: &str = "\
{5} => { 5 }
{1,2 , 3} => { 1 2 3 }
{3, 1, 3} => { 1 3 }
{5..8} => { 5 6 7 8 }
{ 5 .. 6 ,8..9} => { 5 6 8 9 }
{5..8, 7..9} => { 5 6 7 8 9 }
{5..5} => { 5 }
{0..0xffffffff} => { 0 1 .. ffffffff: 4294967296 }
odd => { 1 3 }
{4294967295} => { ffffffff }
{4294967296} => 2 3
{18446744073709551623} => 2 3
{340282366920938463463374607431768211463} => 2 3
{0xFFFFFFFF, 0xfFfFfFfE} => { fffffffe ffffffff }
{0x100000000} => 2 3
{0x10000000000000007} => 2 3
{0xabcdef, 0xABCDE} => { 000abcde 00abcdef }
{0x0000000000000000000000000000000000007} => { 7 }
{00000000000000000000000000000000000007} => { 7 }
{010} => { 10 }
{0x10} => { 16 }
{-1} => { ffffffff }
{-2147483648} => { 80000000 }
{-2147483649} => 2 3
{-4294967295} => 2 3
{-18446744073709551617} => 2 3
{-0} => { 0 }
{-0000000000000005} => { fffffffb }
{0x} => 2 2
{0X7} => 2 2
{-} => 2 2
{- 5} => 2 2
{-0x5} => 2 2
{--5} => 2 2
{+5} => 2 2
{5a} => 2 2
{0x5g} => 2 2
{x5} => 2 2
{5_0} => 2 2
{1.5} => 2 2
{5-3} => 2 2
{5..4} => 2 7
{-4..3} => { 0 1 2 3 fffffffc fffffffd fffffffe ffffffff }
{-1..-2} => 2 7
{-1..-4} => 2 7
{0xfffffffc..3} => 2 7
{4294967292..3} => 2 7
{-4..-1} => { fffffffc fffffffd fffffffe ffffffff }
{4294967290..-3} => { fffffffa fffffffb fffffffc fffffffd }
{-4..0xfffffffd} => { fffffffc fffffffd }
{-2..0xfffffffe} => { fffffffe }
{-1..0xfffffffe} => { 0 1 .. ffffffff: 4294967296 }
{-1..0} => { 0 ffffffff }
{-0..3} => { 0 1 2 3 }
{3..-3} => { 3 4 .. fffffffd: 4294967291 }
{-2147483648..0} => { 0 80000000 .. ffffffff: 2147483649 }
{5..4, 7} => { 7 }
{-3..-5, -1..1} => { 0 1 ffffffff }
{-1..0x100000000} => 2 3
{0..15} align 4 => { 0 4 8 12 }
{3, 4, 9, 12} align 4 => { 4 12 }
{3, 4, 9} align 1 => { 3 4 9 }
{-8..7} align 4 => { 0 4 fffffff8 fffffffc }
{1..8}align 8 => { 8 }
{0..0xffffffff} align 0x80000000 => { 0 80000000 }
{0..-1} align -2147483648 => { 0 80000000 }
{1..3} align 4 => 2 7
{4} align 0 => 2 3
{4} align 3 => 2 3
{4} align 6 => 2 3
{4} align 4294967295 => 2 3
{4} align 4294967296 => 2 3
{4} align => 2 2
{4} align {4} => 2 2
{4} align odd => 2 2
{4} align = 4 => 2 2
{4} align 4 align 4 => 2 2
{4} aligned 4 => 2 2
{4 align 4} => 2 2
odd align 1 => 2 2
odd align 2 => 2 2
{} => 2 2
{1,} => 2 2
{,1} => 2 2
{1,,2} => 2 2
{1 2} => 2 2
{1;2} => 2 2
{..1} => 2 2
{1..} => 2 2
{1..2..3} => 2 2
{1...2} => 2 2
{1. .2} => 2 2
{1..odd} => 2 2
{odd} => 2 2
{1, odd} => 2 2
{retire} => 2 2
{{1}} => 2 2
{1 => 2 2
1} => 2 2
1 => 2 2
odd, odd => 2 2
odd odd => 2 2
even => 2 4
n1 => 2 4
{4} align 3 odd => 2 2";

/// Atoms, and what they say or their faults.
const ATOMS: &str = "\
op in {add} => ; op in { 27 }
op not in {lui, illegal, sfence_vma} => ; op not in { 0 56 57 }
op in {sub, add, sub} => ; op in { 27 28 }
csr in {sstatus, mhartid} => ; csr in { 256 3860 }
csr not in {mepc} => ; csr not in { 833 }
rs1 in {0, 31} => ; rs1 in { 0 31 }
rs1 not in {0..31} => ; rs1 not in { 0 1 .. 31: 32 }
rs2 in odd => ; rs2 in { 1 3 }
rs2 not in {1} => ; rs2 not in { 1 }
rd in big => ; rd in { 100 }
rd not in {4..7} align 4 => ; rd not in { 4 }
imm in {-2048..2047} => ; imm in { 0 1 .. ffffffff: 4096 }
imm not in odd => ; imm not in { 1 3 }
ea in {0x80000000} => ; ea in { 80000000 }
ea not in {4} => ; ea not in { 4 }
a in {-1} => ; a in { ffffffff }
a not in {0..0xffffffff} => ; a not in { 0 1 .. ffffffff: 4294967296 }
b in {0xffffffff} => ; b in { ffffffff }
b not in odd => ; b not in { 1 3 }
pa in {0..7} align 8 => ; pa in { 0 }
pa not in {9} => ; pa not in { 9 }
target in {8} => ; target in { 8 }
target not in {8} => ; target not in { 8 }
outcome in {retire} => ; outcome in { 255 }
outcome not in {15, 1, 0} => ; outcome not in { 0 1 15 }
outcome in {0, 1, 2, 3, 4, 5, 6, 7, 8, 9, 11} => ; outcome in { 0 1 2 3 4 5 6 7 8 9 11 }
outcome in {12, 13, 15, 0xd} => ; outcome in { 12 13 15 }
rs1 == n1 => ; rs1 == name 0
rs2 == n2 => ; rs2 == name 1
rd == top => ; rd == name 2
imm == n1 => ; imm == name 0
csr == n2 => ; csr == name 1
ea == top => ; ea == name 2
a == n1 => ; a == name 0
b == n2 => ; b == name 1
pa == top => ; pa == name 2
target == n2 => ; target == name 1
rs1 == rs2 => ; rs1 == rs2
rs1 == rd => ; rs1 == rd
rs2 == rs1 => ; rs2 == rs1
rs2 == rd => ; rs2 == rd
rd == rs1 => ; rd == rs1
rd == rs2 => ; rd == rs2
rs1 != rs2 => ; rs1 != rs2
rs1 != rd => ; rs1 != rd
rs2 != rs1 => ; rs2 != rs1
rs2 != rd => ; rs2 != rd
rd != rs1 => ; rd != rs1
rd != rs2 => ; rd != rs2
a == b => ; a == b
a != b => ; a != b
taken => ; taken
not taken => ; not taken
shared => ; shared
prefer taken => ; prefer taken
prefer not taken => ; prefer not taken
prefer shared => ; prefer shared
prefer op in {add} => ; prefer op in { 27 }
prefer rs1 not in {1} => ; prefer rs1 not in { 1 }
prefer outcome not in {2} => ; prefer outcome not in { 2 }
prefer imm == n1 => ; prefer imm == name 0
prefer a == b => ; prefer a == b
prefer rs1 != rd => ; prefer rs1 != rd
rs1==n1 => ; rs1 == name 0
rs1!=rs2 => ; rs1 != rs2
rs1 in{5} => ; rs1 in { 5 }
taken;shared => ; taken; shared
taken ;prefer shared ; not taken => ; taken; prefer shared; not taken
rs1 in {5}; rs1 in {6}; rs1 in {5} => ; rs1 in { 5 }; rs1 in { 6 }; rs1 in { 5 }
rs1 == n1; rs2 == n2; rd == top => ; rs1 == name 0; rs2 == name 1; rd == name 2
op == n1 => 9 2
op == op => 9 2
outcome == n1 => 9 2
outcome == retire => 9 2
op != n1 => 9 2
b != a => 9 2
rs1 != rs1 => 9 2
rs1 != n1 => 9 2
rs1 != a => 9 2
imm != ea => 9 2
target != top => 9 2
not shared => 9 2
not rs1 in {1} => 9 2
not in {1} => 9 2
not => 9 2
not not taken => 9 2
not prefer taken => 9 2
prefer => 9 2
prefer prefer taken => 9 2
prefer; taken => 9 2
taken; => 9 2
; taken => 9 2
; => 9 2
taken;; shared => 9 2
taken; ; shared => 9 2
taken taken => 9 2
taken shared => 9 2
taken, shared => 9 2
taken and shared => 9 2
rs1 => 9 2
rs1 in => 9 2
rs1 not => 9 2
rs1 not {1} => 9 2
rs1 not not in {1} => 9 2
rs1 in not {1} => 9 2
rs1 = n1 => 9 2
rs1 = = n1 => 9 2
rs1 === n1 => 9 2
rs1 =! n1 => 9 2
rs1 ! = rs2 => 9 2
rs1 == => 9 2
rs1 == 5 => 9 2
rs1 == {5} => 9 2
rs1 == n1 n2 => 9 2
rs1 == rs2 == rd => 9 2
rs1 {5} => 9 2
rs1 5 => 9 2
rs1 is {5} => 9 2
rs1 in 5 => 9 2
rs1 in {} => 9 2
rs1 in {5 => 9 2
rs1 in {5} {6} => 9 2
rs1 in {5} align => 9 2
rs1 in odd align 2 => 9 2
rs1 not in odd align 1 => 9 2
rs1, rs2 in {5} => 9 2
5 in {5} => 9 2
n1 == rs1 => 9 2
odd in {1} => 9 2
rs3 in {1} => 9 2
x5 in {1} => 9 2
pc in {0} => 9 2
priv in {3} => 9 2
mepc in {0} => 9 2
add => 9 2
in {1} => 9 2
taken in {1} => 9 2
shared == n1 => 9 2
op in add => 9 2
op in odd => 9 2
op in {5} => 9 2
op in {} => 9 2
op in {add,} => 9 2
op in {add sub} => 9 2
op in {add..sub} => 9 2
op in {add} align 1 => 9 2
op in {Add} => 9 2
csr in {0x341} => 9 2
csr in odd => 9 2
csr in {mepc..mtval} => 9 2
csr in {mepc} align 1 => 9 2
outcome in retire => 9 2
outcome in odd => 9 2
outcome in {} => 9 2
outcome in {retire..2} => 9 2
outcome in {4..7} => 9 2
outcome in {taken} => 9 2
outcome in {n1} => 9 2
outcome in {odd} => 9 2
outcome in {add} => 9 2
outcome in {2} align 2 => 9 2
taken } => 9 2
{ taken } => 9 2
taken { => 9 2";

/// What a hart starts with, and whether it may.
const STARTS: &str = "\
csr stvec = 0 => ok
csr stvec = 4 => ok
csr stvec = 8 => ok
csr stvec = 0x80000000 => ok
csr stvec = 0xfffffffc => ok
csr stvec = 1 => 3 12
csr stvec = 2 => 3 12
csr stvec = 3 => 3 12
csr stvec = 5 => 3 12
csr stvec = 0x80000002 => 3 12
csr stvec = 0xffffffff => 3 12
csr sscratch = 0 => ok
csr sscratch = 1 => ok
csr sscratch = 2 => ok
csr sscratch = 3 => ok
csr sscratch = 4 => ok
csr sscratch = 0x7ffffffd => ok
csr sscratch = 0x80000000 => ok
csr sscratch = 0xfffffffe => ok
csr sscratch = 0xffffffff => ok
csr sepc = 0 => ok
csr sepc = 4 => ok
csr sepc = 8 => ok
csr sepc = 0x80000000 => ok
csr sepc = 0xfffffffc => ok
csr sepc = 1 => 3 12
csr sepc = 2 => 3 12
csr sepc = 3 => 3 12
csr sepc = 5 => 3 12
csr sepc = 0x80000002 => 3 12
csr sepc = 0xffffffff => 3 12
csr scause = 0 => ok
csr scause = 1 => ok
csr scause = 2 => ok
csr scause = 3 => ok
csr scause = 4 => ok
csr scause = 5 => ok
csr scause = 6 => ok
csr scause = 7 => ok
csr scause = 8 => ok
csr scause = 9 => ok
csr scause = 12 => ok
csr scause = 13 => ok
csr scause = 15 => ok
csr scause = 10 => 3 12
csr scause = 11 => 3 12
csr scause = 14 => 3 12
csr scause = 16 => 3 12
csr scause = 24 => 3 12
csr scause = 0x80000000 => 3 12
csr scause = 0x80000001 => 3 12
csr scause = 0xffffffff => 3 12
csr stval = 0 => ok
csr stval = 1 => ok
csr stval = 2 => ok
csr stval = 3 => ok
csr stval = 4 => ok
csr stval = 0x7ffffffd => ok
csr stval = 0x80000000 => ok
csr stval = 0xfffffffe => ok
csr stval = 0xffffffff => ok
csr satp = 0 => ok
csr satp = 0x80000000 => ok
csr satp = 0x80080001 => ok
csr satp = 0x800fffff => ok
csr satp = 1 => 3 12
csr satp = 0x00080001 => 3 12
csr satp = 0x7fffffff => 3 12
csr satp = 0x80100000 => 3 12
csr satp = 0x80200000 => 3 12
csr satp = 0x80400000 => 3 12
csr satp = 0xc0000000 => 3 12
csr satp = 0xffffffff => 3 12
csr mstatus = 0 => ok
csr mstatus = 0x005e19aa => ok
csr mstatus = 2 => ok
csr mstatus = 8 => ok
csr mstatus = 0x20 => ok
csr mstatus = 0x80 => ok
csr mstatus = 0x100 => ok
csr mstatus = 0x800 => ok
csr mstatus = 0x1800 => ok
csr mstatus = 0x20000 => ok
csr mstatus = 0x40000 => ok
csr mstatus = 0x80000 => ok
csr mstatus = 0x100000 => ok
csr mstatus = 0x400000 => ok
csr mstatus = 1 => 3 12
csr mstatus = 4 => 3 12
csr mstatus = 0x10 => 3 12
csr mstatus = 0x40 => 3 12
csr mstatus = 0x200 => 3 12
csr mstatus = 0x400 => 3 12
csr mstatus = 0x1000 => 3 12
csr mstatus = 0x005e11aa => 3 12
csr mstatus = 0x2000 => 3 12
csr mstatus = 0x4000 => 3 12
csr mstatus = 0x8000 => 3 12
csr mstatus = 0x10000 => 3 12
csr mstatus = 0x200000 => 3 12
csr mstatus = 0x800000 => 3 12
csr mstatus = 0x80000000 => 3 12
csr mstatus = 0xffffffff => 3 12
csr medeleg = 0 => ok
csr medeleg = 0xb3ff => ok
csr medeleg = 1 => ok
csr medeleg = 0x100 => ok
csr medeleg = 0x200 => ok
csr medeleg = 0x1000 => ok
csr medeleg = 0x2000 => ok
csr medeleg = 0x8000 => ok
csr medeleg = 0x400 => 3 12
csr medeleg = 0x800 => 3 12
csr medeleg = 0x4000 => 3 12
csr medeleg = 0x10000 => 3 12
csr medeleg = 0x80000000 => 3 12
csr medeleg = 0xffff => 3 12
csr mtvec = 0 => ok
csr mtvec = 4 => ok
csr mtvec = 8 => ok
csr mtvec = 0x80000000 => ok
csr mtvec = 0xfffffffc => ok
csr mtvec = 1 => 3 12
csr mtvec = 2 => 3 12
csr mtvec = 3 => 3 12
csr mtvec = 5 => 3 12
csr mtvec = 0x80000002 => 3 12
csr mtvec = 0xffffffff => 3 12
csr mscratch = 0 => ok
csr mscratch = 1 => ok
csr mscratch = 2 => ok
csr mscratch = 3 => ok
csr mscratch = 4 => ok
csr mscratch = 0x7ffffffd => ok
csr mscratch = 0x80000000 => ok
csr mscratch = 0xfffffffe => ok
csr mscratch = 0xffffffff => ok
csr mepc = 0 => ok
csr mepc = 4 => ok
csr mepc = 8 => ok
csr mepc = 0x80000000 => ok
csr mepc = 0xfffffffc => ok
csr mepc = 1 => 3 12
csr mepc = 2 => 3 12
csr mepc = 3 => 3 12
csr mepc = 5 => 3 12
csr mepc = 0x80000002 => 3 12
csr mepc = 0xffffffff => 3 12
csr mcause = 0 => ok
csr mcause = 1 => ok
csr mcause = 2 => ok
csr mcause = 3 => ok
csr mcause = 4 => ok
csr mcause = 5 => ok
csr mcause = 6 => ok
csr mcause = 7 => ok
csr mcause = 8 => ok
csr mcause = 9 => ok
csr mcause = 11 => ok
csr mcause = 12 => ok
csr mcause = 13 => ok
csr mcause = 15 => ok
csr mcause = 10 => 3 12
csr mcause = 14 => 3 12
csr mcause = 16 => 3 12
csr mcause = 0x80000000 => 3 12
csr mcause = 0x80000003 => 3 12
csr mcause = 0xffffffff => 3 12
csr mtval = 0 => ok
csr mtval = 1 => ok
csr mtval = 2 => ok
csr mtval = 3 => ok
csr mtval = 4 => ok
csr mtval = 0x7ffffffd => ok
csr mtval = 0x80000000 => ok
csr mtval = 0xfffffffe => ok
csr mtval = 0xffffffff => ok
csr sstatus = 0 => 3 2
csr sstatus = 0x22 => 3 2
csr mhartid = 0 => 3 2
csr mhartid = 1 => 3 2
csr mie = 0 => 3 4
csr mip = 0 => 3 4
csr mideleg = 0 => 3 4
csr add = 0 => 3 4
csr x1 = 0 => 3 4
reg x1 = -1 => ok
reg x2 = -1 => ok
reg x9 = -1 => ok
reg x10 = -1 => ok
reg x19 = -1 => ok
reg x20 = -1 => ok
reg x30 = -1 => ok
reg x31 = -1 => ok
reg x01 = 1 => ok
reg x0031 = 1 => ok
reg x0 = 1 => 3 3
reg x00 = 1 => 3 3
reg x32 = 1 => 3 3
reg x100 = 1 => 3 3
reg x4294967297 = 1 => 3 3
reg x18446744073709551617 = 1 => 3 3
reg x = 1 => 3 2
reg sp = 1 => 3 2
reg mepc = 1 => 3 2
reg 1 = 1 => 3 2";

/// The operations, each with its number.
const OPERATIONS: &str =
    "lui auipc jal jalr beq bne blt bge bltu bgeu lb lh lw lbu lhu sb sh sw addi slti sltiu xori \
    ori andi slli srli srai add sub sll slt sltu xor srl sra or and fence ecall ebreak mul mulh mulhsu mulhu div divu \
    rem remu csrrw csrrs csrrc csrrwi csrrsi csrrci mret sret sfence_vma illegal";

/// The control and status registers.
const REGISTERS: &str =
    "sstatus stvec sscratch sepc scause stval satp mstatus medeleg mtvec mscratch mepc mcause mtval mhartid";

/// Atoms on each of them, by its address.
const REGISTER_ATOMS: &str = "\
csr in {sstatus} => ; csr in { 256 }
csr in {stvec} => ; csr in { 261 }
csr in {sscratch} => ; csr in { 320 }
csr in {sepc} => ; csr in { 321 }
csr in {scause} => ; csr in { 322 }
csr in {stval} => ; csr in { 323 }
csr in {satp} => ; csr in { 384 }
csr in {mstatus} => ; csr in { 768 }
csr in {medeleg} => ; csr in { 770 }
csr in {mtvec} => ; csr in { 773 }
csr in {mscratch} => ; csr in { 832 }
csr in {mepc} => ; csr in { 833 }
csr in {mcause} => ; csr in { 834 }
csr in {mtval} => ; csr in { 835 }
csr in {mhartid} => ; csr in { 3860 }";

/// Words that may not be declared, beside operations and control and status registers.
const RESERVED: &str =
    "ram pool tables pteflags vectors set name in data hart start pc priv m s u csr reg body do \
    fault seq repeat choose label align retire prefer not op rs1 rs2 rd imm ea a b pa target outcome taken shared x0 x1 \
    x2 x3 x4 x5 x6 x7 x8 x9 x10 x11 x12 x13 x14 x15 x16 x17 x18 x19 x20 x21 x22 x23 x24 x25 x26 x27 x28 x29 x30 x31";

/// Words that may.
const FREE: &str =
    "x32 x07 x00 x001 x031 x100 x x1a x_1 y0 mm rams ra r p q to end sfence mie sip fencei wfi set1 in_ a1 \
    z_ zz9 orr";

fn show_set(out: &mut String, template: &Template) -> Result<(), AllocError> {
    match template.names.as_slice().first() {
        Some(name) => push_set(out, &name.set),
        None => out.push_str("no name"),
    }
}

fn show_leaf(out: &mut String, item: &Item) -> Result<(), AllocError> {
    match item {
        Item::Leaf { line: _, wishes } => push_wishes(out, wishes),
        _ => out.push_str("no leaf"),
    }
}

fn show_atoms(out: &mut String, template: &Template) -> Result<(), AllocError> {
    match template.harts.as_slice().first() {
        Some(hart) => match hart.body.last() {
            Some(item) => show_leaf(out, item),
            None => out.push_str("no item"),
        },
        None => out.push_str("no hart"),
    }
}

fn show_starts(out: &mut String, template: &Template) -> Result<(), AllocError> {
    for hart in template.harts.as_slice() {
        push_start(out, &hart.start)?;
    }
    Ok(())
}

/// The elements of a set, or the fault of its line, the second.
fn set_of(alloc: Global, set: &str) -> Result<String, AllocError> {
    let text = format!(in alloc; "set odd = {{1, 3}}\nname n1 in {set}\n{HART}")?;
    let mut out = String::new(alloc);
    match parse(alloc, text.as_bytes()) {
        Ok(template) => show_set(&mut out, &template)?,
        Err(error) => push_error(&mut out, error)?,
    }
    Ok(out)
}

/// What the atoms of a line say, or the fault of that line, the ninth.
fn atoms_of(alloc: Global, atoms: &str) -> Result<String, AllocError> {
    let text = format!(in alloc;
        "set odd = {{1, 3}}\nset big = {{100}}
name n1 in {{1}}\nname n2 in {{2}}\nhart 0 {{\nstart pc 0 priv m
body {{\nlabel top\ndo {atoms}\n}}\n}}\n"
    )?;
    let mut out = String::new(alloc);
    match parse(alloc, text.as_bytes()) {
        Ok(template) => show_atoms(&mut out, &template)?,
        Err(error) => push_error(&mut out, error)?,
    }
    Ok(out)
}

/// A hart that starts with this line, the third.
fn start_of(alloc: Global, line: &str) -> Result<String, AllocError> {
    format!(in alloc; "hart 0 {{\nstart pc 0 priv m\n{line}\nbody {{\n}}\n}}\n")
}

fn assert_shows(rt: &impl Abort, got: &str, want: &str, row: &str) {
    assert_eq!(rt; got.trim(), want, "at {row}");
}

#[test]
fn sets_have_their_elements(rt: HostRuntime) -> Result<(), Fail> {
    let alloc = rt.alloc();
    for row in SETS.split('\n') {
        let (set, want) = row.split_once(" => ").ok_or("a set and its elements")?;
        assert_shows(&rt, &set_of(alloc, set)?, want, row);
    }
    Ok(())
}

fn compare_atoms(rt: &impl Abort, alloc: Global, rows: &str) -> Result<(), Fail> {
    for row in rows.split('\n') {
        let (atoms, want) = row.split_once(" => ").ok_or("atoms and what they say")?;
        assert_shows(rt, &atoms_of(alloc, atoms)?, want, row);
    }
    Ok(())
}

#[test]
fn atoms_say_their_constraints(rt: HostRuntime) -> Result<(), Fail> {
    compare_atoms(&rt, rt.alloc(), ATOMS)
}

#[test]
fn registers_have_their_addresses(rt: HostRuntime) -> Result<(), Fail> {
    compare_atoms(&rt, rt.alloc(), REGISTER_ATOMS)
}

#[test]
fn operations_have_their_numbers(rt: HostRuntime) -> Result<(), Fail> {
    let alloc = rt.alloc();
    for (n, name) in OPERATIONS.split_whitespace().enumerate() {
        let row = format!(in alloc; "op in {{{name}}} => ; op in {{ {n} }}")?;
        compare_atoms(&rt, alloc, &row)?;
    }
    Ok(())
}

#[test]
fn harts_start_with_legal_values(rt: HostRuntime) -> Result<(), Fail> {
    let alloc = rt.alloc();
    for row in STARTS.split('\n') {
        let (line, want) = row.split_once(" => ").ok_or("a line and what is told")?;
        assert_shows(&rt, &told(alloc, &start_of(alloc, line)?)?, want, row);
    }
    Ok(())
}

/// All that a hart can start with, and what it says.
const ALL_STARTS: &str = "\
csr mtval = 1
csr mcause = 15
csr mepc = 0xc
csr mscratch = -1
reg x31 = 31
csr mtvec = 4
csr medeleg = 0xb3ff
csr mstatus = 0x5e19aa
csr satp = 0x800fffff
csr stval = 0xffffffff
csr scause = 15
reg x1 = 1
csr sepc = 0xfffffffc
csr sscratch = 7
csr stvec = 8";

const ALL_STARTS_SAY: &str =
    "hart 00000000 m 005e19aa 0000b3ff 800fffff 1=00000001 1f=0000001f 1105=00000008 1140=00000007 \
1141=fffffffc 1142=0000000f 1143=ffffffff 1305=00000004 1340=ffffffff 1341=0000000c 1342=0000000f 1343=00000001";

#[test]
fn a_hart_starts_with_all_that_is_given(rt: HostRuntime) -> Result<(), Fail> {
    let alloc = rt.alloc();
    let text = start_of(alloc, ALL_STARTS)?;
    let template = parse(alloc, text.as_bytes())?;
    let mut got = String::new(alloc);
    show_starts(&mut got, &template)?;
    assert_shows(&rt, &got, ALL_STARTS_SAY, "all");
    Ok(())
}

/// What is told where the word is declared as a set, a name or a label: on the lines 1, 1 and 4.
fn declared(alloc: Global, word: &str) -> Result<String, AllocError> {
    let set = format!(in alloc; "set {word} = {{1}}\n{HART}")?;
    let name = format!(in alloc; "name {word} in {{1}}\n{HART}")?;
    let label = format!(in alloc; "hart 0 {{\nstart pc 0 priv m\nbody {{\nlabel {word}\n}}\n}}\n")?;
    let (set, name, label) = (
        told(alloc, &set)?,
        told(alloc, &name)?,
        told(alloc, &label)?,
    );
    format!(in alloc; "{set}, {name}, {label}")
}

fn assert_declared(rt: &impl Abort, alloc: Global, words: &str, want: &str) -> Result<(), Fail> {
    for word in words.split_whitespace() {
        assert_shows(rt, &declared(alloc, word)?, want, word);
    }
    Ok(())
}

#[test]
fn reserved_words_are_not_declared(rt: HostRuntime) -> Result<(), Fail> {
    let alloc = rt.alloc();
    let refused = "1 2, 1 2, 4 2";
    assert_declared(&rt, alloc, RESERVED, refused)?;
    assert_declared(&rt, alloc, OPERATIONS, refused)?;
    assert_declared(&rt, alloc, REGISTERS, refused)?;
    assert_declared(&rt, alloc, "Q _q 1q q' q.q q-q 5 0x5", refused)?;
    assert_declared(&rt, alloc, FREE, "ok, ok, ok")
}
