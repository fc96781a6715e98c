// The examples of docs/TEMPLATES.md.
use crate::told::{assert_told, compare_texts};
use rv_csr::{REGISTERS, row_of};
use rv_isa::{OPS, name_of};
use std::test::Fail;
use tpl_lang::{KEYS, Key, csr_of, key_of, op_of};

const FIRST: &str = "ram 0x80000000 0x80001000
pool 0x80000000
hart 0 {
start pc 0x80000000 priv m
body {
do op in {addi}; rd in {5}; rs1 in {0}; imm in {7}
}
}
";

/// The statements before the first hart, the hart, and the items in it.
const STATEMENTS: &str = "ram 0x80000000 0x80010000
pool 0x80000000 0x80001000
tables 0x80002000
pteflags 0x00 0xcf
vectors {0x80000100..0x8000010b}
set odd = {1, 3, 5..7}
name n1 in odd
data 0x80001004 = 0xdeadbeef
hart 0 {
start pc 0x80000000 priv m
csr mtvec = 0x80000100
reg x5 = 5
body {
do
}
}
";

const ITEMS: &str = "set odd = {1, 3, 5..7}
hart 0 {
start pc 0x80000000 priv m
body {
label top
do op in {addi, lui}; rd in odd; prefer imm in {-4..3}
repeat 3 {
do
}
choose {
2: {
do target == top
}
0: {
}
}
}
}
";

/// The items that stand in no other example.
const OTHER_ITEMS: &str = "hart 0 {
start pc 0x80000000 priv m
body {
fault outcome in {1, 12}
seq {
do
}
}
}
";

/// The lists of words, as they stand in the document.
const KEY_WORDS: &str = "ram pool tables pteflags vectors set name in data hart
start pc priv m s u csr reg body
do fault seq repeat choose label
align retire prefer not
op rs1 rs2 rd imm csr ea a b pa target outcome
taken shared";

const OPERATION_WORDS: &str = "lui auipc jal jalr beq bne blt bge bltu bgeu
lb lh lw lbu lhu sb sh sw
addi slti sltiu xori ori andi slli srli srai
add sub sll slt sltu xor srl sra or and
fence ecall ebreak
mul mulh mulhsu mulhu div divu rem remu
csrrw csrrs csrrc csrrwi csrrsi csrrci
mret sret sfence_vma illegal";

const CSR_WORDS: &str = "sstatus stvec sscratch sepc scause stval satp
mstatus medeleg mtvec mscratch mepc mcause mtval mhartid";

/// An atom of each form, and one on each variable.
const ATOMS: &str = "rd in {1..31}
imm not in {0, 1}
imm == n1
rs1 == rs2
rd != rs1
a == b
a != b
taken
not taken
shared
prefer rs2 not in odd
op in {lw, sfence_vma}
rs2 in odd
imm in {-4..3}
csr not in {satp, mepc}
a in {0x80000000}
ea in {0x80001000..0x80001fff} align 4
pa == n1
target == top
outcome in {retire, 5, 13}";

/// A small text of each fault, and the line and the kind that are told.
const FAULTS: &str = "\
1 1 => \u{e9}|
1 2 => 
1 3 => set q1 = {0x100000000}|
1 4 => vectors q|
2 5 => set q = {1}|set q = {1}|
1 7 => set q1 = {5..4}|
1 10 => pteflags 0 0 0 0 0 0 0 0 0|
1 11 => ram 0x80000000 0x80000800|
1 12 => hart 1 {|";

#[test]
fn examples_are_templates(rt: HostRuntime) -> Result<(), Fail> {
    for text in [FIRST, STATEMENTS, ITEMS, OTHER_ITEMS] {
        assert_told(&rt, rt.alloc(), text, "ok", text)?;
    }
    Ok(())
}

#[test]
fn small_texts_have_their_faults(rt: HostRuntime) -> Result<(), Fail> {
    compare_texts(&rt, rt.alloc(), FAULTS)
}

/// Before and behind an atom.
const BEFORE: &str = "set odd = {1, 3, 5..7}
name n1 in odd
hart 0 {
start pc 0 priv m
body {
label top
do ";

#[test]
fn atoms_may_stand_in_leaves(rt: HostRuntime) -> Result<(), Fail> {
    let alloc = rt.alloc();
    for atom in ATOMS.split('\n') {
        let text = format!(in alloc; "{BEFORE}{atom}\n}}\n}}\n")?;
        assert_told(&rt, alloc, &text, "ok", atom)?;
    }
    Ok(())
}

fn has_word(words: &str, wanted: &[u8]) -> bool {
    for word in words.split_whitespace() {
        if word.as_bytes() == wanted {
            return true;
        }
    }
    false
}

fn has_key(words: &str, wanted: Key) -> bool {
    for word in words.split_whitespace() {
        if key_of(word.as_bytes()) == Some(wanted) {
            return true;
        }
    }
    false
}

/// Whether the list has each word of the language, and no other.
fn lists_keys(words: &str) -> bool {
    for key in &KEYS {
        if !has_key(words, *key) {
            return false;
        }
    }
    for word in words.split_whitespace() {
        if key_of(word.as_bytes()).is_none() {
            return false;
        }
    }
    true
}

/// Whether it has each operation's name, and no other word.
fn lists_operations(words: &str) -> bool {
    for op in &OPS {
        if !has_word(words, name_of(*op)) {
            return false;
        }
    }
    for word in words.split_whitespace() {
        if op_of(word.as_bytes()).is_none() {
            return false;
        }
    }
    true
}

/// Whether it has each register's name, and no other word.
fn lists_csrs(words: &str) -> bool {
    for register in &REGISTERS {
        if !has_word(words, row_of(*register).name().as_bytes()) {
            return false;
        }
    }
    for word in words.split_whitespace() {
        if csr_of(word.as_bytes()).is_none() {
            return false;
        }
    }
    true
}

#[test]
fn words_are_those_of_the_tables(rt: HostRuntime) {
    assert!(rt; lists_keys(KEY_WORDS));
    assert!(rt; lists_operations(OPERATION_WORDS));
    assert!(rt; lists_csrs(CSR_WORDS));
}
