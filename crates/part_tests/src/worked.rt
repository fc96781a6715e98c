// Tests that are made step by step: what a template gives, the places that are given as the steps want them, the steps,
// and the certificate in the end.
use crate::steps::assert_row;
use std::test::Fail;
use test_texts::PAGE_FAULT;

/// `addi x5, x0, 7`.
const ADDITION: &str = "\
ram 0x80000000 0x80001000
pool 0x80000000
hart 0 {
start pc 0x80000000 priv m
body {
do op in {addi}; rd in {5}; rs1 in {0}; imm in {7}
}
}
|
memory 80000000 -
memory 80000ffc -
memory 80001000 none
lacks 0 word 80000000
give 0 word 80000000 00000001
outside 0
back 0
memory 80000000 -
give 0 word 80000000 00700293
step 0 > pc 80000000 m 00700293 retire x5=00000007 fetch@80000000:4=00700293 next 80000004
known 0 reg 5 00000007
pc 0 80000004
records 0 1
touch 1 store 80000003 0 fetch
lacks 0 word 80000004
mark 2
back 1
mark 1
known 0 reg 5 -
pc 0 80000000
records 0 0
free 1 store 80000003
memory 80000000 00700293
step 0 > pc 80000000 m 00700293 retire x5=00000007 fetch@80000000:4=00700293 next 80000004
|
hart 0 pc 80000000 priv m mstatus 00000000 medeleg 00000000 satp 00000000
step 0 0 pc 80000000 m 00700293 retire x5=00000007 fetch@80000000:4=00700293 next 80000004
end 0 pc 80000004 priv m mstatus 00000000 medeleg 00000000 satp 00000000
final 0 x5 00000007
word 80000000 00700293 00700293
";

/// `lw x2, -4(x1)` at the end of the RAM and `lw x4, 4(x3)` at its start, beyond the end of all addresses.
const ENDS_OF_MEMORY: &str = "\
ram 0x0 0x1000
pool 0x0
data 0x0 = 5
data 0xffc = 0x11223344
hart 0 {
start pc 0x100 priv m
body {
do op in {lw}; rd in {2}; rs1 in {1}; imm in {-4}; ea in {0xffc}
do op in {lw}; rd in {4}; rs1 in {3}; imm in {4}; ea in {0}
}
}
|
memory 00000000 00000005
memory 00000ffc 11223344
memory 00001000 none
memory fffffffc none
lacks 0 word 00000100
give 0 word 00000100 ffc0a103
lacks 0 reg 1
give 0 reg 1 00001000
step 0 > pc 00000100 m ffc0a103 retire x2=11223344 fetch@00000100:4=ffc0a103 load@00000ffc:4=11223344 next 00000104
give 0 word 00000104 0041a203
lacks 0 reg 3
give 0 reg 3 fffffffc
step 0 > pc 00000104 m 0041a203 retire x4=00000005 fetch@00000104:4=0041a203 load@00000000:4=00000005 next 00000108
|
hart 0 pc 00000100 priv m mstatus 00000000 medeleg 00000000 satp 00000000
start 0 x1 00001000
start 0 x3 fffffffc
step 0 0 pc 00000100 m ffc0a103 retire x2=11223344 fetch@00000100:4=ffc0a103 load@00000ffc:4=11223344 next 00000104
step 0 1 pc 00000104 m 0041a203 retire x4=00000005 fetch@00000104:4=0041a203 load@00000000:4=00000005 next 00000108
end 0 pc 00000108 priv m mstatus 00000000 medeleg 00000000 satp 00000000
final 0 x1 00001000
final 0 x2 11223344
final 0 x3 fffffffc
final 0 x4 00000005
word 00000000 00000005 00000005
word 00000100 ffc0a103 ffc0a103
word 00000104 0041a203 0041a203
word 00000ffc 11223344 11223344
";

/// Three rounds of `addi x5, x5, 1` and `bne x5, x0, -4`.
const ROUNDS: &str = "\
ram 0x80000000 0x80001000
pool 0x80000000
hart 0 {
start pc 0x80000000 priv m
reg x5 = 0
body {
label top
repeat 3 {
do op in {addi}; rd in {5}; rs1 in {5}; imm in {1}
do op in {bne}; rs1 in {5}; rs2 in {0}; taken; target == top
}
}
}
|
known 0 reg 5 00000000
name 0 -
bind 0 80000000
name 0 80000000
give 0 word 80000000 00128293
step 0 > pc 80000000 m 00128293 retire x5=00000001 fetch@80000000:4=00128293 next 80000004
give 0 word 80000004 fe029ee3
step 0 > pc 80000004 m fe029ee3 retire fetch@80000004:4=fe029ee3 next 80000000
step 0 > pc 80000000 m 00128293 retire x5=00000002 fetch@80000000:4=00128293 next 80000004
step 0 > pc 80000004 m fe029ee3 retire fetch@80000004:4=fe029ee3 next 80000000
step 0 > pc 80000000 m 00128293 retire x5=00000003 fetch@80000000:4=00128293 next 80000004
step 0 > pc 80000004 m fe029ee3 retire fetch@80000004:4=fe029ee3 next 80000000
records 0 6
mark 9
back 0
name 0 -
known 0 reg 5 00000000
records 0 0
bind 0 80000000
give 0 word 80000000 00128293
step 0 > pc 80000000 m 00128293 retire x5=00000001 fetch@80000000:4=00128293 next 80000004
give 0 word 80000004 fe029ee3
step 0 > pc 80000004 m fe029ee3 retire fetch@80000004:4=fe029ee3 next 80000000
step 0 > pc 80000000 m 00128293 retire x5=00000002 fetch@80000000:4=00128293 next 80000004
step 0 > pc 80000004 m fe029ee3 retire fetch@80000004:4=fe029ee3 next 80000000
step 0 > pc 80000000 m 00128293 retire x5=00000003 fetch@80000000:4=00128293 next 80000004
step 0 > pc 80000004 m fe029ee3 retire fetch@80000004:4=fe029ee3 next 80000000
|
hart 0 pc 80000000 priv m mstatus 00000000 medeleg 00000000 satp 00000000
start 0 x5 00000000
step 0 0 pc 80000000 m 00128293 retire x5=00000001 fetch@80000000:4=00128293 next 80000004
step 0 1 pc 80000004 m fe029ee3 retire fetch@80000004:4=fe029ee3 next 80000000
step 0 2 pc 80000000 m 00128293 retire x5=00000002 fetch@80000000:4=00128293 next 80000004
step 0 3 pc 80000004 m fe029ee3 retire fetch@80000004:4=fe029ee3 next 80000000
step 0 4 pc 80000000 m 00128293 retire x5=00000003 fetch@80000000:4=00128293 next 80000004
step 0 5 pc 80000004 m fe029ee3 retire fetch@80000004:4=fe029ee3 next 80000000
end 0 pc 80000000 priv m mstatus 00000000 medeleg 00000000 satp 00000000
final 0 x5 00000003
word 80000000 00128293 00128293
word 80000004 fe029ee3 fe029ee3
name 0 80000000
";

/// A first alternative of which a leaf is made and another can't be, and then the second one.
const ANOTHER_WAY: &str = "\
ram 0x80000000 0x80001000
pool 0x80000000
hart 0 {
start pc 0x80000000 priv m
body {
choose {
1: {
do op in {lw}; rd in {2}; rs1 in {1}; imm in {0}; a in {0x80000800}
do op in {lw}; rd in {2}; rs1 in {1}; a in {0x80000804}
}
0: {
do op in {addi}; rd in {6}; rs1 in {0}; imm in {1}
}
}
}
}
|
choice 0
give 0 word 80000000 0000a103
lacks 0 reg 1
give 0 reg 1 80000800
lacks 0 word 80000800
give 0 word 80000800 00000005
step 0 > pc 80000000 m 0000a103 retire x2=00000005 fetch@80000000:4=0000a103 load@80000800:4=00000005 next 80000004
known 0 reg 1 80000800
touch 1 store 80000802 0 load
mark 5
back 0
known 0 reg 1 -
known 0 reg 2 -
memory 80000000 -
memory 80000800 -
records 0 0
pc 0 80000000
free 1 store 80000802
choice 1
give 0 word 80000000 00100313
step 0 > pc 80000000 m 00100313 retire x6=00000001 fetch@80000000:4=00100313 next 80000004
|
hart 0 pc 80000000 priv m mstatus 00000000 medeleg 00000000 satp 00000000
step 0 0 pc 80000000 m 00100313 retire x6=00000001 fetch@80000000:4=00100313 next 80000004
end 0 pc 80000004 priv m mstatus 00000000 medeleg 00000000 satp 00000000
final 0 x6 00000001
word 80000000 00100313 00100313
choice 1
";

/// The addition with a bias that can't be kept.
const DROPPED_BIAS: &str = "\
ram 0x80000000 0x80001000
pool 0x80000000
hart 0 {
start pc 0x80000000 priv m
body {
do op in {addi}; rd in {5}; rs1 in {0}; prefer imm in {7}; prefer imm in {8}
}
}
|
give 0 word 80000000 00700293
drop 0 0 3 spent
back 1
drop 0 0 4 none
step 0 > pc 80000000 m 00700293 retire x5=00000007 fetch@80000000:4=00700293 next 80000004
|
hart 0 pc 80000000 priv m mstatus 00000000 medeleg 00000000 satp 00000000
step 0 0 pc 80000000 m 00700293 retire x5=00000007 fetch@80000000:4=00700293 next 80000004
end 0 pc 80000004 priv m mstatus 00000000 medeleg 00000000 satp 00000000
final 0 x5 00000007
word 80000000 00700293 00700293
dropped 0 0 4 none
";

/// The steps and the certificate of a load whose page has no entry yet, under Sv32.
const PAGE_FAULT_MADE: &str = "\
|
lacks 0 word 80003000
give 0 word 80003000 0002a303
lacks 0 reg 5
give 0 reg 5 00802000
lacks 0 word 80001008
give 0 word 80001008 20000000
lacks 0 csr 105
give 0 csr 105 00400100
step 0 > pc 00400000 s 0002a303 trap 13 00802000 to s walk@80001004:4=20000801 walk@80002000:4=20000c4b fetch@80003000:4=0002a303 walk@80001008:4=20000000 next 00400100
known 0 csr 141 00400000
known 0 csr 142 0000000d
known 0 csr 143 00802000
mstatus 0 00000100
known 0 reg 6 -
touch 0 store 80001008 0 walk
back 4
known 0 csr 105 00400100
known 0 csr 141 -
known 0 csr 142 -
known 0 csr 143 -
mstatus 0 00000000
pc 0 00400000
free 0 store 80001008
back 3
known 0 csr 105 -
lacks 0 csr 105
give 0 csr 105 00400100
step 0 > pc 00400000 s 0002a303 trap 13 00802000 to s walk@80001004:4=20000801 walk@80002000:4=20000c4b fetch@80003000:4=0002a303 walk@80001008:4=20000000 next 00400100
|
hart 0 pc 00400000 priv s mstatus 00000000 medeleg 00002000 satp 80080001
start 0 x5 00802000
start 0 stvec 00400100
step 0 0 pc 00400000 s 0002a303 trap 13 00802000 to s walk@80001004:4=20000801 walk@80002000:4=20000c4b fetch@80003000:4=0002a303 walk@80001008:4=20000000 next 00400100
end 0 pc 00400100 priv s mstatus 00000100 medeleg 00002000 satp 80080001
final 0 x5 00802000
final 0 stvec 00400100
final 0 sepc 00400000
final 0 scause 0000000d
final 0 stval 00802000
word 80001004 20000801 20000801
word 80001008 20000000 20000000
word 80002000 20000c4b 20000c4b
word 80003000 0002a303 0002a303
";

/// A jump to an address that is no multiple of 4.
const MISALIGNED_JUMP: &str = "\
ram 0x80000000 0x80001000
pool 0x80000000
vectors {0x80000200}
hart 0 {
start pc 0x80000000 priv m
body {
do op in {jalr}; rd in {1}; rs1 in {5}; imm in {2}; a in {0x80000100}; outcome in {0}
}
}
|
give 0 word 80000000 002280e7
lacks 0 reg 5
give 0 reg 5 80000100
lacks 0 csr 305
give 0 csr 305 80000200
step 0 > pc 80000000 m 002280e7 trap 0 80000102 to m fetch@80000000:4=002280e7 next 80000200
known 0 reg 1 -
|
hart 0 pc 80000000 priv m mstatus 00000000 medeleg 00000000 satp 00000000
start 0 x5 80000100
start 0 mtvec 80000200
step 0 0 pc 80000000 m 002280e7 trap 0 80000102 to m fetch@80000000:4=002280e7 next 80000200
end 0 pc 80000200 priv m mstatus 00001800 medeleg 00000000 satp 00000000
final 0 x5 80000100
final 0 mtvec 80000200
final 0 mepc 80000000
final 0 mcause 00000000
final 0 mtval 80000102
word 80000000 002280e7 002280e7
";

/// `sb x6, 0(x5)` of one hart and `lb x7, 0(x5)` of another, on one word and on one byte.
const TWO_HARTS: &str = "\
ram 0x80000000 0x80001000
pool 0x80000000
data 0x80000800 = 0x44332211
hart 0 {
start pc 0x80000000 priv m
body {
do op in {sb}; rs1 in {5}; rs2 in {6}; imm in {0}; a in {0x80000800}; b in {0xaa}
}
}
hart 1 {
start pc 0x80000100 priv m
body {
do op in {lb}; rd in {7}; rs1 in {5}; imm in {0}; a in {0x80000801}; shared
}
}
|
give 0 word 80000000 00628023
lacks 0 reg 5
give 0 reg 5 80000002
give 0 reg 6 000000aa
clash 0 80000002 0 fetch
back 1
give 0 reg 5 80000800
give 0 reg 6 000000aa
give 1 word 80000100 00028383
lacks 1 reg 5
give 1 reg 5 80000800
step 1 > pc 80000100 m 00028383 retire x7=00000011 fetch@80000100:4=00028383 load@80000800:1=00000011 next 80000104
clash 0 80000800 1 load
back 5
step 0 > pc 80000000 m 00628023 retire fetch@80000000:4=00628023 store@80000800:1=000000aa next 80000004
memory 80000800 443322aa
clash 1 80000800 0 store
records 0 1
records 1 0
back 5
memory 80000800 44332211
records 0 0
free 1 load 80000800
back 4
known 1 reg 5 -
step 0 > pc 80000000 m 00628023 retire fetch@80000000:4=00628023 store@80000800:1=000000aa next 80000004
touch 1 load 80000800 0 store
free 1 load 80000801
free 0 load 80000800
touch 0 fetch 80000800 0 store
give 1 reg 5 80000801
step 1 > pc 80000100 m 00028383 retire x7=00000022 fetch@80000100:4=00028383 load@80000801:1=00000022 next 80000104
known 1 reg 7 00000022
known 0 reg 7 -
|
hart 0 pc 80000000 priv m mstatus 00000000 medeleg 00000000 satp 00000000
start 0 x5 80000800
start 0 x6 000000aa
hart 1 pc 80000100 priv m mstatus 00000000 medeleg 00000000 satp 00000000
start 1 x5 80000801
step 0 0 pc 80000000 m 00628023 retire fetch@80000000:4=00628023 store@80000800:1=000000aa next 80000004
step 1 0 pc 80000100 m 00028383 retire x7=00000022 fetch@80000100:4=00028383 load@80000801:1=00000022 next 80000104
end 0 pc 80000004 priv m mstatus 00000000 medeleg 00000000 satp 00000000
final 0 x5 80000800
final 0 x6 000000aa
end 1 pc 80000104 priv m mstatus 00000000 medeleg 00000000 satp 00000000
final 1 x5 80000801
final 1 x7 00000022
word 80000000 00628023 00628023
word 80000100 00028383 00028383
word 80000800 44332211 443322aa
";

#[test]
fn an_addition_is_made_and_taken_back(rt: HostRuntime) -> Result<(), Fail> {
    assert_row(&rt, rt.alloc(), ADDITION)
}

#[test]
fn loads_at_both_ends_of_memory(rt: HostRuntime) -> Result<(), Fail> {
    assert_row(&rt, rt.alloc(), ENDS_OF_MEMORY)
}

#[test]
fn a_name_and_rounds_of_it_are_taken_back(rt: HostRuntime) -> Result<(), Fail> {
    assert_row(&rt, rt.alloc(), ROUNDS)
}

#[test]
fn another_way_is_taken_after_a_dead_end(rt: HostRuntime) -> Result<(), Fail> {
    assert_row(&rt, rt.alloc(), ANOTHER_WAY)
}

#[test]
fn a_dropped_bias_is_told(rt: HostRuntime) -> Result<(), Fail> {
    assert_row(&rt, rt.alloc(), DROPPED_BIAS)
}

#[test]
fn a_page_fault_and_its_csrs_are_taken_back(rt: HostRuntime) -> Result<(), Fail> {
    let row = format!(in rt.alloc(); "{PAGE_FAULT}{PAGE_FAULT_MADE}")?;
    assert_row(&rt, rt.alloc(), row.as_str())
}

#[test]
fn a_jump_traps_to_its_vector(rt: HostRuntime) -> Result<(), Fail> {
    assert_row(&rt, rt.alloc(), MISALIGNED_JUMP)
}

#[test]
fn two_harts_share_a_word_but_no_byte(rt: HostRuntime) -> Result<(), Fail> {
    assert_row(&rt, rt.alloc(), TWO_HARTS)
}
