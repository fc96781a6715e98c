//! Templates that several crates of tests read.
#![tactic(auto)]

/// A template that has every statement.
pub const EVERY: &str = "\
ram 0x80000000 0x80010000
ram 0 4096
pool 0x80000000 0x80001000
tables 0x80002000
pteflags 0x00 0xcf
vectors {0x80000100..0x8000010b}
set odd = {1, 3, 5..7}
set near = {-4..3} align 2
name n1 in odd
name n2 in {0..4095} align 0x400
data 0x80001ffc = 7
data 0x80001004 = 0xdeadbeef
hart 0 {
start pc 0x80000000 priv m
csr mtvec = 0x80000100
reg x31 = -1
csr satp = 0x80080002
reg x5 = 5
body {
label top
do op in {addi, lui}; rd in odd; prefer imm in near
fault outcome in {1, 12}
seq {
do rs1 == n1; not taken
}
repeat 3 {
do
}
choose {
2: {
do target == top
}
0: {
}
}
}
}
hart 1 {
start pc 0x1000 priv u
body {
}
}";

/// A load whose page has no entry yet.
pub const PAGE_FAULT: &str = "\
ram 0x80000000 0x80005000
pool 0x80003000
tables 0x80001000
pteflags 0x00
vectors {0x00400100}
data 0x80001004 = 0x20000801
data 0x80002000 = 0x20000c4b
hart 0 {
start pc 0x00400000 priv s
csr satp = 0x80080001
csr medeleg = 0x2000
body {
do op in {lw}; rd in {6}; rs1 in {5}; imm in {0}; ea in {0x00802000}; outcome in {13}
}
}
";
