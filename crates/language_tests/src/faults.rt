// Of each kind of fault, lines that have it.
use crate::every::compare_all;
use std::test::Fail;

/// Kind 1.
const BAD_BYTE: &str = "\
1 1 => 1 ram 0x80000000 0x80010000\x07
1 1 => 1 \x7f
1 1 => 1 \x00
1 1 => 1 # \u{e9}
1 1 => 1 foo \x0b
1 1 => 1 ram 0x80000000\r 0x80010000
1 1 => 1 ram 0x80000000 0x80010000\r\r
21 1 => 21 do # \x01
21 1 => 21 \x1f
21 1 => 21 do\r # taken
42 1 => 42 }\r
42 1 => 42 } # \u{80}
42 1 => 42 \x1b
43 1 => 42 }|\r
43 1 => 42 }|# \x0c|";

/// Kind 2.
const UNEXPECTED: &str = "\
1 2 => 1 foo
1 2 => 1 Ram 0 4096
1 2 => 1 ram
1 2 => 1 ram 0x80000000
1 2 => 1 ram 0 4096 8192
1 2 => 1 ram 0, 4096
1 2 => 1 ram 0 q1
1 2 => 1 ram {0} 4096
1 2 => 1 {
1 2 => 1 = 1
1 2 => 1 : {
1 2 => 1 1
1 2 => 1 1: {
1 2 => 1 }
1 2 => 1 !
1 2 => 1 \"
1 2 => 1 ram 0 4096;
1 2 => 1 ram 0 4096 }
3 2 => 3 pool
3 2 => 3 pool q1
3 2 => 3 pool 0x80000000, 0x80001000
3 2 => 3 pool {0x80000000}
3 2 => 3 pools 0x80000000
4 2 => 4 tables
4 2 => 4 tables n1
4 2 => 4 tables 0x80002000 =
5 2 => 5 pteflags
5 2 => 5 pteflags {0}
5 2 => 5 pteflags 0 all
6 2 => 6 vectors
6 2 => 6 vectors 4
6 2 => 6 vectors {4} {8}
6 2 => 6 vectors {}
6 2 => 6 vectors = {4}
7 2 => 7 set
7 2 => 7 set odd
7 2 => 7 set odd =
7 2 => 7 set odd = 1
7 2 => 7 set odd {1}
7 2 => 7 set odd == {1}
7 2 => 7 set odd = {1} 2
7 2 => 7 set = {1}
7 2 => 7 set 5 = {1}
7 2 => 7 set odd : {1}
9 2 => 9 name
9 2 => 9 name n1
9 2 => 9 name n1 in
9 2 => 9 name n1 = {1}
9 2 => 9 name n1 not in {1}
9 2 => 9 name in {1}
9 2 => 9 name n1 in 1
9 2 => 9 name n1 in {1} odd
11 2 => 11 data
11 2 => 11 data 0x80001ffc
11 2 => 11 data 0x80001ffc 7
11 2 => 11 data 0x80001ffc =
11 2 => 11 data 0x80001ffc = n1
11 2 => 11 data 0x80001ffc == 7
11 2 => 11 data 0x80001ffc = 7 8
11 2 => 11 data = 7
13 2 => 13 hart 0
13 2 => 13 hart {
13 2 => 13 hart x {
13 2 => 13 hart 0 { }
13 2 => 13 hart 0 1 {
13 2 => 13 hart 0 }
13 2 => 13 hart 0 : {
14 2 => 14 start
14 2 => 14 start pc
14 2 => 14 start pc 0
14 2 => 14 start pc 0 priv
14 2 => 14 start pc 0 priv h
14 2 => 14 start pc 0 priv n1
14 2 => 14 start 0 priv m
14 2 => 14 start priv m pc 0
14 2 => 14 start pc 0 m
14 2 => 14 start pc 0 priv m s
14 2 => 14 start pc = 0 priv m
14 2 => 14 start pc 0x100priv m
15 2 => 15 csr
15 2 => 15 csr mtvec
15 2 => 15 csr mtvec 4
15 2 => 15 csr mtvec =
15 2 => 15 csr mtvec = n1
15 2 => 15 csr 0x305 = 4
15 2 => 15 csr mtvec = 4 4
15 2 => 15 csr mtvec == 4
16 2 => 16 reg
16 2 => 16 reg x31
16 2 => 16 reg x31 1
16 2 => 16 reg x31 =
16 2 => 16 reg 31 = 1
16 2 => 16 reg x = 1
16 2 => 16 reg y1 = 1
16 2 => 16 reg x1f = 1
16 2 => 16 reg ra = 1
16 2 => 16 reg x31 = x30
16 2 => 16 reg x31 == 1
19 2 => 19 body
19 2 => 19 body { }
19 2 => 19 body 0 {
19 2 => 19 body }
20 2 => 20 label
20 2 => 20 label 5
20 2 => 20 label top top
20 2 => 20 label top:
20 2 => 20 label {
22 2 => 22 fault
22 2 => 22 fault outcome
22 2 => 22 fault outcome in
22 2 => 22 fault outcome in 1
22 2 => 22 fault outcome in {}
22 2 => 22 fault outcome in {1..12}
22 2 => 22 fault outcome in {1, 12
22 2 => 22 fault outcome in odd
22 2 => 22 fault outcome not in {1}
22 2 => 22 fault in {1}
22 2 => 22 fault outcome == 1
22 2 => 22 fault outcome in {1} align 1
22 2 => 22 fault outcome in {1}; taken
22 2 => 22 fault prefer outcome in {1}
22 2 => 22 fault imm in {1}
23 2 => 23 seq
23 2 => 23 seq 1 {
23 2 => 23 seq }
23 2 => 23 seq { {
26 2 => 26 repeat {
26 2 => 26 repeat 3
26 2 => 26 repeat n1 {
26 2 => 26 repeat 3 3 {
26 2 => 26 repeat = 3 {
29 2 => 29 choose
29 2 => 29 choose 2 {
29 2 => 29 choose: {
30 2 => 30 2 {
30 2 => 30 2:
30 2 => 30 2: { {
30 2 => 30 {
30 2 => 30 n1: {
30 2 => 30 2, {
30 2 => 30 2;{
30 2 => 30 2:{}
25 2 => 25 } }
25 2 => 25 };
25 2 => 25 } do
25 2 => 25 }}
1 2 => 1 start pc 0 priv m
1 2 => 1 csr mtvec = 0
1 2 => 1 reg x1 = 1
1 2 => 1 body {
1 2 => 1 label top
1 2 => 1 do
1 2 => 1 fault outcome in {1}
1 2 => 1 seq {
1 2 => 1 repeat 3 {
1 2 => 1 choose {
1 2 => 1 2: {
7 2 => 7 vectors {4}
14 2 => 14 body {
14 2 => 14 csr mtvec = 0
14 2 => 14 reg x1 = 1
14 2 => 14 }
14 2 => 14 hart 1 {
14 2 => 14 do
14 2 => 14 ram 0x1000 0x2000
15 2 => 14 
15 2 => 15 start pc 0 priv m
15 2 => 15 }
15 2 => 15 do
15 2 => 15 label top2
15 2 => 15 set q1 = {1}
15 2 => 15 hart 1 {
15 2 => 15 csr sstatus = 0
15 2 => 15 csr mhartid = 0
18 2 => 18 csr sstatus = 0x22
18 2 => 18 csr mhartid = 1
19 2 => 19 }
19 2 => 19 seq {
20 2 => 19 
22 2 => 22 start pc 0 priv m
22 2 => 22 csr mepc = 0
22 2 => 22 reg x1 = 1
22 2 => 22 body {
22 2 => 22 hart 1 {
22 2 => 22 2: {
22 2 => 22 ram 0x1000 0x2000
22 2 => 22 pool 0x80003000
22 2 => 22 tables 0x80003000
22 2 => 22 pteflags 0
22 2 => 22 vectors {4}
22 2 => 22 set q1 = {1}
22 2 => 22 name q1 in {1}
22 2 => 22 data 0x80001008 = 0
24 2 => 24 2: {
24 2 => 24 body {
27 2 => 27 label deep
27 2 => 27 2: {
28 2 => 27 seq {|label deep|}
29 2 => 27 choose {|1: {|label deep|}|}
30 2 => 30 do
30 2 => 30 do taken
30 2 => 30 label way
30 2 => 30 seq {
30 2 => 30 repeat 1 {
30 2 => 30 choose {
30 2 => 30 fault outcome in {1}
30 2 => 30 }
31 2 => 31 1: {
33 2 => 33 do
30 2 => 29 choose {|}|choose {
32 2 => 29 choose {|0: {|}|}|choose {
35 2 => 30 0: {
37 2 => 37 csr mepc = 0
37 2 => 37 body {
37 2 => 37 do
37 2 => 37 hart 1 {
37 2 => 37 set q1 = {1}
37 2 => 37 }  }
38 2 => 38 ram 0x1000 0x2000
38 2 => 38 pool 0x80003000
38 2 => 38 tables 0x80003000
38 2 => 38 pteflags 0
38 2 => 38 vectors {4}
38 2 => 38 set q1 = {1}
38 2 => 38 name q1 in {1}
38 2 => 38 data 0x80001008 = 0
38 2 => 38 start pc 0 priv m
38 2 => 38 body {
38 2 => 38 do
38 2 => 38 }
42 2 => 42 
42 2 => 42 # end
42 2 => 42 do
42 2 => 42 seq {
43 2 => 42 }|}
43 2 => 42 }|foo
43 2 => 42 }|ram 0x1000 0x2000|
43 2 => 42 }|hart 2 {
44 2 => 42 }|hart 2 {|";

/// Kind 3.
const NUMBER_TOO_LARGE: &str = "\
1 3 => 1 ram 0x100000000 0x180010000
1 3 => 1 ram 0x80000000 4294967296
3 3 => 3 pool 0x80000000 0x180001000
4 3 => 4 tables 0x180002000
5 3 => 5 pteflags 256
5 3 => 5 pteflags 0 -1
5 3 => 5 pteflags 0x1000000cf
6 3 => 6 vectors {0x100000000}
6 3 => 6 vectors {0..4294967296}
6 3 => 6 vectors {4} align 12
7 3 => 7 set odd = {1, 0x100000001}
7 3 => 7 set odd = {4} align 0
7 3 => 7 set odd = {4} align 0x100000004
9 3 => 9 name n1 in {-2147483649}
9 3 => 9 name n1 in {4} align 3
11 3 => 11 data 0x80001ffc = 0x100000000
11 3 => 11 data 0x180001ffc = 7
11 3 => 11 data -2147483649 = 7
13 3 => 13 hart 0x100000000 {
14 3 => 14 start pc 0x180000000 priv m
15 3 => 15 csr mtvec = 0x180000100
16 3 => 16 reg x0 = 1
16 3 => 16 reg x00 = 1
16 3 => 16 reg x32 = 1
16 3 => 16 reg x99 = 1
16 3 => 16 reg x4294967297 = 1
16 3 => 16 reg x31 = 4294967296
21 3 => 21 do rd in {32}
21 3 => 21 do rs1 in {0..32}
21 3 => 21 do rs2 not in {-1}
21 3 => 21 do rd in {31..0x100000001}
21 3 => 21 do imm in {0x100000000}
21 3 => 21 do ea in {4} align 5
21 3 => 21 do prefer pa in {4294967296}
21 3 => 21 do taken; b in {0..0x100000000}
21 3 => 21 do outcome in {10}
21 3 => 21 do outcome in {retire, 14}
21 3 => 21 do outcome not in {16}
21 3 => 21 do outcome in {255}
21 3 => 21 do outcome in {0x100000000}
22 3 => 22 fault outcome in {0}
22 3 => 22 fault outcome in {2}
22 3 => 22 fault outcome in {1, 13}
22 3 => 22 fault outcome in {retire, 5}
22 3 => 22 fault outcome in {0x100000001}
26 3 => 26 repeat 8193 {
26 3 => 26 repeat 0x100000003 {
26 3 => 26 repeat -1 {
30 3 => 30 65536: {
30 3 => 30 0x100000002: {
39 3 => 39 start pc 0x100001000 priv u
41 3 => 41 do rd in {32}|}";

/// Kind 4.
const UNKNOWN_NAME: &str = "\
1 4 => 1 vectors odd
6 4 => 6 vectors none
7 4 => 7 set odd = near
8 4 => 8 set near = near
8 4 => 8 set near = od
8 4 => 8 set near = oddd
10 4 => 10 name n2 in n1
10 4 => 10 name n2 in n2
15 4 => 15 csr mtvecc = 0
15 4 => 15 csr addi = 0
15 4 => 15 csr mie = 0
15 4 => 15 csr x5 = 0
15 4 => 15 csr odd = 0
20 4 => 20 do target == top
21 4 => 21 do op in {addi, foo}
21 4 => 21 do op in {mtvec}
21 4 => 21 do op not in {addi, odd}
21 4 => 21 do csr in {addi}
21 4 => 21 do csr in {mtvec, mie}
21 4 => 21 do rd in odd2
21 4 => 21 do rd in n1
21 4 => 21 do prefer imm not in near2
21 4 => 21 do imm == odd
21 4 => 21 do taken; imm == top2
21 4 => 21 do rs1 == rs1
21 4 => 21 do b == a
21 4 => 21 do imm == rd
21 4 => 21 do rs1 == a
21 4 => 21 do imm == add
21 4 => 21 do a == a
31 4 => 31 do target == end
41 4 => 41 do target == end|}";

/// Kind 5.
const DOUBLE_NAME: &str = "\
8 5 => 8 set odd = {1}
9 5 => 9 name odd in {1}
10 5 => 10 name n1 in {1}
20 5 => 20 label n1
20 5 => 20 label near
22 5 => 22 label top
22 5 => 22 label n2
31 5 => 31 label top
41 5 => 41 label top|}";

/// Kind 6.
const NAME_TWICE_IN_LEAF: &str = "\
21 6 => 21 do rs1 == n1; rs2 == n1
21 6 => 21 do rs1 == n1; rs1 == n1
21 6 => 21 do rs1 == n1; taken; rd == n2; prefer imm == n1
24 6 => 24 do prefer rs1 == n2; prefer imm == n2
31 6 => 31 do target == top; rs1 == rs2; imm == top
41 6 => 41 do a == n1; b == n1|}";

/// Kind 7.
const EMPTY_DOMAIN: &str = "\
1 7 => 1 set q1 = {5..4}
1 7 => 1 vectors {1..3}
6 7 => 6 vectors {0x80000101, 0x80000102}
6 7 => 6 vectors {5..4}
6 7 => 6 vectors {1..7} align 8
7 7 => 6 set q1 = {1}|vectors q1
7 7 => 7 set odd = {1..3} align 4
7 7 => 7 set odd = {5..4, 9..8}
9 7 => 9 name n1 in {-1..-2}
9 7 => 9 name n1 in {0xfffffffc..3}
21 7 => 21 do rd in {5..4}
21 7 => 21 do imm not in {1..3} align 8
21 7 => 21 do taken; prefer ea in {1..0}
41 7 => 41 do pa in {1..0}|}";

/// Kind 8.
const TOO_DEEP: &str = "\
39 8 => 24 seq {|seq {|seq {|seq {|seq {|seq {|seq {|seq {|seq {|seq {|seq {|seq {|seq {|seq {|seq {|seq {|
42 8 => 27 seq {|seq {|seq {|seq {|seq {|seq {|seq {|seq {|seq {|seq {|seq {|seq {|seq {|seq {|choose {|1: {";

/// Kind 9.
const TOO_LONG: &str = "\
36 9 => 26 repeat 8192 {
36 9 => 26 repeat 8188 {
43 9 => 41 repeat 8185 {|}|}
44 9 => 41 repeat 8184 {|}|do|}
46 9 => 27 repeat 8192 {|repeat 8192 {|repeat 8192 {|repeat 8192 {|repeat 8192 {|}|}|}|}|}|";

/// Kind 10.
const TOO_MANY: &str = "\
1 10 => 1 pteflags 0 0 0 0 0 0 0 0 0
4 10 => 4 tables 0 1 2 3 4 5 6 7 8
5 10 => 5 pteflags 0xcf 0xcf 0xcf 0xcf 0xcf 0xcf 0xcf 0xcf 0xcf";

/// Kind 11.
const BAD_RAM: &str = "\
1 11 => 1 ram 0x80000000 0x80000000
1 11 => 1 ram 0x80000800 0x80010000
1 11 => 1 ram 0x80000000 0x80010001
1 11 => 1 ram 0x80010000 0x80000000
1 11 => 1 ram 0x80000000 0x84001000
2 11 => 2 ram 0x8000f000 0x80011000
2 11 => 2 ram 0x80000000 0x80010000
2 11 => 2 ram 0x7ffff000 0x80001000
2 11 => 2 ram 0x7ffff000 0x80011000
2 11 => 2 ram 0x80001000 0x80002000
2 11 => 2 ram 0xfffff000 0xffffffff
2 11 => 2 ram 0xfffff000 0
3 11 => 3 pool 0x80010000
3 11 => 3 pool 0x7ffff000
3 11 => 3 pool 0x80000800
3 11 => 3 pool 0x80000000 0x80000000
3 11 => 3 pool 0x80000000 0x80010000
3 11 => 3 pool 0x1000
3 11 => 3 pool 0xfffff000
4 11 => 4 tables 0x80001000
4 11 => 4 tables 0x80002000 0x80002000
4 11 => 4 tables 0x80002004
4 11 => 4 tables 0x1000
4 11 => 4 pool 0x80001000
5 11 => 4 tables 0x80002000|pool 0x80002000
5 11 => 5 pteflags 1
5 11 => 5 pteflags 0x11
5 11 => 5 pteflags 0 0xf1
5 11 => 5 pteflags 0x81 0
11 11 => 11 data 0x80001ffe = 7
11 11 => 11 data 0x80001ffd = 7
11 11 => 11 data 0x80010000 = 7
11 11 => 11 data 0x7ffffffc = 7
11 11 => 11 data 0x1000 = 7
11 11 => 11 data 0xfffffffc = 7
11 11 => 11 data 0xffffffff = 7
12 11 => 12 data 0x80001ffc = 7
12 11 => 12 data 0x80001ffc = 8
2 11 => 1 ram 0x80000000 0x84000000
2 11 => 2 ram 0x10000000 0x13ff1000";

/// Kind 12.
const BAD_START: &str = "\
1 12 => 1 hart 1 {
13 12 => 13 hart 1 {
13 12 => 13 hart -1 {
13 12 => 13 hart 4 {
14 12 => 14 start pc 0x80000002 priv m
14 12 => 14 start pc 1 priv u
14 12 => 14 start pc -1 priv s
15 12 => 15 csr mtvec = 0x80000102
15 12 => 15 csr mstatus = 0x1000
17 12 => 17 csr mtvec = 0x80000100
17 12 => 17 csr satp = 1
18 12 => 18 reg x31 = -1
18 12 => 18 reg x031 = 0
18 12 => 18 csr satp = 0
18 12 => 18 csr mtvec = 0
38 12 => 38 hart 0 {
38 12 => 38 hart 2 {
38 12 => 38 hart 0xffffffff {
39 12 => 39 start pc 0x1002 priv u";

#[test]
fn bytes_and_forms_are_told(rt: HostRuntime) -> Result<(), Fail> {
    compare_all(&rt, rt.alloc(), BAD_BYTE)?;
    compare_all(&rt, rt.alloc(), UNEXPECTED)
}

#[test]
fn numbers_and_names_are_told(rt: HostRuntime) -> Result<(), Fail> {
    compare_all(&rt, rt.alloc(), NUMBER_TOO_LARGE)?;
    compare_all(&rt, rt.alloc(), UNKNOWN_NAME)?;
    compare_all(&rt, rt.alloc(), DOUBLE_NAME)?;
    compare_all(&rt, rt.alloc(), NAME_TWICE_IN_LEAF)
}

#[test]
fn domains_and_sizes_are_told(rt: HostRuntime) -> Result<(), Fail> {
    compare_all(&rt, rt.alloc(), EMPTY_DOMAIN)?;
    compare_all(&rt, rt.alloc(), TOO_DEEP)?;
    compare_all(&rt, rt.alloc(), TOO_LONG)?;
    compare_all(&rt, rt.alloc(), TOO_MANY)
}

#[test]
fn memories_and_starts_are_told(rt: HostRuntime) -> Result<(), Fail> {
    compare_all(&rt, rt.alloc(), BAD_RAM)?;
    compare_all(&rt, rt.alloc(), BAD_START)
}
