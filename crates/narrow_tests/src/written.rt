//! Problems of what is written to control and status registers.
use crate::{large, small};
use std::test::Fail;

// Each row has a case, and three variables whose domains are compared with a plain search; only the first has more
// than one value to be searched.

const MOVES: &str = "\
csrrw csr=0x100 rs1=3 a=0..0x130,0xbfffe..0xc0003 imm=0..0x130,0xbfffe..0xc0003 old=0; writes => a vector rd
csrrw csr=0x300 rs1=3 a=privileges imm=privileges old=0; writes => a vector rd
csrrw csr=0x180 rs1=0 a=roots imm=roots old=0; writes => a vector rd
csrrw csr=addresses rs1=3 a=0 imm=0 old=0; writes => csr vector rd
csrrw csr=addresses rs1=3 a=1 imm=1 old=0; writes => csr vector rd
csrrw csr=addresses rs1=3 a=12 imm=12 old=0; writes => csr vector rd
csrrw csr=addresses rs1=3 a=0x22 imm=0x22 old=0; writes => csr vector rd
csrrw csr=addresses rs1=0 a=0x1000 imm=0x1000 old=0; writes => csr vector rd
csrrw csr=addresses rs1=0 a=0x1800 imm=0x1800 old=0; writes => csr vector rd
csrrw csr=addresses rs1=0 a=0x80000001 imm=0x80000001 old=0; writes => csr vector rd
csrrwi csr=0x342 rs1=0 a=each imm=each old=0; writes => imm vector rd
csrrwi csr=0x180 rs1=0 a=each imm=each old=0; writes => imm vector rd
csrrwi csr=0xf14 rs1=0 a=each imm=each old=0; writes => imm vector rd
csrrwi csr=addresses rs1=0 a=10 imm=10 old=0; writes => csr vector rd
csrrwi csr=addresses rs1=0 a=31 imm=31 old=0; writes => csr vector rd
csrrwi csr=0xf14,70000 rs1=0 a=0 imm=0 old=0; writes => csr vector rd";

const SETS: &str = "\
csrrs csr=0x142 rs1=0..3 a=1 imm=1 old=8; writes => rs1 vector rd
csrrs csr=0x142 rs1=0..3 a=2 imm=2 old=8; writes => rs1 vector rd
csrrs csr=0x142 rs1=1..3 a=2 imm=2 old=8; writes => rs1 vector rd
csrrs csr=0x300 rs1=0..3 a=0x1000 imm=0x1000 old=0x800; writes => rs1 vector rd
csrrs csr=0x300 rs1=0..3 a=0x1000 imm=0x1000 old=0; writes => rs1 vector rd
csrrs csr=0xf14 rs1=0..3 a=0 imm=0 old=0; writes => rs1 vector rd
csrrs csr=0x142 rs1=3 a=0..40 imm=0..40 old=8; writes => a vector rd
csrrs csr=0x142 rs1=3 a=0..40 imm=0..40 old=10; writes => a vector rd
csrrs csr=0x142 rs1=0 a=0..40 imm=0..40 old=10; writes => a vector rd
csrrs csr=0x302 rs1=3 a=0x3fe..0x401 imm=0x3fe..0x401 old=0x400; writes => a vector rd
csrrs csr=0x305 rs1=3 a=0..40 imm=0..40 old=2; writes => a vector rd
csrrs csr=0x305 rs1=3 a=0..40 imm=0..40 old=8; writes => a vector rd
csrrs csr=0x300 rs1=3 a=privileges imm=privileges old=0x800; writes => a vector rd
csrrs csr=0x180 rs1=3 a=roots imm=roots old=0; writes => a vector rd
csrrs csr=0x180 rs1=3 a=roots imm=roots old=5; writes => a vector rd
csrrs csr=0x180 rs1=3 a=roots imm=roots old=0x80000002; writes => a vector rd
csrrs csr=0x142 rs1=3 a=5 imm=5 old=0..40; writes => old vector rd
csrrs csr=0x142 rs1=0 a=5 imm=5 old=0..40; writes => old vector rd
csrrs csr=0x300 rs1=3 a=0x1000 imm=0x1000 old=privileges; writes => old vector rd
csrrs csr=0x180 rs1=3 a=0x80000000 imm=0x80000000 old=roots; writes => old vector rd
csrrs csr=0x305 rs1=3 a=1 imm=1 old=0..40; writes => old vector rd
csrrs csr=addresses rs1=3 a=4 imm=4 old=8; writes => csr vector rd
csrrs csr=addresses rs1=3 a=2 imm=2 old=8; writes => csr vector rd
csrrs csr=addresses rs1=0 a=2 imm=2 old=8; writes => csr vector rd
csrrsi csr=0x142 rs1=0 a=each imm=each old=8; writes => imm vector rd
csrrsi csr=0x142 rs1=0 a=each imm=each old=10; writes => imm vector rd
csrrsi csr=0x180 rs1=0 a=each imm=each old=7; writes => imm vector rd
csrrsi csr=0xf14 rs1=0 a=each imm=each old=0; writes => imm vector rd
csrrsi csr=0x342 rs1=0 a=3 imm=3 old=0..40; writes => old vector rd
csrrsi csr=0x342 rs1=0 a=0 imm=0 old=0..40; writes => old vector rd
csrrsi csr=addresses rs1=0 a=4 imm=4 old=8; writes => csr vector rd
csrrsi csr=addresses rs1=0 a=0 imm=0 old=8; writes => csr vector rd";

const CLEARS: &str = "\
csrrc csr=0x142 rs1=0..3 a=2 imm=2 old=14; writes => rs1 vector rd
csrrc csr=0x142 rs1=0..3 a=4 imm=4 old=14; writes => rs1 vector rd
csrrc csr=0x142 rs1=2 a=4 imm=4 old=14; writes => rs1 vector rd
csrrc csr=0x300 rs1=0..3 a=0x800 imm=0x800 old=0x1800; writes => rs1 vector rd
csrrc csr=0xf14 rs1=0..3 a=0 imm=0 old=0; writes => rs1 vector rd
csrrc csr=0x142 rs1=3 a=0..40 imm=0..40 old=15; writes => a vector rd
csrrc csr=0x142 rs1=3 a=0..40 imm=0..40 old=10; writes => a vector rd
csrrc csr=0x142 rs1=0 a=0..40 imm=0..40 old=10; writes => a vector rd
csrrc csr=0x302 rs1=3 a=0x3fe..0x401 imm=0x3fe..0x401 old=0x401; writes => a vector rd
csrrc csr=0x305 rs1=3 a=0..40 imm=0..40 old=7; writes => a vector rd
csrrc csr=0x300 rs1=3 a=privileges imm=privileges old=0x1800; writes => a vector rd
csrrc csr=0x300 rs1=3 a=privileges imm=privileges old=0x1000; writes => a vector rd
csrrc csr=0x180 rs1=3 a=roots imm=roots old=0; writes => a vector rd
csrrc csr=0x180 rs1=3 a=roots imm=roots old=0x80000002; writes => a vector rd
csrrc csr=0x180 rs1=3 a=roots imm=roots old=0x80100001; writes => a vector rd
csrrc csr=0x142 rs1=3 a=5 imm=5 old=0..40; writes => old vector rd
csrrc csr=0x142 rs1=0 a=5 imm=5 old=0..40; writes => old vector rd
csrrc csr=0x300 rs1=3 a=0x800 imm=0x800 old=privileges; writes => old vector rd
csrrc csr=0x180 rs1=3 a=0x80000000 imm=0x80000000 old=roots; writes => old vector rd
csrrc csr=0xf14 rs1=3 a=1 imm=1 old=0..40; writes => old vector rd
csrrc csr=addresses rs1=3 a=3 imm=3 old=15; writes => csr vector rd
csrrc csr=addresses rs1=3 a=5 imm=5 old=15; writes => csr vector rd
csrrc csr=addresses rs1=0 a=5 imm=5 old=15; writes => csr vector rd
csrrci csr=0x142 rs1=0 a=each imm=each old=14; writes => imm vector rd
csrrci csr=0x305 rs1=0 a=each imm=each old=7; writes => imm vector rd
csrrci csr=0x180 rs1=0 a=each imm=each old=0x27; writes => imm vector rd
csrrci csr=0xf14 rs1=0 a=each imm=each old=0; writes => imm vector rd
csrrci csr=0x305 rs1=0 a=3 imm=3 old=0..40; writes => old vector rd
csrrci csr=0x342 rs1=0 a=0 imm=0 old=0..40; writes => old vector rd
csrrci csr=addresses rs1=0 a=3 imm=3 old=15; writes => csr vector rd
csrrci csr=addresses rs1=0 a=0 imm=0 old=15; writes => csr vector rd";

#[test]
fn writes_of_an_operand_keep_just_what_is_legal(rt: HostRuntime) -> Result<(), Fail> {
    small::compare_all(&rt, rt.alloc(), MOVES)
}

#[test]
fn sets_keep_just_what_is_legal(rt: HostRuntime) -> Result<(), Fail> {
    small::compare_all(&rt, rt.alloc(), SETS)
}

#[test]
fn clears_keep_just_what_is_legal(rt: HostRuntime) -> Result<(), Fail> {
    small::compare_all(&rt, rt.alloc(), CLEARS)
}

// Each row has a case, a variable, and its domain after narrowing.

const LARGE: &str = "\
csrrs csr=0x302 rs1=1 a=all; writes => a delegations
csrrs csr=0x302 rs1=1 a=all old=0x8001; writes => a delegations
csrrs csr=0x302 rs1=1 a=all old=0x400; writes => a none
csrrs csr=0x180 rs1=1 a=all; writes => a 0,0x80000000..0x800fffff
csrrs csr=0x180 rs1=1 a=all old=0x80000001; writes => a 0..0xfffff,0x80000000..0x800fffff
csrrs csr=0x180 rs1=1 a=all old=5; writes => a 0x80000000..0x800fffff
csrrs csr=0x180 rs1=1 a=all old=0x100000; writes => a none";

/// The operand is known, and the old value is not.
const OLD_VALUES: &str = "\
csrrs csr=0x180 rs1=1 a=0x80000000 old=all; writes => old 0..0xfffff,0x80000000..0x800fffff
csrrs csr=0x142 rs1=1 a=8 old=all; writes => old 0..1,4..5,7..9,12..13,15
csrrs csr=0x302 rs1=1 a=1 old=all; writes => old delegations
csrrc csr=0x180 rs1=1 a=0x80000000 old=all; writes => old 0,0x80000000
csrrc csr=0x180 rs1=1 a=0x1ff old=all; writes => old 0..0x1ff,0x80000000..0x800fffff
csrrci csr=0x142 imm=16 old=all; writes => old 0..9,12..13,15..25,28..29,31";

/// Neither is known.
const UNKNOWN: &str = "\
csrrs csr=0x142 rs1=1 a=all old=all; writes => old 0..15
csrrsi csr=0x180 imm=each old=all; writes => old all
csrrc csr=0xf14 rs1=1 a=all old=all; writes => a none";

/// No value of rs1 makes something legal of the old value.
const NO_REGISTER: &str = "\
csrrs csr=0x302 rs1=each a=all old=0x400; writes => rs1 0";

#[test]
fn of_all_words_those_are_left_that_make_legal_ones(rt: HostRuntime) -> Result<(), Fail> {
    for rows in [LARGE, OLD_VALUES, UNKNOWN, NO_REGISTER] {
        large::compare_all(&rt, rt.alloc(), rows)?;
    }
    Ok(())
}

// Each row has a case, a variable, how many values it has after narrowing, and some that it has and lacks.

/// The mode is kept, or all is cleared; MPP is not cleared to 2.
const COUNTED: &str = "\
csrrc csr=0x180 rs1=1 a=all old=0x80080210; writes => a 2415919104 0,1,0x7fffffff,0x80080210,0x80080211,0xffffffff 0x80000000,0x80080200,0x80080010,0x80000210,0xfff7ffff
csrrc csr=0x300 rs1=1 a=all old=0x1800; writes => a 3221225472 0,0x7ff,0x1000,0x1800,0xffffffff 0x800,0xfff,0x2800,0xffffefff
csrrs csr=0x300 rs1=1 a=all old=0x1000; writes => a 2048 0x800,0x1800,0x401800,0x5e19aa 0,0x1000,0x804,0x801,0x800800
csrrc csr=0x300 rs1=1 a=0x800 old=all; writes => old 2048 0,0x800,0x400800,0x5e09aa 0x1000,0x1800,1,0x801
csrrs csr=0x300 rs1=1 a=0x1000 old=all; writes => old 2048 0x800,0x1800,0x400800,0x5e19aa 0,0x1000,1,0x801";

#[test]
fn of_all_words_as_many_are_left_as_make_legal_ones(rt: HostRuntime) -> Result<(), Fail> {
    large::compare_counts(&rt, rt.alloc(), COUNTED)
}
