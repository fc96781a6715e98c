//! Problems with domains of all words, which are told by the manuals' rules.
use crate::small::{domains_of, has_empty, narrowed};
use dom_set::Set;
use fd_prob::Slot;
use problem_rows::{case_of, set_of, variable_of};
use rv_isa::Op;
use std::alloc::Global;
use std::process::Abort;
use std::test::Fail;

// Each row has a case, a variable, and its domain after narrowing.

const LARGE: &str = "\
add a=all b=5..9; same a b => a 5..9
add a=all b=7; differ a b => a 0..6,8..0xffffffff
lw a=0x1000 imm=signed ea=all; sum a imm ea => ea 0x800..0x17ff
lw a=all imm=signed ea=0x80000000..0x80000fff; sum a imm ea => a 0x7ffff801..0x800017ff
lw a=all imm=signed ea=all; sum a imm ea => a all
lw a=0x80000000..0x80000fff imm=signed ea=0x800017f0..0x80002000; sum a imm ea => imm 0x7f1..0x7ff
blt a=all; taken => a 0x80000000..0xffffffff
bge a=all; taken => a 0..0x7fffffff
blt b=all; taken => b 1..0x7fffffff
bltu a=all b=5; taken => a 0..4
bltu a=all b=5; not_taken => a 5..0xffffffff
bgeu a=5 b=all; taken => b 0..5
add rs1=2 a=all; holds rs1 a 5 - 7 5 => a 7
add rs1=0,2..3 a=all; holds rs1 a 5 - 7 5 => a 5,7
add rs1=0..3 a=all; holds rs1 a 5 - 7 5 => a all
jal imm=all; target 0x80000000 0x80000000..0x80000003 => imm 0..3
jalr a=all; target 0 0x2000 => a 0x2000..0x2001
jalr a=all imm=signed; target 0 0x2000 => a 0x1801..0x2801
csrrw csr=0x180 a=all; writes => a 0,0x80000000..0x800fffff
csrrs csr=0x305 rs1=1 old=all a=3..9; writes => a 4,8
csrrs csr=0x140 rs1=1 old=all a=3..9; writes => a 3..9
csrrc csr=0x305 rs1=1 old=all a=3..9; writes => a 3..9
csrrc csr=0xf14 rs1=1 a=all; writes => a none
csrrs csr=0x301 rs1=1 a=all; writes => a none
csrrci csr=0xf14 imm=each; writes => imm 0
csrrsi csr=0x301 imm=each; writes => imm 0
csrrc csr=0x180 rs1=1 old=all a=all; writes => a all";

/// The fewer numbers are taken one by one.
const FEW: &str = "\
sw a=0x1000,0x5000 imm=signed ea=0x1400..0x3fff; sum a imm ea => ea 0x1400..0x17ff
sw a=0..0xffff imm=signed ea=0x3000,0x9000; sum a imm ea => a 0x2801..0x3800,0x8801..0x9800
lw ea=all root=6 leaf=8; rows 1..2 5 7 0 / 4 6 7..8 0..9 => ea 4
lw a=all b=all imm=4 ea=104..107; same a b; sum a imm ea => b 100..103
lw ea=4 root=6 leaf=8 word=all; rows 1..2 5 7 0 / 4 6 7..8 0..9 => word 0..9";

/// A sum that names a variable twice.
const OF_ITSELF: &str = "\
lw a=all ea=0x80000002; sum a a ea => a 0x40000001,0xc0000001
lw a=all ea=0xffffffff; sum a a ea => a none
lw a=all ea=all; sum a ea a => ea 0
lw a=all; sum a a a => a 0";

/// A chain of equal variables, of which each pass makes one more known.
const CHAIN: &str = "\
add op=all rd=all rs1=all rs2=all imm=all csr=all a=all b=all old=all ea=all root=all leaf=all word=all vector=7; same op rd; same rd rs1; same rs1 rs2; same rs2 imm; same imm csr; same csr a; same a b; same b old; same old ea; same ea root; same root leaf; same leaf word; same word vector => op 7";

/// What two relations together say of the values of rs1 and rs2.
const TOGETHER: &str = "\
bne a=all b=all; taken; same a b => a none
add a=all b=all; differ b a; same a b => a none
blt a=all b=all; taken; not_taken => a none
bltu rs1=4 rs2=4 a=all b=all; linked; taken => a none
bltu rs1=4 rs2=5 a=all b=all; linked; taken => b 1..0xffffffff";

/// An index that is its own value.
const OWN: &str = "\
add a=all; holds a a 5 1 - 3 0 => a 1..3,5..0xffffffff";

/// Sums and differences with one number are exact.
const ONE_ADDED: &str = "\
lw a=5 imm=0..20,40..60 ea=all; sum a imm ea => ea 5..25,45..65
lw a=0..20,40..60 imm=5 ea=all; sum a imm ea => ea 5..25,45..65
lw a=all imm=5 ea=5..25,45..65; sum a imm ea => a 0..20,40..60";

fn is_left(alloc: Global, row: &str) -> Result<bool, Fail> {
    let (text, want) = row.split_once(" => ").ok_or("what is left")?;
    let (name, wanted) = want.split_once(' ').ok_or("a domain")?;
    let after = narrowed(alloc, &case_of(alloc, text)?)?;
    Ok(*after.domain(variable_of(name)?) == set_of(alloc, wanted)?)
}

pub fn compare_all(rt: &impl Abort, alloc: Global, rows: &str) -> Result<(), Fail> {
    for row in rows.split('\n') {
        assert!(rt; is_left(alloc, row)?, "at {row}");
    }
    Ok(())
}

#[test]
fn large_domains_are_cut_by_their_bounds(rt: HostRuntime) -> Result<(), Fail> {
    for rows in [LARGE, FEW, OF_ITSELF, CHAIN, TOGETHER, OWN] {
        compare_all(&rt, rt.alloc(), rows)?;
    }
    Ok(())
}

#[test]
fn sums_with_one_number_are_exact(rt: HostRuntime) -> Result<(), Fail> {
    compare_all(&rt, rt.alloc(), ONE_ADDED)
}

// Each row has a case, a variable, how many values it has after narrowing, and some that it has and lacks.

/// The words that are legal for each register of S.
const LEGAL_IN_S: &str = "\
csrrw csr=0x100 a=all; writes => a 32 none none
csrrw csr=0x105 a=all; writes => a 1073741824 none none
csrrw csr=0x140 a=all; writes => a 4294967296 none none
csrrw csr=0x142 a=all; writes => a 13 none none
csrrw csr=0x180 a=all; writes => a 1048577 none none";

/// Those of M, of mhartid, which has none, and of what is no register here.
const LEGAL_IN_M: &str = "\
csrrw csr=0x300 a=all; writes => a 3072 none none
csrrw csr=0x302 a=all; writes => a 8192 none none
csrrw csr=0x305 a=all; writes => a 1073741824 none none
csrrw csr=0x342 a=all; writes => a 14 none none
csrrw csr=0x343 a=all; writes => a 4294967296 none none
csrrw csr=0xf14 a=all; writes => a 0 none none
csrrw csr=0x301 a=all; writes => a 0 none none";

/// 32 numbers that are 256 apart, and 100 in a row.
const FEW_ADDED: &str = "\
lw a=0x80000000..0x80001fff/256 imm=1000..1099 ea=all; sum a imm ea => ea 3200 none none
lw a=1000..1099 imm=0x80000000..0x80001fff/256 ea=all; sum a imm ea => ea 3200 none none
lw a=all imm=1000..1099 ea=0x80000000..0x80001fff/256; sum a imm ea => a 3200 none none
lw a=all imm=0x80000000..0x80001fff/256 ea=1000..1099; sum a imm ea => a 3200 none none
lw a=all ea=0x80000000..0x80001fff/256; sum a a ea => a 64 none none
lw a=all ea=15; sum a a ea => a 0 none none";

/// Whether no element of the first set is one of the second.
fn are_apart(alloc: Global, first: &Set, second: &Set) -> Result<bool, Fail> {
    Ok(first.and(alloc, second)?.size() == 0)
}

/// The row's part behind the case.
fn compare_counted(rt: &impl Abort, alloc: Global, domain: &Set, want: &str) -> Result<(), Fail> {
    let (count, words) = want.split_once(' ').ok_or("how many there are")?;
    let (has, lacks) = words.split_once(' ').ok_or("some that it has")?;
    assert_eq!(rt; domain.size(), count.parse()?, "for {want}");
    let missing = set_of(alloc, has)?.minus(alloc, domain)?;
    assert_eq!(rt; missing.size(), 0, "for {want}");
    assert!(rt;
        are_apart(alloc, domain, &set_of(alloc, lacks)?)?,
        "for {want}"
    );
    Ok(())
}

pub fn compare_counts(rt: &impl Abort, alloc: Global, rows: &str) -> Result<(), Fail> {
    for row in rows.split('\n') {
        let (text, want) = row.split_once(" => ").ok_or("what is left")?;
        let (name, want) = want.split_once(' ').ok_or("a variable")?;
        let after = narrowed(alloc, &case_of(alloc, text)?)?;
        compare_counted(rt, alloc, after.domain(variable_of(name)?), want)?;
    }
    Ok(())
}

#[test]
fn each_register_of_s_has_its_legal_words(rt: HostRuntime) -> Result<(), Fail> {
    compare_counts(&rt, rt.alloc(), LEGAL_IN_S)
}

#[test]
fn each_register_of_m_has_its_legal_words(rt: HostRuntime) -> Result<(), Fail> {
    compare_counts(&rt, rt.alloc(), LEGAL_IN_M)
}

#[test]
fn sums_of_few_numbers_and_a_range_are_exact(rt: HostRuntime) -> Result<(), Fail> {
    compare_counts(&rt, rt.alloc(), FEW_ADDED)
}

/// Whether multiples of 4 in a page and immediates that leave a remainder add up to multiples of 4.
fn may_add_up(alloc: Global, remainder: u32) -> Result<bool, Fail> {
    let text = format!(in alloc; "sw a=page/4 imm=signed/4+{remainder} ea=all/4; sum a imm ea")?;
    Ok(!has_empty(&narrowed(alloc, &case_of(alloc, &text)?)?))
}

#[test]
fn sums_leave_what_their_parts_do(rt: HostRuntime) -> Result<(), Fail> {
    for remainder in 0..4 {
        assert_eq!(rt; may_add_up(rt.alloc(), remainder)?, remainder == 0);
    }
    Ok(())
}

/// Whether, after narrowing, the variable has values that leave the remainder when they are divided by 4.
fn leaves(alloc: Global, text: &str, slot: Slot, remainder: u32) -> Result<bool, Fail> {
    let after = narrowed(alloc, &case_of(alloc, text)?)?;
    let class = set_of(alloc, &format!(in alloc; "all/4+{remainder}")?)?;
    Ok(!are_apart(alloc, after.domain(slot), &class)?)
}

/// Addresses in a page and immediates, all of which leave one remainder each: what their sums and their
/// differences leave.
fn compare_remainders(rt: &impl Abort, alloc: Global, first: u32, second: u32) -> Result<(), Fail> {
    let sum = format!(in alloc; "lw a=page/4+{first} imm=signed/4+{second} ea=all; sum a imm ea")?;
    let difference = format!(in alloc;
        "lw ea=page/4+{first} imm=signed/4+{second} a=all; sum a imm ea"
    )?;
    for remainder in 0..4 {
        assert_eq!(rt;
            leaves(alloc, &sum, Slot::Ea, remainder)?,
            first.wrapping_add(second) % 4 == remainder
        );
        assert_eq!(rt;
            leaves(alloc, &difference, Slot::A, remainder)?,
            second.wrapping_add(remainder) % 4 == first
        );
    }
    Ok(())
}

#[test]
fn sums_and_differences_leave_what_their_parts_do(rt: HostRuntime) -> Result<(), Fail> {
    for first in 0..4 {
        for second in 0..4 {
            compare_remainders(&rt, rt.alloc(), first, second)?;
        }
    }
    Ok(())
}

#[test]
fn a_copy_is_narrowed_alone(rt: HostRuntime) -> Result<(), Fail> {
    let alloc = rt.alloc();
    let case = case_of(alloc, "add a=all; same a b")?;
    let domains = domains_of(alloc, &case)?;
    let copy = domains
        .copy(alloc)?
        .narrowed(alloc, Op::Add, case.rels.as_slice())?;
    assert_eq!(rt; copy.domain(Slot::A).size(), 1);
    assert_eq!(rt; domains.domain(Slot::A).size(), 1 << 32);
    assert_eq!(rt; domains.count(), 14);
    Ok(())
}
