//! Small problems, whose domains are compared with those of a plain search of all combinations.
ghost use Rattle.std.specs.Prelude.{◌≡◌};
ghost use Rattle.fd_prob.specs.Fitting.{IsCase};

use dom_set::Set;
use fd_narrow::Domains;
use fd_prob::{Assignment, Case, Rel, SLOTS, Slot, holds};
use problem_rows::{case_of, variable_of};
use rv_isa::Op;
use std::alloc::Global;
use std::process::Abort;
use std::test::Fail;

// Each row has a case of one relation, and three variables whose domains are compared.

const EQUALITIES: &str = "\
add a=1..5,9 b=4..10; same a b => a b vector
add a=1..5 b=7..9; same a b => a b vector
add a=1..5; same a a => a b vector
add a=3 b=0..5; differ a b => a b vector
add a=0..5 b=5; differ a b => a b vector
add a=3..4 b=3..4; differ a b => a b vector
add a=3 b=3; differ a b => a b vector
add a=3..9; differ a a => a b vector
add rs1=4 rs2=4 a=1..5 b=3..9; linked => a b vector
add rs1=4 rs2=3 a=1..5 b=3..9; linked => a b vector
add rs1=4 rs2=3..5 a=0..2 b=5; linked => rs1 rs2 a
add rs1=3..5 rs2=3..5 a=0..2 b=2; linked => rs1 rs2 a
add rs1=3..5 rs2=4 a=1 b=2; linked => rs1 rs2 a
add rs1=4 rs2=3..5 a=1 b=2; linked => rs1 rs2 a
add rs1=3..5 rs2=4 a=2 b=2; linked => rs1 rs2 a";

const BRANCHES: &str = "\
beq a=0,3..6,0xfffffffe..0xffffffff b=5; taken => a b vector
beq a=0,3..6,0xfffffffe..0xffffffff b=5; not_taken => a b vector
beq a=0..3,0x7fffffff..0x80000001 b=0; taken => a b vector
beq a=0..3,0x7fffffff..0x80000001 b=0; not_taken => a b vector
beq a=0xffffffff b=0..3,0x7fffffff..0x80000001,0xffffffff; taken => a b vector
beq a=0xffffffff b=0..3,0x7fffffff..0x80000001,0xffffffff; not_taken => a b vector
bne a=0,3..6,0xfffffffe..0xffffffff b=5; taken => a b vector
bne a=0,3..6,0xfffffffe..0xffffffff b=5; not_taken => a b vector
bne a=0..3,0x7fffffff..0x80000001 b=0; taken => a b vector
bne a=0..3,0x7fffffff..0x80000001 b=0; not_taken => a b vector
bne a=0xffffffff b=0..3,0x7fffffff..0x80000001,0xffffffff; taken => a b vector
bne a=0xffffffff b=0..3,0x7fffffff..0x80000001,0xffffffff; not_taken => a b vector
blt a=0,3..6,0xfffffffe..0xffffffff b=5; taken => a b vector
blt a=0,3..6,0xfffffffe..0xffffffff b=5; not_taken => a b vector
blt a=0..3,0x7fffffff..0x80000001 b=0; taken => a b vector
blt a=0..3,0x7fffffff..0x80000001 b=0; not_taken => a b vector
blt a=0xffffffff b=0..3,0x7fffffff..0x80000001,0xffffffff; taken => a b vector
blt a=0xffffffff b=0..3,0x7fffffff..0x80000001,0xffffffff; not_taken => a b vector
bge a=0,3..6,0xfffffffe..0xffffffff b=5; taken => a b vector
bge a=0,3..6,0xfffffffe..0xffffffff b=5; not_taken => a b vector
bge a=0..3,0x7fffffff..0x80000001 b=0; taken => a b vector
bge a=0..3,0x7fffffff..0x80000001 b=0; not_taken => a b vector
bge a=0xffffffff b=0..3,0x7fffffff..0x80000001,0xffffffff; taken => a b vector
bge a=0xffffffff b=0..3,0x7fffffff..0x80000001,0xffffffff; not_taken => a b vector
bltu a=0,3..6,0xfffffffe..0xffffffff b=5; taken => a b vector
bltu a=0,3..6,0xfffffffe..0xffffffff b=5; not_taken => a b vector
bltu a=0..3,0x7fffffff..0x80000001 b=0; taken => a b vector
bltu a=0..3,0x7fffffff..0x80000001 b=0; not_taken => a b vector
bltu a=0xffffffff b=0..3,0x7fffffff..0x80000001,0xffffffff; taken => a b vector
bltu a=0xffffffff b=0..3,0x7fffffff..0x80000001,0xffffffff; not_taken => a b vector
bgeu a=0,3..6,0xfffffffe..0xffffffff b=5; taken => a b vector
bgeu a=0,3..6,0xfffffffe..0xffffffff b=5; not_taken => a b vector
bgeu a=0..3,0x7fffffff..0x80000001 b=0; taken => a b vector
bgeu a=0..3,0x7fffffff..0x80000001 b=0; not_taken => a b vector
bgeu a=0xffffffff b=0..3,0x7fffffff..0x80000001,0xffffffff; taken => a b vector
bgeu a=0xffffffff b=0..3,0x7fffffff..0x80000001,0xffffffff; not_taken => a b vector
add a=0,3..6,0xfffffffe..0xffffffff b=5; taken => a b vector
add a=0,3..6,0xfffffffe..0xffffffff b=5; not_taken => a b vector
add a=0..3,0x7fffffff..0x80000001 b=0; taken => a b vector
add a=0..3,0x7fffffff..0x80000001 b=0; not_taken => a b vector
add a=0xffffffff b=0..3,0x7fffffff..0x80000001,0xffffffff; taken => a b vector
add a=0xffffffff b=0..3,0x7fffffff..0x80000001,0xffffffff; not_taken => a b vector";

const ORDERS: &str = "\
blt a=3..6,0xfffffffe..0xffffffff b=2..4,0x80000000..0x80000001; taken => a b vector
blt a=3..6,0xfffffffe..0xffffffff b=2..4,0x80000000..0x80000001; not_taken => a b vector
bge a=3..6,0xfffffffe..0xffffffff b=2..4,0x80000000..0x80000001; taken => a b vector
bge a=3..6,0xfffffffe..0xffffffff b=2..4,0x80000000..0x80000001; not_taken => a b vector
bltu a=3..6,0xfffffffe..0xffffffff b=2..4,0x80000000..0x80000001; taken => a b vector
bltu a=3..6,0xfffffffe..0xffffffff b=2..4,0x80000000..0x80000001; not_taken => a b vector
bgeu a=3..6,0xfffffffe..0xffffffff b=2..4,0x80000000..0x80000001; taken => a b vector
bgeu a=3..6,0xfffffffe..0xffffffff b=2..4,0x80000000..0x80000001; not_taken => a b vector";

const TABLES: &str = "\
add rs1=0..5 a=5..6; holds rs1 a 5 - 7 5 => rs1 a vector
add rs1=0..5 a=7; holds rs1 a 5 - 7 5 => rs1 a vector
add rs1=0 a=0..9; holds rs1 a 5 - 7 5 => rs1 a vector
add rs1=3 a=0..9; holds rs1 a 5 - 7 5 => rs1 a vector
add rs1=0,2..3 a=0..9; holds rs1 a 5 - 7 5 => rs1 a vector
add rs1=2 a=0..9; holds rs1 a 5 - 7 5 => rs1 a vector
add rs1=1 a=0..9; holds rs1 a 5 - 7 5 => rs1 a vector
add rs1=9 a=0..9; holds rs1 a 5 - 7 5 => rs1 a vector
add rs1=0,2..3 a=0..4; holds rs1 a 5 - 7 5 => rs1 a vector
add rs1=0..9; holds rs1 rs1 5 1 - 3 0 => rs1 a vector
add rs1=0,4; holds rs1 rs1 5 1 - 3 0 => rs1 a vector
add rs1=3; holds rs1 rs1 5 1 - 3 0 => rs1 a vector";

const TARGETS: &str = "\
jal imm=0..4,0xfffffff0..0xffffffff; target 8 0..2,0xfffffffc..0xffffffff => a imm vector
jalr a=0x1000 imm=0..20; target 0 0x1004,0x1009 => a imm vector
jalr a=0..20,0xfffffff0..0xffffffff imm=1; target 0 0..5 => a imm vector
jalr a=0..8 imm=0..8; target 0 4 => a imm vector
add imm=0..20; target 0 0..20 => a imm vector";

const BRANCH_TARGETS: &str = "\
beq imm=0..20; target 0x1000 0x1008..0x100f => a imm vector
bne imm=0..20; target 0x1000 0x1008..0x100f => a imm vector
blt imm=0..20; target 0x1000 0x1008..0x100f => a imm vector
bge imm=0..20; target 0x1000 0x1008..0x100f => a imm vector
bltu imm=0..20; target 0x1000 0x1008..0x100f => a imm vector
bgeu imm=0..20; target 0x1000 0x1008..0x100f => a imm vector";

const WRITES: &str = "\
csrrw csr=0x142 a=0..20 imm=each; writes => a imm vector
csrrwi csr=0x142 a=0..20 imm=each; writes => a imm vector
csrrsi csr=0x142 a=0..20 imm=each; writes => a imm vector
add csr=0x142 a=0..20 imm=each; writes => a imm vector
csrrw csr=0x342 a=5..40; writes => a imm vector
csrrw csr=0x305 a=5..40; writes => a imm vector
csrrw csr=0x180 a=0..3,0x7ffffffe..0x80000002,0x800ffffe..0x80100002; writes => a imm vector
csrrw csr=0x300 a=0x1000..0x1023; writes => a imm vector
csrrw csr=0xf14 a=0..3; writes => a imm vector
csrrw csr=0x999 a=0..3; writes => a imm vector
csrrs csr=0x302 rs1=3 a=0x3fe..0x440; writes => a imm vector
csrrs csr=0x302 a=0x3fe..0x440; writes => a imm vector
csrrc csr=0x142 rs1=3 old=15 a=each; writes => a imm vector
csrrci csr=0x142 old=14 imm=each; writes => a imm vector
csrrs csr=0x302 rs1=3 a=1 old=0x3fe..0x440; writes => a imm old
csrrci csr=0x142 old=0..40 imm=1; writes => a imm old
csrrsi csr=0x142 old=0..40; writes => a imm old";

const ROWS: &str = "\
lw ea=0..10 root=5..6 leaf=7; rows 1..2 5 7 0 / 4 6 7..8 0..9 => ea root leaf
lw ea=0..10 root=5 leaf=7..8; rows 1..2 5 7 0 / 4 6 7..8 0..9 => ea root leaf
lw ea=0..10 root=0..9 leaf=8..9; rows 1..2 5 7 0 / 4 6 7..8 0..9 => ea root leaf
lw ea=3 root=5..6 leaf=7; rows 1..2 5 7 0 / 4 6 7..8 0..9 => ea root leaf
lw ea=4 root=5..6 leaf=7; rows 1..2 5 7 0 / 4 6 7..8 0..9 => ea root leaf
lw ea=3; rows => ea root leaf
lw ea=4 leaf=8 word=0..20; rows 1..2 0 7 3..5 / 4 0 7..8 5..9 / 4 6 7..8 0..2 => ea leaf word
lw ea=1..4 leaf=7 word=0..20; rows 1..2 0 7 3..5 / 4 0 7..8 5..9 / 4 6 7..8 0..2 => ea leaf word
lw ea=0..9 leaf=7..9 word=3; rows 1..2 0 7 3..5 / 4 0 7..8 5..9 / 4 6 7..8 0..2 => ea leaf word
lw ea=4 leaf=7 word=0..4; rows 1..2 0 7 3..5 / 4 0 7..8 5..9 / 4 6 7..8 0..2 => ea leaf word";

const SUMS: &str = "\
lw a=5 imm=0..3,0xfffffffe..0xffffffff ea=0..10; sum a imm ea => a imm ea
lw a=0..9 imm=0xfffffffe ea=0..4,0xfffffff0..0xffffffff; sum a imm ea => a imm ea
lw a=1..3 imm=10..12 ea=0..20; sum a imm ea => a imm ea
lw a=0..5 imm=0..5 ea=7; sum a imm ea => a imm ea
lw a=0..9 imm=4 ea=7,30..31; sum a imm ea => a imm ea
lw a=0xffffffff imm=0..3 ea=0..5; sum a imm ea => a imm ea
lw a=0xfffffffa..0xffffffff imm=4..8 ea=0..3; sum a imm ea => a imm ea
lw a=1..3 imm=1..3 ea=20..30; sum a imm ea => a imm ea
lw a=7 ea=0..20; sum a a ea => a imm ea
lw a=0..3 imm=5..6,0; sum a imm a => a imm ea
lw a=0..3 imm=5; sum a imm a => a imm ea
lw a=4 imm=0..3; sum imm a a => a imm ea
lw a=0..3; sum imm a a => a imm ea
lw a=0..9,0x80000000; sum a a a => a imm ea
lw a=0..20,0x80000000..0x80000014 ea=14; sum a a ea => a imm ea
lw a=0..20 ea=15; sum a a ea => a imm ea
lw a=5..9,0xfffffff9..0xffffffff ea=16,0xffffffff,0xfffffffe; sum a a ea => a imm ea";

// In few pieces a domain is cut at once.
const INSIDE: &str = "\
lw ea=0..10; in ea 3..5,9..20 => ea a imm
lw ea=3..4; in ea 5..9 => ea a imm
lw ea=0..10; in ea none => ea a imm
lw ea=0..40; in ea 0..64/8 => ea a imm
lw ea=0,2,4,6,8,10; in ea 1..5,9..20 => ea a imm
lw a=0..3,0xfffffffe..0xffffffff; in a 0xffffffff,1..2 => a ea imm";

/// The assignment that gives three variables a combination of their values, by its number, and the
/// others their least values.
fn assignment(domains: &Domains, slots: [Slot; 3], number: u64) -> Option<Assignment> {
    let mut values = [0u32; 14];
    for slot in SLOTS {
        values[slot.number()] = domains.domain(slot).first_from(0)?;
    }
    let mut rest = number;
    for slot in slots {
        let domain = domains.domain(slot);
        let size = domain.size();
        if size == 0 {
            return None;
        }
        values[slot.number()] = domain.nth(rest % size);
        rest /= size;
    }
    Some(Assignment { values })
}

/// How many combinations three variables have.
fn combinations(domains: &Domains, slots: [Slot; 3]) -> u64 {
    let mut product = 1u64;
    for slot in slots {
        product = product.saturating_mul(domains.domain(slot).size());
    }
    product
}

/// The values that a variable has in the combinations that meet the relation.
fn values_of(
    alloc: Global,
    op: Op,
    domains: &Domains,
    slots: [Slot; 3],
    rel: &Rel,
    slot: Slot,
) -> Result<Set, Fail> {
    let mut values = Vec::new(alloc);
    for number in 0..combinations(domains, slots) {
        if let Some(x) = assignment(domains, slots, number) {
            if holds(op, &x, rel) {
                values.push((x.value(slot), x.value(slot)))?;
            }
        }
    }
    Ok(Set::from_ranges(alloc, &values, 1)?)
}

pub fn has_empty(domains: &Domains) -> bool {
    for slot in SLOTS {
        if domains.domain(slot).size() == 0 {
            return true;
        }
    }
    false
}

pub fn domains_of(alloc: Global, case: &Case) -> Result<Domains, Fail>
    requires { IsCase case.now }
{
    Ok(Domains::of(alloc, case)?)
}

/// What the relations of a case leave of its domains.
pub fn narrowed(alloc: Global, case: &Case) -> Result<Domains, Fail>
    requires { IsCase case.now }
{
    let domains = domains_of(alloc, case)?;
    Ok(domains.narrowed(alloc, case.operation(), case.rels.as_slice())?)
}

/// Whether a variable keeps the values that it should; where it should have none, some domain is empty.
fn is_left(after: &Domains, slot: Slot, wanted: &Set) -> bool {
    if wanted.size() == 0 {
        has_empty(after)
    } else {
        *after.domain(slot) == *wanted
    }
}

/// Compares what is left of three variables' domains with a search of all combinations.
fn compare(rt: &impl Abort, alloc: Global, text: &str, slots: [Slot; 3]) -> Result<(), Fail> {
    let case = case_of(alloc, text)?;
    let before = domains_of(alloc, &case)?;
    let after = narrowed(alloc, &case)?;
    assert_eq!(rt; case.rels.len(), 1, "at {text}");
    let rel = &case.rels.as_slice()[0];
    for slot in slots {
        let wanted = values_of(alloc, case.operation(), &before, slots, rel, slot)?;
        assert!(rt; is_left(&after, slot, &wanted), "{slot:?} at {text}");
    }
    Ok(())
}

fn three(names: &str) -> Result<[Slot; 3], Fail> {
    let (first, rest) = names.split_once(' ').ok_or("three variables")?;
    let (second, third) = rest.split_once(' ').ok_or("three variables")?;
    Ok([
        variable_of(first)?,
        variable_of(second)?,
        variable_of(third)?,
    ])
}

pub fn compare_all(rt: &impl Abort, alloc: Global, rows: &str) -> Result<(), Fail> {
    for row in rows.split('\n') {
        let (text, names) = row.split_once(" => ").ok_or("three variables")?;
        compare(rt, alloc, text, three(names)?)?;
    }
    Ok(())
}

#[test]
fn equal_and_unequal_variables_keep_what_fits(rt: HostRuntime) -> Result<(), Fail> {
    compare_all(&rt, rt.alloc(), EQUALITIES)
}

#[test]
fn branches_keep_what_fits(rt: HostRuntime) -> Result<(), Fail> {
    compare_all(&rt, rt.alloc(), BRANCHES)
}

#[test]
fn ordered_variables_keep_what_fits(rt: HostRuntime) -> Result<(), Fail> {
    compare_all(&rt, rt.alloc(), ORDERS)
}

#[test]
fn tables_keep_what_fits(rt: HostRuntime) -> Result<(), Fail> {
    compare_all(&rt, rt.alloc(), TABLES)
}

#[test]
fn targets_keep_what_fits(rt: HostRuntime) -> Result<(), Fail> {
    compare_all(&rt, rt.alloc(), TARGETS)
}

#[test]
fn targets_of_all_branches_keep_what_fits(rt: HostRuntime) -> Result<(), Fail> {
    compare_all(&rt, rt.alloc(), BRANCH_TARGETS)
}

#[test]
fn writes_keep_what_is_legal(rt: HostRuntime) -> Result<(), Fail> {
    compare_all(&rt, rt.alloc(), WRITES)
}

#[test]
fn rows_keep_what_fits(rt: HostRuntime) -> Result<(), Fail> {
    compare_all(&rt, rt.alloc(), ROWS)
}

#[test]
fn sets_keep_what_is_in_them(rt: HostRuntime) -> Result<(), Fail> {
    compare_all(&rt, rt.alloc(), INSIDE)
}

#[test]
fn sums_keep_what_fits(rt: HostRuntime) -> Result<(), Fail> {
    compare_all(&rt, rt.alloc(), SUMS)
}
