// Leaves that any operation of those that are built may meet.

use crate::reading::{one, two_frames};
use data_goals::Accesses;
use dom_set::Set;
use fd_solve::{Solved, solve};
use leaf_pose::{Stand, are_between, problem_of};
use rv_csr::{Csrs, Priv};
use rv_isa::{OPS, Op};
use std::alloc::Global;
use std::process::Abort;
use std::test::Fail;
use tpl_ast::{Atom, Var};

/// A hart in M of which nothing but x0 is known, and what loads and stores may do where that is told.
pub fn stand_with(vectors: &Set, accesses: Option<Accesses>) -> Stand<'_> {
    let mut registers = [None; 32];
    registers[0] = Some(0);
    Stand {
        pc: 0x8000_0000,
        privilege: Priv::M,
        csrs: Csrs::new(0, 0, 0, 0),
        registers,
        word: None,
        fetches: true,
        pairs: 1,
        accesses,
        sources: vectors,
        vectors,
        names: &[],
        others: &[],
    }
}

/// Whether some instruction of an operation can be started. Where it isn't told what they may do, loads and stores can't be posed.
fn fits(rt: &impl Abort, alloc: Global, stand: &Stand, op: Op) -> Result<bool, Fail> {
    let mut leaf = Vec::new(alloc);
    leaf.push(Atom::In(Var::Op, one(alloc, u32::from(op as u8))?))?;
    assert!(rt; are_between(&leaf));
    if !stand.are_posable(&leaf) {
        return Ok(false);
    }
    let posed = problem_of(alloc, stand, &leaf, &[0; 16])?;
    Ok(matches!(solve(alloc, &posed.problem, u64::MAX)?, Solved::Found(_)))
}

/// How many operations can be started.
fn how_many_fit(rt: &impl Abort, alloc: Global, accesses: Option<Accesses>) -> Result<u64, Fail> {
    let vectors = one(alloc, 0x8000_0200)?;
    let stand = stand_with(&vectors, accesses);
    let mut count = 0u64;
    for op in OPS {
        if fits(rt, alloc, &stand, op)? {
            count = count.wrapping_add(1);
        }
    }
    Ok(count)
}

#[test]
fn operations_that_fit(rt: HostRuntime) -> Result<(), Fail> {
    let alloc = rt.alloc();
    // all but 8 loads and stores
    assert_eq!(&rt; how_many_fit(&rt, alloc, None)?, 50);
    let accesses = two_frames(alloc)?;
    assert_eq!(&rt; how_many_fit(&rt, alloc, Some(accesses))?, 58);
    Ok(())
}

#[test]
fn cases_of_a_bare_leaf(rt: HostRuntime) -> Result<(), Fail> {
    let alloc = rt.alloc();
    let vectors = one(alloc, 0x8000_0200)?;
    let stand = stand_with(&vectors, None);
    let mut leaf = Vec::new(alloc);
    for (from, to) in [(10, 17), (48, 53)] {
        let others = Set::from_ranges(alloc, &[(from, to)], 1)?;
        leaf.push(Atom::NotIn(Var::Op, others))?;
    }
    assert!(&rt; are_between(&leaf));
    assert!(&rt; stand.are_posable(&leaf));
    let posed = problem_of(alloc, &stand, &leaf, &[0; 16])?;
    // a first case for each of 44 operations, a case for each of 36 that end in one way, two for each of the jumps and
    // three for each of the branches
    assert_eq!(&rt; posed.problem.cases.len(), 44 + 36 + 2 * 2 + 3 * 6);
    Ok(())
}

#[test]
fn cases_of_loads_and_stores(rt: HostRuntime) -> Result<(), Fail> {
    let alloc = rt.alloc();
    let vectors = one(alloc, 0x8000_0200)?;
    let accesses = two_frames(alloc)?;
    let stand = stand_with(&vectors, Some(accesses));
    let mut leaf = Vec::new(alloc);
    leaf.push(Atom::In(Var::Op, Set::from_ranges(alloc, &[(10, 17)], 1)?))?;
    assert!(&rt; are_between(&leaf));
    assert!(&rt; stand.are_posable(&leaf));
    let posed = problem_of(alloc, &stand, &leaf, &[0; 16])?;
    // of each of 8 operations a first case, and one for each of its goals that has an address: no byte is misaligned, and no
    // known one may be stored
    assert_eq!(&rt; posed.problem.cases.len(), 8 + 8 * 4 - 3 - 3);
    Ok(())
}
