// Fetches, with and without new page table entries.
ghost use Rattle.std.specs.Prelude.{IfOk};
ghost use Rattle.fd_prob.specs.Fitting.{IsProblem};

use crate::operations::stand_with;
use crate::reading::one;
use dom_set::{OutOfMemory, Set};
use fd_prob::Problem;
use fd_solve::{Solved, solve};
use fetch_ways::{EntryForms, FetchEnd, FetchWay};
use leaf_pose::{Stand, fault_problem, fetch_problem};
use rv_csr::Cause;
use std::alloc::Global;
use std::test::Fail;

/// New entries that may be chosen, 0 where one is not new, and where the fetch leads with them.
type Pair = (u32, u32, FetchEnd);

/// What is asked of a fetch: that it leads somewhere, or that it fails with a cause.
#[derive(Clone, Copy)]
enum Wanted {
    Leads,
    Fails(u32),
}

/// A set of two words.
fn two(alloc: Global, first: u32, second: u32) -> Result<Set, OutOfMemory> {
    Set::from_ranges(alloc, &[(first, first), (second, second)], 1)
}

/// Two pointers and two pages, as the forms of new entries.
fn two_of_each(alloc: Global) -> Result<EntryForms, OutOfMemory> {
    Ok(EntryForms {
        first: two(alloc, 0x2000_0401, 0x2000_0801)?,
        second: two(alloc, 0x2000_00cf, 0x2000_04cf)?,
    })
}

fn way_of(alloc: Global, pair: Pair) -> Result<FetchWay, OutOfMemory> {
    Ok(FetchWay {
        first: one(alloc, pair.0)?,
        second: one(alloc, pair.1)?,
        end: pair.2,
    })
}

/// A way for each pair.
fn ways_of(alloc: Global, pairs: &[Pair]) -> Result<Vec<FetchWay>, OutOfMemory> {
    let mut ways = Vec::new(alloc);
    for pair in pairs {
        ways.push(way_of(alloc, *pair)?)?;
    }
    Ok(ways)
}

fn pose(
    alloc: Global,
    stand: &Stand,
    forms: &EntryForms,
    ways: &[FetchWay],
    draws: &[u32; 16],
    wanted: Wanted,
) -> Result<Problem, OutOfMemory>
    ensures { IfOk result IsProblem }
{
    match wanted {
        Wanted::Leads => fetch_problem(alloc, stand, forms, 4, ways, draws),
        Wanted::Fails(cause) => {
            let causes = one(alloc, cause)?;
            fault_problem(alloc, stand, forms, 4, ways, draws, &causes)
        }
    }
}

fn posed(
    alloc: Global,
    stand: &Stand,
    pairs: &[Pair],
    draws: (u32, u32),
    wanted: Wanted,
) -> Result<Problem, OutOfMemory>
    ensures { IfOk result IsProblem }
{
    let forms = two_of_each(alloc)?;
    let ways = ways_of(alloc, pairs)?;
    let draws = [draws.0, draws.1, 0, 0, 0, 0, 0, 0, 0, 0, 0, 0, 0, 0, 0, 0];
    pose(alloc, stand, &forms, &ways, &draws, wanted)
}

/// The two entries and the vector of an answer that has 0 for all other variables.
fn started(solved: Solved) -> Option<(u32, u32, u32)> {
    match solved {
        Solved::Found(x) => {
            let v = x.values;
            if v == [0, 0, 0, 0, 0, 0, 0, 0, 0, v[9], v[10], 0, 0, v[13]] {
                Some((v[9], v[10], v[13]))
            } else {
                None
            }
        }
        _ => None,
    }
}

/// How many cases the problem of a fetch has, and what is found under a budget. Of all vectors one may be started.
fn answer(
    alloc: Global,
    pairs: &[Pair],
    draws: (u32, u32),
    wanted: Wanted,
    nodes: u64,
) -> Result<(usize, Solved), OutOfMemory> {
    let vectors = one(alloc, 0x8000_0200)?;
    let stand = stand_with(&vectors, None);
    let problem = posed(alloc, &stand, pairs, draws, wanted)?;
    let solved = solve(alloc, &problem, nodes)?;
    Ok((problem.cases.len(), solved))
}

/// How many cases the problem of a fetch has, and the two entries and the vector that are found.
fn found(
    alloc: Global,
    pairs: &[Pair],
    draws: (u32, u32),
    wanted: Wanted,
) -> Result<(usize, Option<(u32, u32, u32)>), OutOfMemory> {
    let (cases, solved) = answer(alloc, pairs, draws, wanted, 4)?;
    Ok((cases, started(solved)))
}

#[test]
fn fetches_without_translation(rt: HostRuntime) -> Result<(), Fail> {
    let alloc = rt.alloc();
    let leads = [(0, 0, FetchEnd::At(0x8000_0000))];
    assert_eq!(&rt;
        found(alloc, &leads, (0, 0), Wanted::Leads)?,
        (2, Some((0, 0, 0)))
    );
    let fails = [(0, 0, FetchEnd::Fails(Cause::FetchAccess))];
    assert_eq!(&rt;
        found(alloc, &fails, (0, 0), Wanted::Fails(1))?,
        (2, Some((0, 0, 0x8000_0200)))
    );
    assert_eq!(&rt; found(alloc, &fails, (0, 0), Wanted::Fails(12))?, (1, None));
    Ok(())
}

/// The walk over the second pointer and the first page races with something, so that no way has this pair.
const LEAD: [Pair; 2] = [
    (0x2000_0401, 0x2000_00cf, FetchEnd::At(0x8000_0000)),
    (0x2000_0801, 0x2000_04cf, FetchEnd::At(0x8000_1000)),
];

#[test]
fn fetches_by_two_ways(rt: HostRuntime) -> Result<(), Fail> {
    let alloc = rt.alloc();
    assert_eq!(&rt;
        found(alloc, &LEAD, (0, 1), Wanted::Leads)?,
        (3, Some((0x2000_0401, 0x2000_00cf, 0)))
    );
    assert_eq!(&rt;
        found(alloc, &LEAD, (1, 0), Wanted::Leads)?,
        (3, Some((0x2000_0801, 0x2000_04cf, 0)))
    );
    Ok(())
}

#[test]
fn space_of_a_fetch(rt: HostRuntime) -> Result<(), Fail> {
    let (_, solved) = answer(rt.alloc(), &LEAD, (0, 1), Wanted::Leads, 3)?;
    assert!(&rt; matches!(solved, Solved::Spent));
    Ok(())
}

/// One pair leads somewhere, and one fails with each cause.
const FAIL: [Pair; 3] = [
    (0x2000_0401, 0x2000_00cf, FetchEnd::At(0x8000_0000)),
    (0x2000_0401, 0x2000_04cf, FetchEnd::Fails(Cause::FetchPage)),
    (
        0x2000_0801,
        0x2000_04cf,
        FetchEnd::Fails(Cause::FetchAccess),
    ),
];

#[test]
fn fetches_that_fail(rt: HostRuntime) -> Result<(), Fail> {
    let alloc = rt.alloc();
    assert_eq!(&rt;
        found(alloc, &FAIL, (1, 0), Wanted::Fails(12))?,
        (2, Some((0x2000_0401, 0x2000_04cf, 0x8000_0200)))
    );
    assert_eq!(&rt;
        found(alloc, &FAIL, (0, 0), Wanted::Fails(1))?,
        (2, Some((0x2000_0801, 0x2000_04cf, 0x8000_0200)))
    );
    assert_eq!(&rt; found(alloc, &FAIL, (0, 0), Wanted::Fails(13))?, (1, None));
    Ok(())
}
