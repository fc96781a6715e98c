// Sets, relations, cases and problems as lines of numbers write them.
ghost use Rattle.std.specs.Prelude.{◌≡◌, ◌<◌, All, IfOk};
ghost use Rattle.fd_prob.specs.Fitting.{IsCase, IsProblem};

use crate::numbers::Numbers;
use crate::stop::Stop;
use dom_set::Set;
use fd_prob::{Case, Items, Problem, Quad, Rel, SLOTS, Slot};
use std::alloc::Global;

fn slot(line: &mut Numbers) -> Result<Slot, Stop> {
    let number = line.take()?;
    for slot in SLOTS {
        if slot.number() as u64 == number {
            return Ok(slot);
        }
    }
    Err(Stop::Malformed)
}

fn ranges(alloc: Global, line: &mut Numbers) -> Result<Vec<(u32, u32)>, Stop> {
    let mut ranges = Vec::new(alloc);
    for _ in 0..line.take()? {
        let low = line.word()?;
        let high = line.word()?;
        ranges.push((low, high))?;
    }
    Ok(ranges)
}

/// The numbers of the ranges that leave a remainder when they are divided by a power of two: its exponent, the
/// remainder, how many ranges there are, and the ranges of the multiples.
#[tactic(auto, using(dom_set::proofs::Powers::power_from_test))]
fn group(alloc: Global, line: &mut Numbers) -> Result<Set, Stop> {
    let step = 1u32.checked_shl(line.word()?).ok_or(Stop::Malformed)?;
    let remainder = line.word()?;
    let ranges = ranges(alloc, line)?;
    if !step.is_power_of_two() {
        return Err(Stop::Malformed);
    }
    let multiples = Set::from_ranges(alloc, &ranges, step)?;
    Ok(multiples.shift(alloc, remainder)?)
}

/// How many groups there are, and the groups.
fn set(alloc: Global, line: &mut Numbers) -> Result<Set, Stop> {
    let all = Set::from_ranges(alloc, &[(0, u32::MAX)], 1)?;
    let groups = line.take()?;
    if groups == 1 {
        return group(alloc, line);
    }
    let mut rest = all.copy(alloc)?;
    for _ in 0..groups {
        let more = group(alloc, line)?;
        rest = rest.minus(alloc, &more)?;
    }
    Ok(all.minus(alloc, &rest)?)
}

fn table(alloc: Global, line: &mut Numbers) -> Result<Items<Option<u32>>, Stop> {
    let mut table = Items::new(alloc);
    for _ in 0..line.take()? {
        let known = line.take()? == 1;
        let value = line.word()?;
        table.push(if known { Some(value) } else { None })?;
    }
    Ok(table)
}

fn rows(alloc: Global, line: &mut Numbers) -> Result<Items<Quad>, Stop> {
    let mut rows = Items::new(alloc);
    for _ in 0..line.take()? {
        let ea = set(alloc, line)?;
        let root = set(alloc, line)?;
        let leaf = set(alloc, line)?;
        let word = set(alloc, line)?;
        rows.push(Quad {
            ea,
            root,
            leaf,
            word,
        })?;
    }
    Ok(rows)
}

fn held(alloc: Global, line: &mut Numbers) -> Result<Rel, Stop> {
    let index = slot(line)?;
    let value = slot(line)?;
    let table = table(alloc, line)?;
    Ok(Rel::Holds {
        index,
        value,
        table,
    })
}

fn target(alloc: Global, line: &mut Numbers) -> Result<Rel, Stop> {
    let pc = line.word()?;
    let set = set(alloc, line)?;
    Ok(Rel::Target(pc, set))
}

fn sum(line: &mut Numbers) -> Result<Rel, Stop> {
    let first = slot(line)?;
    let second = slot(line)?;
    let sum = slot(line)?;
    Ok(Rel::Sum(first, second, sum))
}

/// A relation: its number, and its parts.
fn relation(alloc: Global, line: &mut Numbers) -> Result<Rel, Stop> {
    match line.take()? {
        0 => Ok(Rel::Same(slot(line)?, slot(line)?)),
        1 => Ok(Rel::Differ(slot(line)?, slot(line)?)),
        2 => sum(line),
        3 => Ok(Rel::Taken(line.take()? == 1)),
        4 => held(alloc, line),
        5 => Ok(Rel::Linked),
        6 => target(alloc, line),
        7 => Ok(Rel::Writes),
        8 => Ok(Rel::Rows(rows(alloc, line)?)),
        9 => Ok(Rel::In(slot(line)?, set(alloc, line)?)),
        _ => Err(Stop::Malformed),
    }
}

fn relations(alloc: Global, line: &mut Numbers) -> Result<Items<Rel>, Stop> {
    let mut rels = Items::new(alloc);
    for _ in 0..line.take()? {
        rels.push(relation(alloc, line)?)?;
    }
    Ok(rels)
}

fn operation(line: &mut Numbers) -> Result<u8, Stop>
    ensures { IfOk result (λ op. op < 58) }
{
    match u8::try_from(line.take()?) {
        Ok(op) => {
            if op < 58 {
                Ok(op)
            } else {
                Err(Stop::Malformed)
            }
        }
        Err(_) => Err(Stop::Malformed),
    }
}

fn case_with(alloc: Global, op: u8, line: &mut Numbers) -> Result<Case, Stop>
    requires { op < 58 }
    ensures { IfOk result IsCase }
{
    let mut doms = Vec::new(alloc);
    for _ in SLOTS {
        doms.push(set(alloc, line)?)?;
    }
    let rels = relations(alloc, line)?;
    Ok(Case {
        op,
        doms: Items::from_vec(doms),
        rels,
    })
}

/// A case: its operation, 14 sets, how many relations there are, and the relations.
fn case_of(alloc: Global, line: &mut Numbers) -> Result<Case, Stop>
    ensures { IfOk result IsCase }
{
    let op = operation(line)?;
    case_with(alloc, op, line)
}

fn cases(alloc: Global, line: &mut Numbers) -> Result<Vec<Case>, Stop>
    ensures { IfOk result (λ v. All IsCase v.items) }
{
    let mut cases = Vec::new(alloc);
    for _ in 0..line.take()? {
        cases.push(case_of(alloc, line)?)?;
    }
    Ok(cases)
}

/// A problem: how many pairs it has, whether it is that of a fetch, the draws, how many cases there are, and the
/// cases.
pub fn problem(alloc: Global, line: &mut Numbers) -> Result<Problem, Stop>
    ensures { IfOk result IsProblem }
{
    let pairs = line.take()?;
    let fetch = line.take()? == 1;
    let pivots = line.words()?;
    let cases = cases(alloc, line)?;
    Ok(Problem {
        cases: Items::from_vec(cases),
        pivots,
        pairs,
        fetch,
    })
}
