// The least assignment that fits, by going through all of them, with small domains.
ghost use Rattle.std.specs.Prelude.{◌<◌};
ghost use Rattle.fd_prob.specs.Fitting.{IsCase, IsProblem};

use dom_set::Set;
use fd_prob::{Assignment, Case, Problem, SLOTS, Slot, first_case, fits};

fn picked(draw: u32, domain: &Set) -> u32 {
    let size = domain.size();
    if size == 0 {
        0
    } else {
        domain.nth(u64::from(draw) % size)
    }
}

fn is_allowed(p: &Problem, op: u8) -> bool
    requires { IsProblem p.now }
{
    match first_case(p.cases.as_slice(), op) {
        Some(case) => case.domain(Slot::Op).has(u32::from(op)),
        None => false,
    }
}

fn count_allowed(p: &Problem) -> u32
    requires { IsProblem p.now }
{
    let mut count: u32 = 0;
    for op in 0..58 {
        if is_allowed(p, op) {
            count = count.saturating_add(1);
        }
    }
    count
}

/// The allowed operation with this number among them.
fn nth_allowed(p: &Problem, n: u32) -> u32
    requires { IsProblem p.now }
{
    let mut left = n;
    for op in 0..58 {
        if is_allowed(p, op) {
            if left == 0 {
                return u32::from(op);
            }
            left -= 1;
        }
    }
    0
}

/// The pivot of the variable at a place with an operation.
fn pivot(p: &Problem, op: u8, place: usize) -> u32
    requires problem { IsProblem p.now }
    requires place { place < 14 }
{
    let draw = p.pivots[place];
    if place == 0 {
        let count = count_allowed(p);
        return if count == 0 {
            0
        } else {
            nth_allowed(p, draw % count)
        };
    }
    match first_case(p.cases.as_slice(), op) {
        Some(case) => picked(draw, case.domain(SLOTS[place])),
        None => 0,
    }
}

/// Whether `x` comes before `y`.
fn comes_before(p: &Problem, x: &Assignment, y: &Assignment) -> bool
    requires { IsProblem p.now }
{
    let op = u8::try_from(x.value(Slot::Op)).unwrap_or(255);
    for i in 0..14 {
        let (a, b) = (x.values[i], y.values[i]);
        if a != b {
            let pivot = pivot(p, op, i);
            return a.wrapping_sub(pivot) < b.wrapping_sub(pivot);
        }
    }
    false
}

/// How many assignments the domains of a case have.
fn combinations(case: &Case) -> u64
    requires { IsCase case.now }
{
    let mut all: u64 = 1;
    for slot in SLOTS {
        all = all.saturating_mul(case.domain(slot).size());
    }
    all
}

/// One of these assignments, by its number.
fn combination(case: &Case, n: u64) -> Assignment
    requires { IsCase case.now }
{
    let mut values = [0; 14];
    let mut rest = n;
    for i in 0..14 {
        let domain = case.domain(SLOTS[i]);
        let size = domain.size();
        if size != 0 {
            values[i] = domain.nth(rest % size);
            rest /= size;
        }
    }
    Assignment { values }
}

fn is_better(p: &Problem, x: &Assignment, best: &Option<Assignment>) -> bool
    requires { IsProblem p.now }
{
    fits(p, x)
        && match best {
            Some(best) => comes_before(p, x, best),
            None => true,
        }
}

/// The least so far and those of the case.
fn least_with(p: &Problem, case: &Case, best: Option<Assignment>) -> Option<Assignment>
    requires problem { IsProblem p.now }
    requires case { IsCase case.now }
{
    let mut best = best;
    for n in 0..combinations(case) {
        let x = combination(case, n);
        if is_better(p, &x, &best) {
            best = Some(x);
        }
    }
    best
}

/// The least assignment that fits.
pub fn least(p: &Problem) -> Option<Assignment>
    requires { IsProblem p.now }
{
    let mut best = None;
    for case in p.cases.as_slice() {
        best = least_with(p, case, best);
    }
    best
}
