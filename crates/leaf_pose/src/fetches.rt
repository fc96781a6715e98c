// The problems of fetches, from the ways of a fetch.

ghost use Rattle.std.specs.Prelude.{◌≡◌, ◌∷◌, [], length, IfOk, OnOk};
ghost use Rattle.dom_set.specs.Elements.{is_in};
ghost use Rattle.rv_csr.specs.Causes.{number_of};
ghost use Rattle.fd_prob.specs.Fitting.{IsCase, IsProblem};
ghost use Rattle.leaf_pose.specs.Fetches.{AddsCases, AreFetchPivots, PosesFault, PosesFetch, case_by, cases_by, entries_at, entries_case, fault_end, fetch_end};
ghost use Rattle.leaf_stand.specs.Posed.{FitsSame};
ghost use Rattle.data_bytes.specs.Sets.{IsSetOf};
ghost use Rattle.leaf_stand.specs.Sets.{AreDomains};
ghost use Rattle.leaf_stand.specs.Stands.{turn_of};
ghost use Rattle.fd_prob.specs.declared.slot.TheConstants.{SLOTS};

use dom_set::{OutOfMemory, Set};
use fd_prob::{Case, Items, Problem, SLOTS, Slot};
use fetch_ways::{EntryForms, FetchEnd, FetchWay};
use leaf_stand::{End, Spans, Stand};
use rv_csr::Cause;
use std::alloc::Global;

/// The draws for the two page table entries of a fetch, and for the vector where it fails.
fn fetch_pivots(draws: &[u32; 16]) -> [u32; 14]
    ensures { AreFetchPivots draws.now result }
{
    [
        0, 0, 0, 0, 0, 0, 0, 0, 0, draws[0], draws[1], 0, 0, draws[15],
    ]
}

/// The domain of a variable: the new entries of the way, the vector of a trap, and 0 of all others.
fn entries_domain(
    alloc: Global,
    stand: &Stand,
    way: &FetchWay,
    end: End,
    slot: Slot,
) -> Result<Set, OutOfMemory>
    ensures { IfOk result (IsSetOf (entries_at (turn_of stand.now) way.now end slot)) }
{
    match slot {
        Slot::FirstPte => way.first.copy(alloc),
        Slot::SecondPte => way.second.copy(alloc),
        Slot::Vector => stand.ends(alloc, end),
        _ => Spans::one(0).set(alloc),
    }
}

/// The domains of all variables, in their order.
fn entries_domains(
    alloc: Global,
    stand: &Stand,
    way: &FetchWay,
    end: End,
) -> Result<Vec<Set>, OutOfMemory>
    ensures each { IfOk result (λ doms. AreDomains (entries_at (turn_of stand.now) way.now end) SLOTS doms.items) }
    ensures length { IfOk result (λ doms. length doms.items ≡ 14) }
{
    let mut doms = Vec::new(alloc);
    for slot in SLOTS {
        doms.push(entries_domain(alloc, stand, way, end, slot)?)?;
    }
    Ok(doms)
}

/// The case of a way.
fn entries_case(alloc: Global, stand: &Stand, way: &FetchWay, end: End) -> Result<Case, OutOfMemory>
    ensures shape { IfOk result IsCase }
    ensures fits { IfOk result (λ c. FitsSame (c ∷ []) (entries_case (turn_of stand.now) way.now end ∷ [])) }
{
    let doms = entries_domains(alloc, stand, way, end)?;
    Ok(Case {
        op: 0,
        doms: Items::from_vec(doms),
        rels: Items::new(alloc),
    })
}

/// Appends the case of a way, where it is one of the leaf's.
fn push_entries(
    alloc: Global,
    stand: &Stand,
    cases: &mut Items<Case>,
    way: &FetchWay,
    end: Option<End>,
) -> Result<(), OutOfMemory>
    ensures { OnOk result (AddsCases cases.old cases.new (case_by (turn_of stand.now) way.now end)) }
{
    let Some(end) = end else {
        return Ok(());
    };
    let case = entries_case(alloc, stand, way, end)?;
    cases.push(case)?;
    Ok(())
}

/// How a step of a `do` leaf goes on behind a fetch that ends so; none does where it fails.
fn fetch_end(end: FetchEnd) -> Option<End>
    ensures { result ≡ fetch_end end }
{
    match end {
        FetchEnd::At(_) => Some(End::Retires),
        FetchEnd::Fails(_) => None,
    }
}

/// Appends the cases of the ways that lead somewhere.
fn push_fetches(
    alloc: Global,
    stand: &Stand,
    cases: &mut Items<Case>,
    ways: &[FetchWay],
) -> Result<(), OutOfMemory>
    ensures { OnOk result (AddsCases cases.old cases.new (cases_by fetch_end (turn_of stand.now) ways.now)) }
{
    for way in ways {
        push_entries(alloc, stand, cases, way, fetch_end(way.end))?;
    }
    Ok(())
}

fn is_listed(causes: &Set, cause: Cause) -> bool
    ensures { result ≡ is_in causes.now (number_of cause) }
{
    causes.has(u32::from(cause.number()))
}

/// How a step of a `fault` leaf ends whose fetch ends so; none does with a cause that is not listed.
fn fault_end(causes: &Set, end: FetchEnd) -> Option<End>
    ensures { result ≡ fault_end causes.now end }
{
    match end {
        FetchEnd::At(_) => None,
        FetchEnd::Fails(cause) => {
            if is_listed(causes, cause) {
                Some(End::Traps(cause))
            } else {
                None
            }
        }
    }
}

/// Appends the cases of the ways that fail with a listed cause.
fn push_faults(
    alloc: Global,
    stand: &Stand,
    cases: &mut Items<Case>,
    ways: &[FetchWay],
    causes: &Set,
) -> Result<(), OutOfMemory>
    ensures { OnOk result (AddsCases cases.old cases.new (cases_by (fault_end causes.now) (turn_of stand.now) ways.now)) }
{
    for way in ways {
        push_entries(alloc, stand, cases, way, fault_end(causes, way.end))?;
    }
    Ok(())
}

/// The problem of the fetch of a `do` leaf: a case for each way that leads somewhere. `forms` are the page table entries
/// that the template lets a walk start, `pairs` is how many pairs of them there are, and `ways` are those of the fetch.
pub fn fetch_problem(
    alloc: Global,
    stand: &Stand,
    forms: &EntryForms,
    pairs: u64,
    ways: &[FetchWay],
    draws: &[u32; 16],
) -> Result<Problem, OutOfMemory>
    ensures shape { IfOk result IsProblem }
    ensures fetch { IfOk result (PosesFetch stand.now forms.now.first forms.now.second pairs ways.now draws.now) }
{
    let head = stand.fetch_first_case(alloc, &forms.first, &forms.second)?;
    let mut cases = Items::new(alloc);
    cases.push(head)?;
    push_fetches(alloc, stand, &mut cases, ways)?;
    Ok(Problem {
        cases,
        pivots: fetch_pivots(draws),
        pairs,
        fetch: true,
    })
}

/// The problem of a `fault` leaf: a case for each way that fails with one of `causes`.
pub fn fault_problem(
    alloc: Global,
    stand: &Stand,
    forms: &EntryForms,
    pairs: u64,
    ways: &[FetchWay],
    draws: &[u32; 16],
    causes: &Set,
) -> Result<Problem, OutOfMemory>
    ensures shape { IfOk result IsProblem }
    ensures fault { IfOk result (PosesFault stand.now forms.now.first forms.now.second pairs ways.now draws.now causes.now) }
{
    let head = stand.fetch_first_case(alloc, &forms.first, &forms.second)?;
    let mut cases = Items::new(alloc);
    cases.push(head)?;
    push_faults(alloc, stand, &mut cases, ways, causes)?;
    Ok(Problem {
        cases,
        pivots: fetch_pivots(draws),
        pairs,
        fetch: true,
    })
}
