// Biases that are kept and dropped.
ghost use Rattle.std.specs.Prelude.{◌≡◌, All, IfOk, length};
ghost use Rattle.fd_prob.specs.Fitting.{IsProblem};

use crate::plain;
use crate::solving::{DRAWS, answer_of, solved};
use dom_set::Set;
use fd_prob::{Assignment, Extra, Items, Problem, Slot};
use fd_solve::{Solved, solve_leaf};
use problem_rows::{problem_of, relations, set_of, variable_of};
use std::alloc::Global;
use std::process::Abort;
use std::test::Fail;

// A bias of a problem of two cases is whether each of them stays, cuts of domains, and relations:
// `no yes rd=3; same a b`. Biases have bars between them, or are `-`.

/// Whether a case stays.
fn stays(word: &str) -> Result<bool, Fail> {
    match word {
        "yes" => Ok(true),
        "no" => Ok(false),
        _ => Err(Fail::new("whether a case stays")),
    }
}

fn cuts_of(alloc: Global, text: &str) -> Result<Items<(Slot, Set)>, Fail> {
    let mut cuts = Items::new(alloc);
    for item in text.split_whitespace() {
        let (name, list) = item.split_once('=').ok_or("a cut")?;
        cuts.push((variable_of(name)?, set_of(alloc, list)?))?;
    }
    Ok(cuts)
}

/// A bias in its parts: whether the first case stays and whether the second does, cuts, and relations.
#[derive(Drop)]
struct Parts<'a> {
    first: bool,
    second: bool,
    cuts: &'a str,
    rels: &'a str,
}

fn parts_of(bias: &str) -> Result<Parts<'_>, Fail> {
    let (head, rels) = bias.split_once("; ").unwrap_or((bias, ""));
    let (first, rest) = head.split_once(' ').ok_or("which cases stay")?;
    let (second, cuts) = rest.split_once(' ').unwrap_or((rest, ""));
    Ok(Parts {
        first: stays(first)?,
        second: stays(second)?,
        cuts,
        rels,
    })
}

fn extra_of(alloc: Global, bias: &str) -> Result<Extra, Fail>
    ensures { IfOk result (λ e. length e.cases ≡ 2) }
{
    let parts = parts_of(bias)?;
    let cuts = cuts_of(alloc, parts.cuts)?;
    let rels = relations(alloc, parts.rels)?;
    Ok(Extra {
        cases: Items::from_slice(alloc, &[parts.first, parts.second])?,
        cuts,
        rels,
    })
}

fn extras_of(alloc: Global, biases: &str) -> Result<Vec<Extra>, Fail>
    ensures { IfOk result (λ v. All (λ e. length e.cases ≡ 2) v.items) }
{
    let mut extras = Vec::new(alloc);
    if biases == "-" {
        return Ok(extras);
    }
    for bias in biases.split(" | ") {
        extras.push(extra_of(alloc, bias)?)?;
    }
    Ok(extras)
}

/// A case of CSRRW, whose space is that of `A` as soon as it has few values, and one of ADDI with three registers.
const REGISTERS: &str = "csrrw rs1=1 csr=0x340 a=all; writes | addi rs1=1..3 rd=1..3";

/// A case of ADD and one of BLT with a few values.
const VALUES: &str = "\
add rs1=0..3 rs2=1..3 a=0..2,7..9 b=2,6..8 rd=3..5; holds rs1 a 0 7 - 2; linked | \
blt rs1=1..2 rs2=2..3 imm=0..4 a=0..1,0x80000000..0x80000001 b=0..2,0xffffffff; linked; target 4 4..8";

/// Budgets, biases, the answer, and the positions of those that are dropped, with a star where the budget was spent:
/// the space is 4, and 103 where the value of the source has few values.
const KEPT: &str = "\
20 => - => addi rs1=1 rd=1 => -
3 => - => spent => -
3 => yes yes rs1=2..3 => addi rs1=2 rd=1 => -
3 => yes yes; same rs1 rd => spent => 0*
20 => yes yes rs1=1 => addi rs1=1 rd=1 => -
20 => no no => addi rs1=1 rd=1 => 0";

/// Each bias is judged with those kept before it.
const IN_ORDER: &str = "\
20 => yes yes a=0..99 | yes yes rs1=2..3 | yes yes rs1=1 | yes yes; same rs1 rd | no no | no yes rd=3 | yes yes a=0..99 => addi rs1=3 rd=3 => 0* 2 4";

/// Biases, of which those that nothing fits are dropped.
const LISTS: &str = "\
-
yes yes a=100..200
yes yes; same a b | yes yes; differ a b
yes yes; differ a b | yes yes; same a b
yes no b=7 | no yes; taken | yes yes; same a b
no yes; taken | yes no b=7 | yes yes imm=0..2; not_taken | yes yes rs1=2 rs2=2..3
yes yes rs1=2 rs2=2..3 | yes yes; same a b | yes yes a=100..200 | yes no b=7 | yes yes; differ a b
yes yes imm=0..2; not_taken | yes yes rs1=2 rs2=2..3 | yes yes; differ a b | yes yes; same a b | yes yes; same a b";

fn position(text: &str) -> Result<(u32, bool), Fail> {
    match text.strip_suffix('*') {
        Some(position) => Ok((position.parse()?, true)),
        None => Ok((text.parse()?, false)),
    }
}

fn positions(alloc: Global, text: &str) -> Result<Vec<(u32, bool)>, Fail> {
    let mut positions = Vec::new(alloc);
    if text == "-" {
        return Ok(positions);
    }
    for one in text.split(' ') {
        positions.push(position(one)?)?;
    }
    Ok(positions)
}

/// A row with budget, biases, answer and positions.
#[derive(Drop)]
struct Row<'a> {
    budget: u64,
    biases: &'a str,
    solved: Solved,
    dropped: &'a str,
}

fn row_of(text: &str) -> Result<Row<'_>, Fail> {
    let (budget, rest) = text.split_once(" => ").ok_or("a budget")?;
    let (biases, rest) = rest.split_once(" => ").ok_or("biases")?;
    let (answer, dropped) = rest.split_once(" => ").ok_or("an answer")?;
    Ok(Row {
        budget: budget.parse()?,
        biases,
        solved: answer_of(answer)?,
        dropped,
    })
}

/// The problem of two cases, with a draw.
fn two_cases(alloc: Global, text: &str, draw: u32) -> Result<Problem, Fail>
    ensures problem { IfOk result IsProblem }
    ensures cases { IfOk result (λ p. length p.cases ≡ 2) }
{
    let p = problem_of(alloc, text, draw)?;
    if p.cases.len() != 2 {
        return Err(Fail::new("two cases"));
    }
    Ok(p)
}

fn compare(rt: &impl Abort, alloc: Global, text: &str) -> Result<(), Fail> {
    let row = row_of(text)?;
    let p = two_cases(alloc, REGISTERS, 0)?;
    let answer = solve_leaf(alloc, &p, &extras_of(alloc, row.biases)?, row.budget)?;
    assert_eq!(rt; answer.solved, row.solved, "at {text}");
    let dropped = positions(alloc, row.dropped)?;
    assert!(rt;
        answer.dropped.as_slice() == dropped.as_slice(),
        "at {text}"
    );
    Ok(())
}

#[test]
fn biases_are_kept_and_dropped(rt: HostRuntime) -> Result<(), Fail> {
    for row in KEPT.split('\n') {
        compare(&rt, rt.alloc(), row)?;
    }
    Ok(())
}

#[test]
fn a_bias_is_judged_with_those_kept_before_it(rt: HostRuntime) -> Result<(), Fail> {
    compare(&rt, rt.alloc(), IN_ORDER)
}

/// The register whose value the found assignment takes, where draw 1 picks each variable's value but the operation's.
fn source(alloc: Global, biases: &str) -> Result<u32, Fail> {
    let mut p = two_cases(alloc, REGISTERS, 1)?;
    p.pivots[0] = 0;
    let answer = solve_leaf(alloc, &p, &extras_of(alloc, biases)?, 20)?;
    match answer.solved {
        Solved::Found(x) => Ok(x.value(Slot::Rs1)),
        _ => Err(Fail::new("no assignment")),
    }
}

#[test]
fn pivots_are_those_of_the_cut_domains(rt: HostRuntime) -> Result<(), Fail> {
    // Of the registers 1 to 3, draw 1 picks 2, and of 2 and 3 it picks 3.
    assert_eq!(rt; source(rt.alloc(), "-")?, 2);
    assert_eq!(rt; source(rt.alloc(), "yes yes rs1=2..3")?, 3);
    Ok(())
}

/// Adds relations, if there are any.
fn push_more(text: &mut String, rels: &str) -> Result<(), Fail> {
    if rels.is_empty() {
        return Ok(());
    }
    text.push_str("; ")?;
    text.push_str(rels)?;
    Ok(())
}

/// Adds a case with cuts.
fn push_cut(text: &mut String, case: &str, cuts: &str) -> Result<(), Fail> {
    let (head, rels) = case.split_once("; ").ok_or("a case with relations")?;
    text.push_str(head)?;
    text.push_str(" ")?;
    text.push_str(cuts)?;
    push_more(text, rels)
}

/// Adds a case with what a bias says besides; one that doesn't stay has a relation that never holds.
fn push_case(text: &mut String, case: &str, bias: &Parts<'_>, stays: bool) -> Result<(), Fail> {
    push_cut(text, case, bias.cuts)?;
    push_more(text, bias.rels)?;
    push_more(text, if stays { "" } else { "rows" })
}

/// The problem of two cases with what a bias adds to it.
fn with_bias(alloc: Global, cases: &str, bias: &str) -> Result<String, Fail> {
    let (first, second) = cases.split_once(" | ").ok_or("two cases")?;
    let parts = parts_of(bias)?;
    let mut text = String::new(alloc);
    push_case(&mut text, first, &parts, parts.first)?;
    text.push_str(" | ")?;
    push_case(&mut text, second, &parts, parts.second)?;
    Ok(text)
}

/// The least assignment that fits a problem, by the plain search.
fn least(alloc: Global, cases: &str, draw: u32) -> Result<Option<Assignment>, Fail> {
    Ok(plain::least(&problem_of(alloc, cases, draw)?))
}

/// The cases with the biases that leave an answer, and the positions of the others.
#[derive(Drop)]
struct Kept {
    cases: String,
    dropped: Vec<(u32, bool)>,
}

impl Kept {
    /// Takes the bias at a position.
    fn take(&mut self, alloc: Global, bias: &str, position: usize, draw: u32) -> Result<(), Fail> {
        let with = with_bias(alloc, &self.cases, bias)?;
        if least(alloc, &with, draw)?.is_some() {
            self.cases = with;
        } else {
            self.dropped.push((u32::try_from(position)?, false))?;
        }
        Ok(())
    }
}

fn nothing_kept(alloc: Global) -> Result<Kept, Fail> {
    Ok(Kept {
        cases: VALUES.to_string(alloc)?,
        dropped: Vec::new(alloc),
    })
}

/// Each bias is taken with those kept before it.
fn take_all(alloc: Global, biases: &str, draw: u32) -> Result<Kept, Fail> {
    let mut kept = nothing_kept(alloc)?;
    if biases == "-" {
        return Ok(kept);
    }
    for (position, bias) in biases.split(" | ").enumerate() {
        kept.take(alloc, bias, position, draw)?;
    }
    Ok(kept)
}

/// Whether the answer with the biases is that of the plain search.
fn is_plain(alloc: Global, biases: &str, draw: u32) -> Result<bool, Fail> {
    let p = two_cases(alloc, VALUES, draw)?;
    let answer = solve_leaf(alloc, &p, &extras_of(alloc, biases)?, u64::MAX)?;
    let kept = take_all(alloc, biases, draw)?;
    let want = solved(least(alloc, &kept.cases, draw)?);
    Ok(answer.solved == want && answer.dropped.as_slice() == kept.dropped.as_slice())
}

#[test]
fn biases_are_taken_as_by_a_plain_search(rt: HostRuntime) -> Result<(), Fail> {
    for biases in LISTS.split('\n') {
        for draw in DRAWS {
            assert!(rt; is_plain(rt.alloc(), biases, draw)?, "{biases} with {draw}");
        }
    }
    Ok(())
}
