// Sets, relations, cases and problems as rows of tables write them.
//
// A set is a name or a list of numbers and ranges, `1..5,9`; behind it may stand a power of two whose multiples it
// is cut to, and what is added to them: `page/4+1`. A case is an operation, domains of variables, and relations:
// `addi rs1=1..2 a=5..6; holds rs1 a - 7 6; linked`. Several domains of one variable are what they have in common;
// a variable without one is 0, and the operation itself. A problem is cases with bars between them, or `-`.
ghost use Rattle.std.specs.Prelude.{◌≡◌, ◌<◌, All, IfOk};
ghost use Rattle.fd_prob.specs.Fitting.{IsCase, IsProblem};

use dom_set::Set;
use fd_prob::{Assignment, Case, Items, Problem, Quad, Rel, SLOTS, Slot};
use rv_isa::{OPS, name_of};
use std::alloc::Global;
use std::test::Fail;

/// The names of the variables, in their order.
const VARIABLES: &str = "op rs1 rs2 imm rd csr ea a b root leaf word old vector";

/// Sets that have names.
const NAMED: &str = "\
all=0..0xffffffff
each=0..31
signed=0..0x7ff,0xfffff800..0xffffffff
far=0..0xfff,0xfffff000..0xffffffff
jump=0..0xfffff,0xfff00000..0xffffffff
page=0x80000000..0x80000fff
near=0xfff..0x1000,0xfffffffc..0xffffffff
csrs=0x100,0x105,0x140..0x143,0x180,0x300,0x302,0x305,0x340..0x343,0xf14
addresses=0x100..0x105,0x140..0x143,0x180,0x300..0x305,0xf14,70000
privileges=0..3,0x7fe..0x803,0xffe..0x1003,0x17fe..0x1803,0x1ffe..0x2001
roots=0..3,0xffffe..0x100002,0x7fffffff..0x80000003,0x800fffff..0x80100001
delegations=0..0x3ff,0x1000..0x13ff,0x2000..0x23ff,0x3000..0x33ff,0x8000..0x83ff,0x9000..0x93ff,0xa000..0xa3ff,0xb000..0xb3ff
edges=0..1,0x7fffffff..0x80000000,0xffffffff
offsets=0..12,0xfffffff5..0xffffffff";

fn hexadecimal(digits: &str) -> Result<u32, Fail> {
    if digits.is_empty() || digits.len() > 8 {
        return Err(Fail::new("eight hexadecimal digits at most"));
    }
    let mut n: u32 = 0;
    for c in digits.chars() {
        let digit = c.to_digit(16).ok_or("a hexadecimal digit")?;
        n = n.wrapping_mul(16).wrapping_add(digit);
    }
    Ok(n)
}

/// A number, in decimal or behind `0x` in hexadecimal.
pub fn number(text: &str) -> Result<u32, Fail> {
    match text.strip_prefix("0x") {
        Some(digits) => hexadecimal(digits),
        None => Ok(text.parse()?),
    }
}

/// The variable of a name.
pub fn variable_of(name: &str) -> Result<Slot, Fail> {
    for (slot, known) in SLOTS.iter().zip(VARIABLES.split(' ')) {
        if known == name {
            return Ok(*slot);
        }
    }
    Err(Fail::new("no variable"))
}

/// The number of the operation.
fn operation(name: &str) -> Result<u8, Fail>
    ensures { IfOk result (λ n. n < 58) }
{
    for n in 0..58u8 {
        if name_of(OPS[usize::from(n)]) == name.as_bytes() {
            return Ok(n);
        }
    }
    Err(Fail::new("no operation"))
}

fn range(text: &str) -> Result<(u32, u32), Fail> {
    match text.split_once("..") {
        Some((low, high)) => Ok((number(low)?, number(high)?)),
        None => {
            let only = number(text)?;
            Ok((only, only))
        }
    }
}

fn ranges(alloc: Global, list: &str) -> Result<Vec<(u32, u32)>, Fail> {
    let mut ranges = Vec::new(alloc);
    for item in list.split(',') {
        ranges.push(range(item)?)?;
    }
    Ok(ranges)
}

/// What a name stands for; else the list itself.
fn list_of<'a>(text: &'a str) -> &'a str {
    for row in NAMED.split('\n') {
        if let Some((name, list)) = row.split_once('=') {
            if name == text {
                return list;
            }
        }
    }
    text
}

/// The multiples in a list.
#[tactic(auto, using(dom_set::proofs::Powers::power_from_test))]
fn multiples(alloc: Global, list: &str, align: u32) -> Result<Set, Fail> {
    if list == "none" {
        return Ok(Set::new(alloc));
    }
    if !align.is_power_of_two() {
        return Err(Fail::new("no power of two"));
    }
    let ranges = ranges(alloc, list_of(list))?;
    Ok(Set::from_ranges(alloc, &ranges, align)?)
}

/// The set of a list.
pub fn set_of(alloc: Global, text: &str) -> Result<Set, Fail> {
    let (list, class) = text.split_once('/').unwrap_or((text, "1"));
    let (align, offset) = class.split_once('+').unwrap_or((class, "0"));
    let multiples = multiples(alloc, list, number(align)?)?;
    Ok(multiples.shift(alloc, number(offset)?)?)
}

fn two(text: &str) -> Result<(Slot, Slot), Fail> {
    let (one, other) = text.split_once(' ').ok_or("two variables")?;
    Ok((variable_of(one)?, variable_of(other)?))
}

fn sum(text: &str) -> Result<Rel, Fail> {
    let (first, rest) = text.split_once(' ').ok_or("three variables")?;
    let (second, sum) = two(rest)?;
    Ok(Rel::Sum(variable_of(first)?, second, sum))
}

/// Values by their indices, with `-` where there is none.
fn table(alloc: Global, text: &str) -> Result<Items<Option<u32>>, Fail> {
    let mut table = Items::new(alloc);
    for entry in text.split(' ') {
        table.push(if entry == "-" {
            None
        } else {
            Some(number(entry)?)
        })?;
    }
    Ok(table)
}

fn held(alloc: Global, text: &str) -> Result<Rel, Fail> {
    let (index, rest) = text.split_once(' ').ok_or("an index")?;
    let (value, entries) = rest.split_once(' ').ok_or("a value")?;
    Ok(Rel::Holds {
        index: variable_of(index)?,
        value: variable_of(value)?,
        table: table(alloc, entries)?,
    })
}

fn target(alloc: Global, text: &str) -> Result<Rel, Fail> {
    let (pc, list) = text.split_once(' ').ok_or("a pc")?;
    Ok(Rel::Target(number(pc)?, set_of(alloc, list)?))
}

/// Sets of addresses, root entries, second entries and data words.
fn quad(alloc: Global, text: &str) -> Result<Quad, Fail> {
    let (ea, rest) = text.split_once(' ').ok_or("an address")?;
    let (root, rest) = rest.split_once(' ').ok_or("a root's entry")?;
    let (leaf, word) = rest.split_once(' ').ok_or("a second entry")?;
    Ok(Quad {
        ea: set_of(alloc, ea)?,
        root: set_of(alloc, root)?,
        leaf: set_of(alloc, leaf)?,
        word: set_of(alloc, word)?,
    })
}

fn quads(alloc: Global, text: &str) -> Result<Rel, Fail> {
    let mut quads = Items::new(alloc);
    for row in text.split(" / ") {
        quads.push(quad(alloc, row)?)?;
    }
    Ok(Rel::Rows(quads))
}

/// A variable, and the set that it is in.
fn inside(alloc: Global, text: &str) -> Result<Rel, Fail> {
    let (variable, list) = text.split_once(' ').ok_or("a set")?;
    Ok(Rel::In(variable_of(variable)?, set_of(alloc, list)?))
}

/// Whether both variables have one value, or two.
fn comparison(text: &str, same: bool) -> Result<Rel, Fail> {
    let (one, other) = two(text)?;
    Ok(if same {
        Rel::Same(one, other)
    } else {
        Rel::Differ(one, other)
    })
}

/// A relation that names variables or numbers.
fn spelled(alloc: Global, text: &str) -> Result<Rel, Fail> {
    let (word, rest) = text.split_once(' ').ok_or("no relation")?;
    match word {
        "same" => comparison(rest, true),
        "differ" => comparison(rest, false),
        "sum" => sum(rest),
        "holds" => held(alloc, rest),
        "target" => target(alloc, rest),
        "rows" => quads(alloc, rest),
        "in" => inside(alloc, rest),
        _ => Err(Fail::new("no relation")),
    }
}

fn relation(alloc: Global, text: &str) -> Result<Rel, Fail> {
    match text {
        "taken" => Ok(Rel::Taken(true)),
        "not_taken" => Ok(Rel::Taken(false)),
        "linked" => Ok(Rel::Linked),
        "writes" => Ok(Rel::Writes),
        "rows" => Ok(Rel::Rows(Items::new(alloc))),
        _ => spelled(alloc, text),
    }
}

/// Relations with semicolons between them, if there are any.
pub fn relations(alloc: Global, text: &str) -> Result<Items<Rel>, Fail> {
    let mut rels = Items::new(alloc);
    if text.is_empty() {
        return Ok(rels);
    }
    for one in text.split("; ") {
        rels.push(relation(alloc, one)?)?;
    }
    Ok(rels)
}

fn single(alloc: Global, only: u32) -> Result<Set, Fail> {
    Ok(Set::from_ranges(alloc, &[(only, only)], 1)?)
}

/// The domain of a variable in a case of the operation.
fn domain(alloc: Global, slot: Slot, op: u8, domains: &str) -> Result<Set, Fail> {
    let mut domain = single(alloc, if slot == Slot::Op { u32::from(op) } else { 0 })?;
    let mut listed = false;
    for item in domains.split_whitespace() {
        let (name, list) = item.split_once('=').ok_or("a variable's domain")?;
        if variable_of(name)? == slot {
            let set = set_of(alloc, list)?;
            domain = if listed {
                domain.and(alloc, &set)?
            } else {
                set
            };
            listed = true;
        }
    }
    Ok(domain)
}

fn case_with(alloc: Global, op: u8, domains: &str, rels: Items<Rel>) -> Result<Case, Fail>
    requires { op < 58 }
    ensures { IfOk result IsCase }
{
    let mut doms = Vec::new(alloc);
    for slot in SLOTS {
        doms.push(domain(alloc, slot, op, domains)?)?;
    }
    Ok(Case {
        op,
        doms: Items::from_vec(doms),
        rels,
    })
}

/// The case of a row.
pub fn case_of(alloc: Global, text: &str) -> Result<Case, Fail>
    ensures { IfOk result IsCase }
{
    let (head, rels) = text.split_once("; ").unwrap_or((text, ""));
    let (op, domains) = head.split_once(' ').unwrap_or((head, ""));
    case_with(alloc, operation(op)?, domains, relations(alloc, rels)?)
}

fn cases_of(alloc: Global, text: &str) -> Result<Vec<Case>, Fail>
    ensures { IfOk result (λ v. All IsCase v.items) }
{
    let mut cases = Vec::new(alloc);
    if text == "-" {
        return Ok(cases);
    }
    for one in text.split(" | ") {
        cases.push(case_of(alloc, one)?)?;
    }
    Ok(cases)
}

/// The problem with one draw for all variables.
pub fn problem_of(alloc: Global, text: &str, draw: u32) -> Result<Problem, Fail>
    ensures { IfOk result IsProblem }
{
    let cases = cases_of(alloc, text)?;
    Ok(Problem {
        cases: Items::from_vec(cases),
        pivots: [draw; 14],
        pairs: 1,
        fetch: false,
    })
}

/// The values of an operation's variables, of which those that aren't listed are 0.
pub fn assignment_of(text: &str) -> Result<Assignment, Fail> {
    let (op, values) = text.split_once(' ').unwrap_or((text, ""));
    let mut all = [0; 14];
    all[0] = u32::from(operation(op)?);
    for item in values.split_whitespace() {
        let (name, value) = item.split_once('=').ok_or("a variable's value")?;
        all[variable_of(name)?.number()] = number(value)?;
    }
    Ok(Assignment { values: all })
}
