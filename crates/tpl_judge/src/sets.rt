// Sets of numbers.
ghost use Rattle.std.specs.Prelude.{◌≡◌, ℕ, ◌+◌, ◌-◌, ◌^◌, ◌++◌, false, map, min, IfOk, OnOk};
ghost use Rattle.std.specs.Int.{IsPowerOfTwo};
ghost use Rattle.tpl_lang.specs.Faults.{is_align_wrong, is_set_above};
ghost use Rattle.tpl_lang.specs.Statements.{all_values};
ghost use Rattle.tpl_lang.specs.Parsing.{vectors_of};
ghost use Rattle.tpl_lang.specs.Phrases.{SetPhrase};
ghost use Rattle.tpl_lang.specs.Sets.{align_in, address_in, fours, listed, number, outcome_number, points, ranges_in, ranges_of, resolved, word_number, wraps};
ghost use Rattle.tpl_judge.specs.Internal.Aligns.{is_misaligned};
ghost use Rattle.tpl_token.specs.Internal.Phrases.{set_view, words_view};

use crate::values::number;
use dom_set::{OutOfMemory, Set, set_laws};
use rv_csr::{Register, row_of};
use std::alloc::Global;
use tpl_ast::Var;
use tpl_lang::{Element, Numeral, OutcomeElement, csr_of, op_number};
use tpl_state::Sets;
use tpl_token::SetText;

/// Whether a range wraps round from the greatest number to 0.
fn wraps(low: Numeral, high: Numeral) -> bool
    ensures { result ≡ wraps low high }
{
    low.minus && !high.minus && number(high) < number(low)
}

/// Appends the ranges of an element.
fn push_ranges(ranges: &mut Vec<(u32, u32)>, element: Element) -> Result<(), OutOfMemory>
    ensures { OnOk result (ranges.new.items ≡ ranges.old.items ++ ranges_in element) }
{
    match element {
        Element::One(n) => ranges.push((number(n), number(n)))?,
        Element::Range(low, high) => {
            if wraps(low, high) {
                ranges.push((number(low), u32::MAX))?;
                ranges.push((0, number(high)))?;
            } else {
                ranges.push((number(low), number(high)))?;
            }
        }
    }
    Ok(())
}

/// The ranges of elements.
fn ranges_of(alloc: Global, elements: &[Element]) -> Result<Vec<(u32, u32)>, OutOfMemory>
    ensures { IfOk result (λ v. v.items ≡ ranges_of elements.now) }
{
    let mut ranges = Vec::new(alloc);
    for element in elements {
        push_ranges(&mut ranges, *element)?;
    }
    Ok(ranges)
}

/// What the numbers of a set are multiples of.
#[tactic(auto, using(crate::proofs::Aligns::power))]
fn align_in(align: Option<Numeral>) -> u32
    requires { is_align_wrong align ≡ false }
    ensures value { result ≡ align_in align }
    ensures power { IsPowerOfTwo result }
{
    match align {
        None => 1,
        Some(n) => {
            set_laws();
            number(n)
        }
    }
}

/// A set without a number above some limit has no `align` that is wrong.
#[tactic(auto, using(crate::proofs::Aligns::aligned_set))]
pub fn align_law()
    ensures { (limit : ℕ) (set : SetPhrase) → is_set_above limit set ≡ false → is_misaligned set ≡ false }
{}

/// The elements of a set.
pub fn resolve(alloc: Global, sets: &Sets, set: &SetText<'_>) -> Result<Set, OutOfMemory>
    requires { is_misaligned (set_view set.now) ≡ false }
    ensures { IfOk result (λ s. s ≡ resolved sets.now (set_view set.now)) }
{
    match set {
        SetText::Named(name) => match sets.find(name) {
            Some(set) => set.copy(alloc),
            None => Ok(Set::new(alloc)),
        },
        SetText::Listed(elements, align) => {
            let ranges = ranges_of(alloc, elements)?;
            Set::from_ranges(alloc, &ranges, align_in(*align))
        }
    }
}

/// The multiples of 4 among the elements.
pub fn fours(alloc: Global, set: &Set) -> Result<Set, OutOfMemory>
    ensures { IfOk result (λ s. s ≡ fours set.now) }
{
    // `size` also says that the elements are below 2^32.
    if set.size() == 0 {
        return Ok(Set::new(alloc));
    }
    set_laws();
    let multiples = Set::from_ranges(alloc, &[(0, u32::MAX)], 4)?;
    set.and(alloc, &multiples)
}

/// All numbers.
pub fn all_values(alloc: Global) -> Result<Set, OutOfMemory>
    ensures { IfOk result (λ s. s ≡ all_values) }
{
    Set::from_ranges(alloc, &[(0, u32::MAX)], 1)
}

fn address_in(register: Option<Register>) -> u32
    ensures { result ≡ address_in register }
{
    match register {
        None => 0,
        Some(register) => u32::from(row_of(register).address()),
    }
}

/// The number of the row of an operation, or the address of a CSR.
fn word_number(var: Var, word: &[u8]) -> u32
    ensures { result ≡ word_number var word.now }
{
    match var {
        Var::Op => op_number(word),
        _ => address_in(csr_of(word)),
    }
}

/// The numbers of words of operations or CSRs, as ranges.
pub fn word_points(alloc: Global, var: Var, words: &[&[u8]]) -> Result<Vec<(u32, u32)>, OutOfMemory>
    ensures { IfOk result (λ v. v.items ≡ points (map (word_number var) (words_view words.now))) }
{
    let mut points = Vec::new(alloc);
    for word in words {
        let n = word_number(var, word);
        points.push((n, n))?;
    }
    Ok(points)
}

/// The cause of an outcome; retire is 255.
fn outcome_number(outcome: OutcomeElement) -> u32
    ensures { result ≡ outcome_number outcome }
{
    match outcome {
        OutcomeElement::Retire => 255,
        OutcomeElement::Cause(n) => number(n),
    }
}

/// The set of the outcomes.
pub fn causes(alloc: Global, outcomes: &[OutcomeElement]) -> Result<Set, OutOfMemory>
    ensures { IfOk result (λ s. s ≡ listed (points (map outcome_number outcomes.now)) 1) }
{
    let mut points = Vec::new(alloc);
    for outcome in outcomes {
        let n = outcome_number(*outcome);
        points.push((n, n))?;
    }
    Set::from_ranges(alloc, &points, 1)
}

/// The bytes of each frame, as ranges.
fn frame_ranges(alloc: Global, frames: &[u32]) -> Result<Vec<(u32, u32)>, OutOfMemory>
    ensures { IfOk result (λ v. v.items ≡ map (λ f. (f, min (f + 4095) (2 ^ 32 - 1))) frames.now) }
{
    let mut ranges = Vec::new(alloc);
    for frame in frames {
        ranges.push((*frame, frame.saturating_add(4095)))?;
    }
    Ok(ranges)
}

/// The vectors, or where none are given the addresses of instructions in the frames.
pub fn vectors_of(alloc: Global, vectors: Option<Set>, pool: &[u32]) -> Result<Set, OutOfMemory>
    ensures { IfOk result (λ s. s ≡ vectors_of vectors pool.now) }
{
    match vectors {
        Some(set) => Ok(set),
        None => {
            set_laws();
            let ranges = frame_ranges(alloc, pool)?;
            Set::from_ranges(alloc, &ranges, 4)
        }
    }
}
