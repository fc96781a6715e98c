// What is wrong with a statement, whatever lines stand before it.
ghost use Rattle.std.specs.Prelude.{◌≡◌, IfOk};
ghost use Rattle.std.specs.List.{list_any};
ghost use Rattle.tpl_lang.specs.Faults.{has_twice, is_above, is_align_wrong, is_atom_above, is_domain_above, is_domain_long, is_element_above, is_large, is_name_among, is_name_twice, is_no_cause, is_no_fetch_cause, is_no_register, is_phrase_above, is_phrase_long, is_set_above, is_set_long, is_wish_above, is_wish_long, limit_of, names_in};
ghost use Rattle.tpl_token.specs.Internal.Phrases.{domain_view, atom_view, phrase, set_view, wish_view, wishes_view, words_view};

use crate::values::number;
use rv_csr::is_cause;
use std::alloc::{AllocError, Global};
use tpl_ast::{MAX_ATOMS, MAX_ELEMENTS, MAX_TIMES, MAX_WEIGHT, Var};
use tpl_lang::{Element, Numeral, OutcomeElement};
use tpl_token::{AtomText, DomainText, SetText, Statement, WishText};

fn is_large(n: Numeral) -> bool
    ensures { result ≡ is_large n }
{
    n.value.is_none()
}

fn is_any_large(ns: &[Numeral]) -> bool
    ensures { result ≡ list_any is_large ns.now }
{
    ns.iter().any(|n| is_large(*n))
}

fn is_above(limit: u32, n: Numeral) -> bool
    ensures { result ≡ is_above limit n }
{
    is_large(n) || limit < number(n)
}

fn is_any_above(limit: u32, ns: &[Numeral]) -> bool
    ensures { result ≡ list_any (is_above limit) ns.now }
{
    ns.iter().any(|n| is_above(limit, *n))
}

fn is_element_above(limit: u32, element: Element) -> bool
    ensures { result ≡ is_element_above limit element }
{
    match element {
        Element::One(n) => is_above(limit, n),
        Element::Range(low, high) => is_above(limit, low) || is_above(limit, high),
    }
}

fn is_any_element_above(limit: u32, elements: &[Element]) -> bool
    ensures { result ≡ list_any (is_element_above limit) elements.now }
{
    elements.iter().any(|e| is_element_above(limit, *e))
}

fn is_align_wrong(align: Option<Numeral>) -> bool
    ensures { result ≡ is_align_wrong align }
{
    match align {
        None => false,
        Some(n) => is_large(n) || !number(n).is_power_of_two(),
    }
}

fn is_set_above(limit: u32, set: &SetText<'_>) -> bool
    ensures { result ≡ is_set_above limit (set_view set.now) }
{
    match set {
        SetText::Named(_) => false,
        SetText::Listed(elements, align) => {
            is_any_element_above(limit, elements) || is_align_wrong(*align)
        }
    }
}

/// The largest number of a variable.
fn limit_of(var: Var) -> u32
    ensures { result ≡ limit_of var }
{
    match var {
        Var::Rs1 | Var::Rs2 | Var::Rd => 31,
        _ => u32::MAX,
    }
}

fn is_no_cause(outcome: OutcomeElement) -> bool
    ensures { result ≡ is_no_cause outcome }
{
    match outcome {
        OutcomeElement::Retire => false,
        OutcomeElement::Cause(n) => is_large(n) || !is_cause(number(n)),
    }
}

fn is_any_no_cause(outcomes: &[OutcomeElement]) -> bool
    ensures { result ≡ list_any is_no_cause outcomes.now }
{
    outcomes.iter().any(|o| is_no_cause(*o))
}

fn is_no_fetch_cause(outcome: OutcomeElement) -> bool
    ensures { result ≡ is_no_fetch_cause outcome }
{
    match outcome {
        OutcomeElement::Retire => false,
        OutcomeElement::Cause(n) => is_large(n) || !(number(n) == 1 || number(n) == 12),
    }
}

fn is_any_no_fetch_cause(outcomes: &[OutcomeElement]) -> bool
    ensures { result ≡ list_any is_no_fetch_cause outcomes.now }
{
    outcomes.iter().any(|o| is_no_fetch_cause(*o))
}

fn is_domain_above(var: Var, domain: &DomainText<'_>) -> bool
    ensures { result ≡ is_domain_above var (domain_view domain.now) }
{
    match domain {
        DomainText::Numbers(set) => is_set_above(limit_of(var), set),
        DomainText::Words(_) => false,
        DomainText::Outcomes(outcomes) => is_any_no_cause(outcomes),
    }
}

fn is_atom_above(atom: &AtomText<'_>) -> bool
    ensures { result ≡ is_atom_above (atom_view atom.now) }
{
    match atom {
        AtomText::Among(var, domain) => is_domain_above(*var, domain),
        AtomText::NotAmong(var, domain) => is_domain_above(*var, domain),
        _ => false,
    }
}

fn is_wish_above(wish: &WishText<'_>) -> bool
    ensures { result ≡ is_wish_above (wish_view wish.now) }
{
    is_atom_above(&wish.atom)
}

fn is_any_wish_above(wishes: &[WishText<'_>]) -> bool
    ensures { result ≡ list_any is_wish_above (wishes_view wishes.now) }
{
    for wish in wishes {
        if is_wish_above(wish) {
            return true;
        }
    }
    false
}

fn is_no_register(number: Option<u32>) -> bool
    ensures { result ≡ is_no_register number }
{
    match number {
        None => true,
        Some(n) => n == 0 || 31 < n,
    }
}

/// Whether a number is above the limit of its place.
pub fn is_phrase_above(statement: &Statement<'_>) -> bool
    ensures { result ≡ is_phrase_above (phrase statement.now) }
{
    match statement {
        Statement::Ram(low, high) => is_large(*low) || is_large(*high),
        Statement::Pool(frames) => is_any_large(frames),
        Statement::Tables(frames) => is_any_large(frames),
        Statement::Flags(flags) => is_any_above(255, flags),
        Statement::Vectors(set) => is_set_above(u32::MAX, set),
        Statement::Set(_, set) => is_set_above(u32::MAX, set),
        Statement::Name(_, set) => is_set_above(u32::MAX, set),
        Statement::Data(address, word) => is_large(*address) || is_large(*word),
        Statement::Hart(number) => is_large(*number),
        Statement::Start(pc, _) => is_large(*pc),
        Statement::Csr(_, value) => is_large(*value),
        Statement::Reg(number, value) => is_no_register(*number) || is_large(*value),
        Statement::Do(wishes) => is_any_wish_above(wishes),
        Statement::Fault(outcomes) => is_any_no_fetch_cause(outcomes),
        Statement::Repeat(times) => is_above(MAX_TIMES, *times),
        Statement::Way(weight) => is_above(MAX_WEIGHT, *weight),
        _ => false,
    }
}

fn is_set_long(set: &SetText<'_>) -> bool
    ensures { result ≡ is_set_long (set_view set.now) }
{
    match set {
        SetText::Named(_) => false,
        SetText::Listed(elements, _) => MAX_ELEMENTS < elements.len(),
    }
}

fn is_domain_long(domain: &DomainText<'_>) -> bool
    ensures { result ≡ is_domain_long (domain_view domain.now) }
{
    match domain {
        DomainText::Numbers(set) => is_set_long(set),
        DomainText::Words(words) => MAX_ELEMENTS < words.len(),
        DomainText::Outcomes(outcomes) => MAX_ELEMENTS < outcomes.len(),
    }
}

fn is_wish_long(wish: &WishText<'_>) -> bool
    ensures { result ≡ is_wish_long (wish_view wish.now) }
{
    match &wish.atom {
        AtomText::Among(_, domain) => is_domain_long(domain),
        AtomText::NotAmong(_, domain) => is_domain_long(domain),
        _ => false,
    }
}

fn is_any_wish_long(wishes: &[WishText<'_>]) -> bool
    ensures { result ≡ list_any is_wish_long (wishes_view wishes.now) }
{
    for wish in wishes {
        if is_wish_long(wish) {
            return true;
        }
    }
    false
}

/// Whether one of the statement's own lists is too long.
pub fn is_phrase_long(statement: &Statement<'_>) -> bool
    ensures { result ≡ is_phrase_long (phrase statement.now) }
{
    match statement {
        Statement::Vectors(set) => is_set_long(set),
        Statement::Set(_, set) => is_set_long(set),
        Statement::Name(_, set) => is_set_long(set),
        Statement::Do(wishes) => MAX_ATOMS < wishes.len() || is_any_wish_long(wishes),
        Statement::Fault(outcomes) => MAX_ELEMENTS < outcomes.len(),
        _ => false,
    }
}

/// The names of `== NAME`.
fn names_in<'a>(alloc: Global, wishes: &[WishText<'a>]) -> Result<Vec<&'a [u8]>, AllocError>
    ensures { IfOk result (λ v. words_view v.items ≡ names_in (wishes_view wishes.now)) }
{
    let mut names = Vec::new(alloc);
    for wish in wishes {
        match &wish.atom {
            AtomText::IsName(_, name) => names.push(*name)?,
            _ => {}
        }
    }
    Ok(names)
}

fn is_name_among(names: &[&[u8]], name: &[u8]) -> bool
    ensures { result ≡ is_name_among (words_view names.now) name.now }
{
    for other in names {
        if *other == name {
            return true;
        }
    }
    false
}

fn has_twice(names: &[&[u8]]) -> bool
    ensures { result ≡ has_twice (words_view names.now) }
{
    let mut rest = names;
    while let [name, others @ ..] = rest {
        if is_name_among(others, name) {
            return true;
        }
        rest = others;
    }
    false
}

/// Whether a line gives a name twice.
pub fn is_name_twice(alloc: Global, statement: &Statement<'_>) -> Result<bool, AllocError>
    ensures { IfOk result (λ b. b ≡ is_name_twice (phrase statement.now)) }
{
    match statement {
        Statement::Do(wishes) => {
            let names = names_in(alloc, wishes)?;
            Ok(has_twice(&names))
        }
        _ => Ok(false),
    }
}
