// Sums and differences of elements of two sets that are in a domain.
ghost use Rattle.std.specs.Prelude.{IfOk};
ghost use Rattle.set_sums.specs.Internal.Wanted.{Holds, HoldsAny};
ghost use Rattle.set_sums.specs.Internal.Spans.{HasDifferencesWithin, HasSumsWithin};

use crate::near::{is_narrow, near_differences};
use crate::ranges::{differences_around, lowered, shifted, sums_around};
use crate::remainders::{class_differences, class_sums};
use dom_set::{OutOfMemory, Set};
use std::alloc::Global;

/// What is looked for: the sums of elements of two sets, or the words that give an element of the first set when one of
/// the second is added.
#[derive(Clone, Copy)]
pub enum Wanted {
    Sums,
    Differences,
}

/// The words of the domain that give an element of the first set when one of the second is added: where the domain is
/// near 0 by places and low bits together, unless there are too many pairs for that, and else by ranges.
fn differences_of(
    alloc: Global,
    first: &Set,
    second: &Set,
    domain: &Set,
    classes: &Set,
) -> Result<Set, OutOfMemory>
    ensures { IfOk result (HasDifferencesWithin first.now second.now domain.now) }
{
    domain.element_laws();
    if is_narrow(domain) {
        if let Some(near) = near_differences(alloc, first, second, domain, classes)? {
            return Ok(near);
        }
    }
    let differences = differences_around(alloc, first, second, domain)?;
    Ok(differences)
}

/// What is wanted of two sets and is in the domain, by the places of their elements. Of what is in none of the classes
/// there may be more.
fn around_of(
    alloc: Global,
    wanted: Wanted,
    first: &Set,
    second: &Set,
    domain: &Set,
    classes: &Set,
) -> Result<Set, OutOfMemory>
    ensures { IfOk result (Holds wanted first.now second.now domain.now) }
{
    match wanted {
        Wanted::Sums => {
            let sums = sums_around(alloc, first, second, domain)?;
            Ok(sums)
        }
        Wanted::Differences => {
            let differences = differences_of(alloc, first, second, domain, classes)?;
            Ok(differences)
        }
    }
}

/// What is wanted of two sets, by low bits of the whole sets.
fn classes_of(alloc: Global, wanted: Wanted, first: &Set, second: &Set) -> Result<Set, OutOfMemory>
    ensures { IfOk result (HoldsAny wanted first.now second.now) }
{
    match wanted {
        Wanted::Sums => {
            let sums = class_sums(alloc, first, second, 1)?;
            Ok(sums)
        }
        Wanted::Differences => {
            let differences = class_differences(alloc, first, second)?;
            Ok(differences)
        }
    }
}

/// What is wanted of two sets and is in the domain, by places and by low bits of the whole sets.
fn of_wholes(
    alloc: Global,
    wanted: Wanted,
    first: &Set,
    second: &Set,
    domain: &Set,
) -> Result<Set, OutOfMemory>
    ensures { IfOk result (Holds wanted first.now second.now domain.now) }
{
    let classes = classes_of(alloc, wanted, first, second)?;
    let around = around_of(alloc, wanted, first, second, domain, &classes)?;
    let found = around.and(alloc, &classes)?;
    Ok(found)
}

/// The sums of elements of two sets, modulo 2^32, that are in the domain, and perhaps more, as all sums where one of
/// the sets has one element.
pub fn sums_within(
    alloc: Global,
    first: &Set,
    second: &Set,
    domain: &Set,
) -> Result<Set, OutOfMemory>
    ensures { IfOk result (HasSumsWithin first.now second.now domain.now) }
{
    first.element_laws();
    second.element_laws();
    if let Some(x) = second.only() {
        let sums = shifted(alloc, first, x)?;
        return Ok(sums);
    }
    if let Some(x) = first.only() {
        let sums = shifted(alloc, second, x)?;
        return Ok(sums);
    }
    let sums = of_wholes(alloc, Wanted::Sums, first, second, domain)?;
    Ok(sums)
}

/// The words of the domain that give an element of the first set when one of the second is added, modulo 2^32, and
/// perhaps more, as all such words where the second set has one element.
pub fn differences_within(
    alloc: Global,
    first: &Set,
    second: &Set,
    domain: &Set,
) -> Result<Set, OutOfMemory>
    ensures { IfOk result (HasDifferencesWithin first.now second.now domain.now) }
{
    domain.element_laws();
    if let Some(x) = second.only() {
        let differences = lowered(alloc, first, x)?;
        return Ok(differences);
    }
    let differences = of_wholes(alloc, Wanted::Differences, first, second, domain)?;
    Ok(differences)
}
