// What sums leave when they are divided by a power of two, as addresses that are aligned do.
ghost use Rattle.std.specs.Prelude.{◌≡◌, ℕ, ◌+◌, ◌-◌, ◌*◌, ◌%◌, ◌^◌, ◌<◌, ◌≤◌, true, IfOk, IfSome, IsTrue, OnOk};
ghost use Rattle.dom_set.specs.Elements.{is_in, is_matching};
ghost use Rattle.set_sums.specs.Internal.Spans.{HasDifferences};
ghost use Rattle.set_sums.specs.Internal.Remainders.{AreClasses, AreClassesOf, AreSameClasses, HasClasses, HasClassSums, HasRemainders, HasRemaindersBelow};

use crate::ranges::meet;
use dom_set::{OutOfMemory, Set, set_laws};
use near_marks::WORDS;
use std::alloc::Global;

/// A mask, and the bits under it.
type Pattern = (u32, u32);

/// So many low bits are looked at, at most: all those of a branch's distance.
pub const MOST: u32 = 13;

/// The mask of so many low bits.
pub fn low_mask(count: u32) -> u32
    requires { count < 32 }
    ensures { result ≡ 2 ^ count - 1 }
{
    (1u32 << count) - 1
}

/// Whether an element of the set leaves the remainder when it is divided by 4.
fn leaves(alloc: Global, set: &Set, remainder: u32) -> Result<bool, OutOfMemory>
    ensures { IfOk result (λ some. (v : ℕ) → IsTrue (is_in set.now v) → v % 4 ≡ remainder → some ≡ true) }
{
    set_laws();
    set.element_laws();
    let class = Set::from_patterns(alloc, &[(3, remainder)])?;
    let some = meet(alloc, set, &class)?;
    Ok(some)
}

/// Adds the remainder, if an element of the set leaves it.
fn push_remainder(
    found: &mut Vec<u32>,
    alloc: Global,
    set: &Set,
    remainder: u32,
) -> Result<(), OutOfMemory>
    requires { HasRemaindersBelow set.now remainder found.old.items }
    ensures { OnOk result (HasRemaindersBelow set.now (remainder + 1) found.new.items) }
{
    if leaves(alloc, set, remainder)? {
        found.push(remainder)?;
        return Ok(());
    }
    Ok(())
}

/// The remainders that elements of the set leave when they are divided by 4.
fn remainders(alloc: Global, set: &Set) -> Result<Vec<u32>, OutOfMemory>
    ensures { IfOk result (λ found. HasRemainders set.now 2 found.items) }
{
    let mut found = Vec::new(alloc);
    for remainder in 0..4 {
        push_remainder(&mut found, alloc, set, remainder)?;
    }
    Ok(found)
}

/// The low bits of the elements, so many, where they are known to be the same, or the same but for bit 0.
fn known_remainders(alloc: Global, set: &Set, count: u32) -> Result<Option<Vec<u32>>, OutOfMemory>
    requires { 0 < count × count < 32 }
    ensures { IfOk result (λ found. IfSome found (λ numbers. HasRemainders set.now count numbers.items)) }
{
    let mask = low_mask(count);
    if let Some(bits) = set.bits_under(mask) {
        let numbers = Vec::from_array(alloc, [bits])?;
        return Ok(Some(numbers));
    }
    if let Some(bits) = set.bits_under(mask - 1) {
        let numbers = Vec::from_array(alloc, [bits, bits.wrapping_add(1)])?;
        return Ok(Some(numbers));
    }
    Ok(None)
}

/// Adds the pattern of so many low bits of one number and so many times another.
fn push_class(
    classes: &mut Vec<Pattern>,
    first: u32,
    other: u32,
    times: u32,
    count: u32,
) -> Result<(), OutOfMemory>
    requires { count < 32 }
    ensures class { OnOk result ((n : ℕ) → n % 2 ^ count ≡ (first + times * other) % 2 ^ count → IsTrue (is_matching classes.new.items n)) }
    ensures kept { OnOk result (AreSameClasses classes.old.items classes.new.items) }
{
    let mask = low_mask(count);
    let sum = first.wrapping_add(times.wrapping_mul(other));
    classes.push((mask, sum & mask))?;
    Ok(())
}

/// The patterns of so many low bits of one number and so many times one of the others.
fn push_classes(
    classes: &mut Vec<Pattern>,
    first: u32,
    others: &[u32],
    times: u32,
    count: u32,
) -> Result<(), OutOfMemory>
    requires { count < 32 }
    ensures classes { OnOk result (AreClassesOf classes.new.items first others.now times count) }
    ensures kept { OnOk result (AreSameClasses classes.old.items classes.new.items) }
{
    for other in others {
        push_class(classes, first, *other, times, count)?;
    }
    Ok(())
}

/// The patterns of so many low bits of one of the numbers and so many times one of the others.
fn classes_of(
    alloc: Global,
    firsts: &[u32],
    others: &[u32],
    times: u32,
    count: u32,
) -> Result<Vec<Pattern>, OutOfMemory>
    requires { count < 32 }
    ensures { IfOk result (λ classes. AreClasses classes.items firsts.now others.now times count) }
{
    let mut classes = Vec::new(alloc);
    for first in firsts {
        push_classes(&mut classes, *first, others, times, count)?;
    }
    Ok(classes)
}

/// The words whose low bits, so many, are those of one of the numbers and so many times one of the others.
fn words_leaving(
    alloc: Global,
    firsts: &[u32],
    others: &[u32],
    times: u32,
    count: u32,
) -> Result<Set, OutOfMemory>
    requires { count < 32 }
    ensures { IfOk result (HasClasses firsts.now others.now times count) }
{
    set_laws();
    let classes = classes_of(alloc, firsts, others, times, count)?;
    let set = Set::from_patterns(alloc, &classes)?;
    Ok(set)
}

/// The words that leave what an element of the first set and so many times one of the second do when they are divided
/// by 4.
fn quarter_sums(alloc: Global, first: &Set, second: &Set, times: u32) -> Result<Set, OutOfMemory>
    ensures { IfOk result (HasClassSums first.now second.now times) }
{
    set_laws();
    let firsts = remainders(alloc, first)?;
    let others = remainders(alloc, second)?;
    let set = words_leaving(alloc, &firsts, &others, times, 2)?;
    // All four classes are all words, which are one range.
    if set.size() == WORDS {
        let words = Set::all(alloc)?;
        return Ok(words);
    }
    Ok(set)
}

/// The words that have the low bits, so many, of an element of the first set and so many times one of the second, where
/// those of both sets are known: None where they are not.
fn known_sums(
    alloc: Global,
    first: &Set,
    second: &Set,
    times: u32,
    count: u32,
) -> Result<Option<Set>, OutOfMemory>
    requires { 0 < count × count < 32 }
    ensures { IfOk result (λ found. IfSome found (HasClassSums first.now second.now times)) }
{
    let Some(firsts) = known_remainders(alloc, first, count)? else {
        return Ok(None);
    };
    let Some(others) = known_remainders(alloc, second, count)? else {
        return Ok(None);
    };
    let set = words_leaving(alloc, &firsts, &others, times, count)?;
    Ok(Some(set))
}

/// The words that may be an element of the first set and so many times one of the second, by as many low bits as are
/// known of both sets, and else by what they leave when they are divided by 4.
pub fn class_sums(alloc: Global, first: &Set, second: &Set, times: u32) -> Result<Set, OutOfMemory>
    ensures { IfOk result (HasClassSums first.now second.now times) }
{
    for fewer in 0..MOST - 2 {
        if let Some(set) = known_sums(alloc, first, second, times, MOST - fewer)? {
            return Ok(set);
        }
    }
    let set = quarter_sums(alloc, first, second, times)?;
    Ok(set)
}

/// The words that may give an element of the first set when one of the second is added, by their low bits.
pub fn class_differences(alloc: Global, first: &Set, second: &Set) -> Result<Set, OutOfMemory>
    ensures { IfOk result (HasDifferences first.now second.now) }
{
    // Modulo 2^32 the greatest word stands for -1.
    let set = class_sums(alloc, first, second, u32::MAX)?;
    Ok(set)
}
