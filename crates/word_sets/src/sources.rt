// The words of which legal ones come.
ghost use Rattle.std.specs.Prelude.{ℕ, ◌≡◌, ◌==◌, ◌||◌, ◌^◌, ◌<◌, ◌↔◌, bit_and, IfOk, IsTrue, OnOk};
ghost use Rattle.dom_set.specs.Elements.{is_in, is_matching};
ghost use Rattle.word_sets.specs.Internal.Sources.{ComesOf, IsLegalSource, best, is_sourced, made};

use crate::legal::{Pattern, legal_patterns};
use dom_set::{OutOfMemory, Set, set_laws};
use std::alloc::Global;

/// What is written, by a word that is open and another.
#[derive(Clone, Copy, Debug, PartialEq, Eq)]
pub enum Made {
    /// The open word.
    Itself,
    /// The open word with the bits of the other.
    With,
    /// The open word without the bits of the other.
    Without,
    /// The other word without the bits of the open one.
    From,
}

/// The pattern, unless there are bits in conflict.
fn unless_conflict(conflict: u32, pattern: Pattern) -> Option<Pattern>
    ensures clear { conflict ≡ 0 → result ≡ Some pattern }
    ensures conflicting { (conflict ≡ 0 → ⊥) → result ≡ None }
{
    if conflict == 0 { Some(pattern) } else { None }
}

impl Made {
    /// The word that is written.
    pub fn of(self, word: u32, other: u32) -> u32
        ensures { result ≡ made self word other }
    {
        match self {
            Made::Itself => word,
            Made::With => word | other,
            Made::Without => word & !other,
            Made::From => other & !word,
        }
    }

    /// The pattern of the open words of which, with the other, a word with the pattern comes; `None`
    /// where there is none.
    fn source(self, other: u32, pattern: Pattern) -> Option<Pattern>
        ensures { (v : ℕ) → v < 2 ^ 32 → is_sourced result v ≡ (bit_and (made self v other) pattern.0 == pattern.1) }
    {
        let (mask, bits) = pattern;
        let outside = bits & !mask;
        match self {
            Made::Itself => Some(pattern),
            Made::With => unless_conflict(
                outside | (mask & other & !bits),
                (mask & !other, bits & !other),
            ),
            Made::Without => unless_conflict(outside | (bits & other), (mask & !other, bits)),
            Made::From => unless_conflict(
                outside | (bits & !other),
                (mask & other, mask & other & !bits),
            ),
        }
    }

    /// The other word with which a word with these bits comes of the most open ones.
    fn best(self, bits: u32) -> u32
        ensures { result ≡ best self bits }
    {
        match self {
            Made::Itself | Made::With | Made::From => bits,
            Made::Without => !bits,
        }
    }

    /// The pattern of the open words of which, with the other if it is known, and else with some other,
    /// a word with the pattern comes.
    fn source_by(self, other: Option<u32>, pattern: Pattern) -> Option<Pattern>
        ensures { (v : ℕ) → v < 2 ^ 32 → IsTrue (is_sourced result v) ↔ ComesOf self other (λ n. bit_and n pattern.0 == pattern.1) v }
    {
        match other {
            Some(word) => self.source(word, pattern),
            None => self.source(self.best(pattern.1), pattern),
        }
    }
}

/// Adds the pattern, if there is one.
fn push_source(sources: &mut Vec<Pattern>, source: Option<Pattern>) -> Result<(), OutOfMemory>
    ensures { OnOk result ((v : ℕ) → is_matching sources.new.items v ≡ (is_matching sources.old.items v || is_sourced source v)) }
{
    match source {
        Some(pattern) => {
            sources.push(pattern)?;
            Ok(())
        }
        None => Ok(()),
    }
}

/// The patterns of the open words of which a word with one of the patterns comes.
fn sources_of(
    alloc: Global,
    patterns: &[Pattern],
    how: Made,
    other: Option<u32>,
) -> Result<Vec<Pattern>, OutOfMemory>
    ensures { IfOk result (λ sources. (v : ℕ) → v < 2 ^ 32 → IsTrue (is_matching sources.items v) ↔ ComesOf how other (is_matching patterns.now) v) }
{
    let mut sources = Vec::new(alloc);
    for pattern in patterns {
        push_source(&mut sources, how.source_by(other, *pattern))?;
    }
    Ok(sources)
}

/// The open words of which a word comes that is legal for the register at the address, with the other
/// word if it is known, and else with some other; and 0 where that writes nothing. These and no others.
pub fn legal_sources(
    alloc: Global,
    csr: u32,
    how: Made,
    other: Option<u32>,
    zero: bool,
) -> Result<Set, OutOfMemory>
    ensures { IfOk result (λ set. (v : ℕ) → v < 2 ^ 32 → IsTrue (is_in set v) ↔ IsLegalSource csr how other zero v) }
{
    set_laws();
    let mut sources = sources_of(alloc, legal_patterns(csr), how, other)?;
    if zero {
        sources.push((u32::MAX, 0))?;
    }
    let set = Set::from_patterns(alloc, &sources)?;
    Ok(set)
}
