// New entries that lead to the same ends, together.
ghost use Rattle.std.specs.Prelude.{◌≡◌, ◌==◌, ℕ, ◌+◌, ◌≤◌, Bool, Option, All, length, OnOk, IfOk};
ghost use Rattle.dom_set.specs.Counting.{one};
ghost use Rattle.row_parts.specs.Forms.{IsOnce, times_in};
ghost use Rattle.row_parts.specs.Alike.{times_held, LeadAlike, IsAlike, by_groups, by_word};

use crate::numbers::set_of;
use dom_set::{OutOfMemory, Set};
use std::alloc::Global;

/// What new entries lead to.
pub trait Entries {
    ghost use Rattle.std.specs.Prelude.{◌≡◌, ℕ, true, Option};
    ghost use Rattle.row_parts.specs.Alike.{Ends, LeadAlike};

    /// The ends of an address with a new entry, and with a further one or none.
    ghost ends: { Self → Ends };

    /// Whether two entries are seen to have the same ends.
    fn are_alike(&self, a: u32, b: u32) -> bool
        ensures { result ≡ true → LeadAlike (ends self.now) a b };
}

/// New entries that lead to the same ends.
#[derive(Drop)]
pub struct Group {
    /// One of them.
    pub entry: u32,
    pub values: Set,
}

/// Puts a value with those that are like an entry, or with the others.
fn sort_value<E: Entries>(
    choice: &E,
    entry: u32,
    value: u32,
    alike: &mut Vec<u32>,
    others: &mut Vec<u32>,
) -> Result<(), OutOfMemory>
    requires { All (LeadAlike (E.ends choice.now) entry) alike.old.items }
    ensures count { OnOk result ((w : ℕ) →
        times_in alike.new.items w + times_in others.new.items w
        ≡ times_in alike.old.items w + (times_in others.old.items w + one (value == w))) }
    ensures alike { OnOk result (All (LeadAlike (E.ends choice.now) entry) alike.new.items) }
    ensures few { OnOk result (length others.new.items ≤ length others.old.items + 1) }
{
    if choice.are_alike(entry, value) {
        alike.push(value)?;
        return Ok(());
    }
    others.push(value)?;
    Ok(())
}

/// Puts each value with those that are like an entry, or with the others.
fn sort_values<E: Entries>(
    choice: &E,
    entry: u32,
    values: &[u32],
    alike: &mut Vec<u32>,
    others: &mut Vec<u32>,
) -> Result<(), OutOfMemory>
    requires { All (LeadAlike (E.ends choice.now) entry) alike.old.items }
    ensures count { OnOk result ((w : ℕ) →
        times_in alike.new.items w + times_in others.new.items w
        ≡ times_in alike.old.items w + (times_in others.old.items w + times_in values.now w)) }
    ensures alike { OnOk result (All (LeadAlike (E.ends choice.now) entry) alike.new.items) }
    ensures few { OnOk result (length others.new.items ≤ length others.old.items + length values.now) }
{
    for value in values {
        sort_value(choice, entry, *value, alike, others)?;
    }
    Ok(())
}

/// Appends the group of an entry, and gives those of the values that aren't in it.
fn push_group<E: Entries>(
    alloc: Global,
    choice: &E,
    entry: u32,
    values: &[u32],
    groups: &mut Vec<Group>,
) -> Result<Vec<u32>, OutOfMemory>
    requires once { (w : ℕ) → one (entry == w) + times_in values.now w ≤ 1 }
    requires alike { All (IsAlike (E.ends choice.now)) groups.old.items }
    ensures count { IfOk result (λ others. (w : ℕ) →
        times_held groups.new.items w + times_in others.items w
        ≡ times_held groups.old.items w + (one (entry == w) + times_in values.now w)) }
    ensures alike { OnOk result (All (IsAlike (E.ends choice.now)) groups.new.items) }
    ensures few { IfOk result (λ others. length others.items ≤ length values.now) }
{
    let mut alike = Vec::new(alloc);
    alike.push(entry)?;
    let mut others = Vec::new(alloc);
    sort_values(choice, entry, values, &mut alike, &mut others)?;
    let values = set_of(alloc, &alike)?;
    groups.push(Group { entry, values })?;
    Ok(others)
}

/// Groups of the values of a list that has each once.
fn gathered<E: Entries>(
    alloc: Global,
    choice: &E,
    values: Vec<u32>,
) -> Result<Vec<Group>, OutOfMemory>
    requires { (w : ℕ) → times_in values.items w ≤ 1 }
    ensures count { IfOk result (λ groups. (w : ℕ) → times_held groups.items w ≡ times_in values.items w) }
    ensures alike { IfOk result (λ groups. All (IsAlike (E.ends choice.now)) groups.items) }
{
    let mut groups = Vec::new(alloc);
    let mut rest = values;
    while let Some(entry) = rest.pop() {
        rest = push_group(alloc, choice, entry, &rest, &mut groups)?;
    }
    Ok(groups)
}

/// The values of a list that has each once, in groups, which give the ends that the values have.
pub fn grouped<E: Entries>(
    alloc: Global,
    choice: &E,
    values: Vec<u32>,
) -> Result<Vec<Group>, OutOfMemory>
    requires { (w : ℕ) → times_in values.items w ≤ 1 }
    ensures count { IfOk result (λ groups. (w : ℕ) → times_held groups.items w ≡ times_in values.items w) }
    ensures ends { IfOk result (λ groups. (test : ℕ → Bool) (given : Option ℕ) (x : ℕ) (leaf : Option ℕ) → IsOnce test values.items →
        by_groups groups.items given (λ w. E.ends choice.now w x leaf) ≡ by_word test given (λ w. E.ends choice.now w x leaf)) }
{
    let groups = gathered(alloc, choice, values)?;
    Ok(groups)
}
