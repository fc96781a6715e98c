// Choices: which alternative a draw picks, and which are left to be tried.
ghost use Rattle.std.specs.Prelude.{◌≡◌, ◌<◌, ◌+◌, ◌%◌, [], ◌∷◌, ◌++◌, length, true, IfOk, MatchOption};
ghost use Rattle.tpl_ast.specs.Choices.{can_pick, weight_of};
ghost use Rattle.gen_search.specs.Search.{picked, way_at};
ghost use Rattle.gen_search.specs.Places.{AreTried, IsInside};
ghost use Rattle.gen_search.specs.Internal.Tries.{IsCyclic};

use crate::place::Place;
use std::alloc::AllocError;
use tpl_ast::Item;

/// A choice that a walk stands in.
#[derive(Drop)]
pub struct Choice<'t> {
    /// The number of the whole before it.
    pub mark: usize,
    /// What comes after it.
    pub place: Place<'t>,
    /// Its alternatives with their weights.
    pub ways: &'t [(u32, Vec<Item>)],
    /// The alternative that is tried first.
    pub picked: usize,
    /// How many were tried.
    pub tried: usize,
}

/// Adds a choice inside of the others.
pub fn open_choice<'t>(others: &mut Vec<Choice<'t>>, choice: Choice<'t>) -> Result<(), AllocError>
    ensures { IfOk result (λ _. others.new.items ≡ others.old.items ++ (choice.entry ∷ [])) }
{
    others.push(choice)?;
    Ok(())
}

/// Takes off the innermost choice with an alternative that was not tried, and those inside of it, which have none.
pub fn next_open<'t>(choices: &mut Vec<Choice<'t>>) -> Option<Choice<'t>>
    ensures { MatchOption result (AreTried choices.old.items × (choices.new.items ≡ [])) (λ c. (c.tried < length c.ways.now) × IsInside choices.old.items choices.new.items c) }
{
    while let Some(choice) = choices.pop() {
        if choice.tried < choice.ways.len() {
            return Some(choice);
        }
    }
    None
}

/// The weights of the alternatives together.
fn weight_of(ways: &[(u32, Vec<Item>)]) -> u64
    requires { can_pick ways.now ≡ true }
    ensures { result ≡ weight_of ways.now }
{
    let mut sum = 0;
    for way in ways {
        sum += u64::from(way.0);
    }
    sum
}

/// The alternative whose range of weights holds a number, from 0.
fn way_at(ways: &[(u32, Vec<Item>)], n: u64) -> usize
    ensures { result ≡ way_at ways.now n }
{
    let mut left = n;
    let mut at = 0;
    for way in ways {
        let weight = u64::from(way.0);
        if left < weight {
            return at;
        }
        left -= weight;
        at += 1;
    }
    at
}

/// The alternative that a draw picks.
pub fn picked(ways: &[(u32, Vec<Item>)], draw: u32) -> usize
    requires { can_pick ways.now ≡ true }
    ensures value { result ≡ picked ways.now draw }
    ensures below { result < length ways.now }
{
    way_at(ways, u64::from(draw) % weight_of(ways))
}

/// The alternative that is tried as number `tried`, cyclically from the picked one.
pub fn cyclic_way(picked: usize, tried: usize, len: usize) -> usize
    requires picked { picked < len }
    requires tried { tried < len }
    ensures { IsCyclic picked tried len result }
{
    let before_end = len - picked;
    if tried < before_end {
        picked + tried
    } else {
        tried - before_end
    }
}
