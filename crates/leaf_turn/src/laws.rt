// Laws of turns.
ghost use Rattle.leaf_turn.specs.Answers.{TakingsAreOne};
ghost use Rattle.leaf_turn.specs.Finding.{AnswersAreFound, FaultsArePlayable, FetchesAreEnterable, FoundArePlayable};

use leaf_link::{entries_are_by_places, values_are_by_places};
use turn_laws::{entries_are_next, played_steps_are_next, steps_are_played};

/// Does nothing. Its contract says that what is found for a leaf, with the biases that are kept, is the values of a
/// candidate that can be taken.
pub fn answers_are_found()
    ensures { AnswersAreFound }
{}

/// Does nothing. Its contract says that the values of what is found for a leaf, and for a `fault` leaf, are those of a step
/// that its hart can make; and that those of what is found for a fetch are of page table entries that can be given.
pub fn answers_are_playable()
    ensures found { FoundArePlayable }
    ensures faults { FaultsArePlayable }
    ensures fetches { FetchesAreEnterable }
{
    values_are_by_places();
    entries_are_by_places();
    steps_are_played();
    entries_are_next();
}

/// Does nothing. Its contract says that the values of an answer give one record and one test when they are taken on a
/// test: their places are given in the order in which the step asks for them.
pub fn takings_are_one()
    ensures { TakingsAreOne }
{
    played_steps_are_next();
}
