//! Tests of the words of commands: what rows of words ask for, and how much each command takes.
#![tactic(auto)]

#[cfg(test)]
mod words;
