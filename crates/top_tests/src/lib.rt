//! Tests of public calls of the top crates that no row of `rows` shows: the words of a program's arguments, the commands over std's readers and writers, and a verdict with the greatest numbers.
#![tactic(auto)]

#[cfg(test)]
mod adapters;
#[cfg(test)]
mod verdicts;
#[cfg(test)]
mod words;
