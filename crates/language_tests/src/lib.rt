//! Tests of the template language: its words and lists, and what the parser tells of texts, at its limits and of the
//! examples of the documents.
#![tactic(auto)]

#[cfg(test)]
mod every;
#[cfg(test)]
mod examples;
#[cfg(test)]
mod faults;
#[cfg(test)]
mod firsts;
#[cfg(test)]
mod limits;
#[cfg(test)]
mod syntax;
#[cfg(test)]
mod told;
