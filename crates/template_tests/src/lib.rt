//! Tests of what templates say: their sets, atoms, starts and names, and whole templates.
#![tactic(auto)]

#[cfg(test)]
mod content;
#[cfg(test)]
mod parts;
#[cfg(test)]
mod printing;
