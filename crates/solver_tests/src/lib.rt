//! Tests of the problems of steps and of the exact solver: problems as rows of tables, whose answers come from the
//! manuals or from a plain search.
#![tactic(auto)]

#[cfg(test)]
mod biases;
#[cfg(test)]
mod every;
#[cfg(test)]
mod fitting;
#[cfg(test)]
mod plain;
#[cfg(test)]
mod relations;
#[cfg(test)]
mod solving;
#[cfg(test)]
mod spaces;
#[cfg(test)]
mod wide;
