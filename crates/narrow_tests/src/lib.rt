//! Tests of what relations leave of domains: problems as rows of tables, whose answers come from a plain search of all
//! combinations or from the manuals' rules.
#![tactic(auto)]

#[cfg(test)]
mod large;
#[cfg(test)]
mod small;
#[cfg(test)]
mod written;
