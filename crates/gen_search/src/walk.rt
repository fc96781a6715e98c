// A walk through bodies, with the choices that it stands in.
use crate::Tally;
use crate::choice::Choice;
use crate::place::Place;
use tpl_ast::{HartDecl, Item};

/// A leaf and its line.
#[derive(Clone, Copy)]
pub struct Leaf<'t> {
    pub item: &'t Item,
    pub line: u32,
}

/// A walk, which is what a search keeps beside the test.
#[derive(Drop)]
pub struct Walk<'t> {
    /// The number of the whole at the beginning.
    pub start: usize,
    pub harts: &'t [HartDecl],
    pub place: Place<'t>,
    /// The choices that it stands in, the innermost last.
    pub choices: Vec<Choice<'t>>,
    pub tally: Tally,
}
