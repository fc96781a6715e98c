use crate::dropped::Dropped;
use rv_hart::Record;
use tpl_ast::{HartState, Items, Template};

/// A test with all that it promises, hart by hart.
#[derive(Drop)]
pub struct Cert {
    /// Where each hart starts.
    pub start: Items<HartState>,
    /// The words of memory that are given a value, as pairs of address and value by ascending address.
    pub words: Items<(u32, u32)>,
    /// What each step of each hart does.
    pub traces: Items<Items<Record>>,
    /// Where each hart ends, with every place that was given or written.
    pub finals: Items<HartState>,
    /// The final value of each of the words.
    pub last: Items<u32>,
    /// The template that the test is made from.
    pub template: Template,
    /// Which alternative each choice takes, from 0, in the order in which the choices are entered.
    pub choices: Items<u32>,
    /// Pairs of a name's index and its value by ascending index.
    pub names: Items<(u32, u32)>,
    /// The biases that are not kept, by ascending hart, step and atom.
    pub dropped: Items<Dropped>,
}
