// Laws of the search.
ghost use Rattle.gen_search.specs.Fit.{TemplatesCanBeSearched};
ghost use Rattle.gen_search.specs.Laws.{DrawsAreInOrder, HasOneResult, HasSomeResult, OneWayIsTaken, ResultsAreBounded, TriesGoOn};
ghost use Rattle.gen_search.specs.Moved.{SearchesAreMoved};

use crate::PartialTest;

/// Does nothing. Its contract says that a search has one result at most where each leaf turn that can be taken has one
/// answer at most, and one where each has one and an alternative of each choice can be picked; that a result tells of at
/// most so many leaf turns; that a choice of one alternative is that alternative; that alternatives are tried one after
/// another; and that bodies of the same lines are searched alike.
pub fn search_laws<P: PartialTest>()
    ensures one_result { HasOneResult P.can_take P.rules }
    ensures some_result { HasSomeResult P.can_take P.rules }
    ensures bounded { ResultsAreBounded P.rules }
    ensures one_way { OneWayIsTaken P.rules }
    ensures tries { TriesGoOn P.rules }
    ensures moved { SearchesAreMoved P.rules }
{}

/// Does nothing. Its contract says that an alternative of each choice of a template can be picked.
#[tactic(auto, using(crate::proofs::Templates::templates_can_be_searched))]
pub fn template_law()
    ensures { TemplatesCanBeSearched }
{}

/// Does nothing. Its contract says that draws, taken one time after another, are the words of the generator in order.
#[tactic(auto, using(crate::proofs::Lawful::in_order))]
pub fn draw_laws()
    ensures { DrawsAreInOrder }
{}
