// The laws of fitting.
ghost use Rattle.fd_prob.specs.Laws.{FittingIsOfACase, RelationsLookAtMentioned, SlotsAreInOrder};

/// Does nothing. Its contract says that what fits a problem is of one of its cases, with each value in
/// its domain and each relation holding there, that the list of the variables has each at its place, and that
/// a relation looks only at the variables that it mentions.
#[tactic(auto, using(crate::proofs::Fitted::fitting, crate::proofs::Places::in_order, crate::proofs::Mentioning::holds_same))]
pub fn fitting_laws()
    ensures fitting { FittingIsOfACase }
    ensures order { SlotsAreInOrder }
    ensures mentioned { RelationsLookAtMentioned }
{}
