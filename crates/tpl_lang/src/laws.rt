// Laws of the language.
ghost use Rattle.tpl_lang.specs.Laws.{BlanksSayNothing, CarriageReturnsSayNothing, CommentsSayNothing, FirstFaultDecides, LeastKindIsTold, LeavesAreKnown, LengthsAreKept, LongTextsAreRefused, StatementsAreSpelled, TemplatesKeepLimits, TokensDecide, WordsAreRead};

/// Does nothing. Its contract says that a text says what the tokens of its lines say, that comments, blanks and
/// carriage returns before line feeds say nothing, that the answer for a faulty text depends on its lines up to
/// the faulty one alone, and that a text of more than 65,536 bytes is refused as a whole.
#[tactic(auto, using(crate::proofs::Texts::carriage_returns, crate::proofs::Texts::first_fault, crate::proofs::Texts::long_texts, crate::proofs::Texts::tokens_decide))]
pub fn language_laws()
    ensures tokens { TokensDecide }
    ensures comments { CommentsSayNothing }
    ensures carriage_returns { CarriageReturnsSayNothing }
    ensures blanks { BlanksSayNothing }
    ensures first_fault { FirstFaultDecides }
    ensures long_texts { LongTextsAreRefused }
{}

/// Does nothing. Its contract says what holds of every template: how long its text is; that RAM is whole frames, in
/// regions apart, of at most 64 MiB; that frames are in RAM, each once; what its flag bytes, vectors, words, names and
/// starts are; that names are numbered and used in the order of the text, and that no label stands in a repeat; what
/// its leaves, repeats and choices are, and that an alternative of each choice can be picked; and how many of each
/// there are.
pub fn template_law()
    ensures { TemplatesKeepLimits }
{}

/// Does nothing. Its contract says what is known of the atoms of a leaf that stands in a template.
pub fn leaf_law()
    ensures { LeavesAreKnown }
{}

/// Does nothing. Its contract says that the lengths by which a text is judged are those of the bodies that its
/// lines tell.
pub fn judged_length_law()
    ensures { LengthsAreKept }
{}

/// Does nothing. Its contract says that each word is read as what it spells.
#[tactic(auto, using(crate::proofs::Spelled::words_are_read))]
pub fn word_law()
    ensures { WordsAreRead }
{}

/// Does nothing. Its contract says that the tokens of a line are a statement exactly where the statement is spelled
/// with them.
#[tactic(auto, using(crate::proofs::Statements::statements_are_spelled))]
pub fn statement_law()
    ensures { StatementsAreSpelled }
{}

/// Does nothing. Its contract says that of the faults that a statement has the one of the least kind is told.
#[tactic(auto, using(crate::proofs::Least::least_kind_is_told))]
pub fn kind_law()
    ensures { LeastKindIsTold }
{}
