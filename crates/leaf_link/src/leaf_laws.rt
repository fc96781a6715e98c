// The laws of a leaf's problem as a whole.
ghost use Rattle.leaf_link.specs.Agreements.{LeafAnswersAgree, LeafAnswersExist, TurnAnswersAgree, TurnAnswersExist};
ghost use Rattle.leaf_link.specs.AllWays.{LeafAnswersAreExact, LeafProblemsAreExact};
ghost use Rattle.leaf_link.specs.Bounds.{SpaceIsBounded};
ghost use Rattle.leaf_link.specs.Domains.{CandidatesAreInDomains, CandidatesAreWords, OldDomainsAreLet, OldValuesAreInDomains};
ghost use Rattle.leaf_link.specs.Placing.{NewWordsAreFour, PlacesHaveValues, StepsKeepSatp, ValuesAreInstructions};
ghost use Rattle.leaf_link.specs.Firsts.{FirstsExist, FirstsHoldNothing, PivotsAreExact, SpaceIsExact, TurnAnswersAreExact};
ghost use Rattle.leaf_link.specs.Problems.{AnswersAreExact, ProblemIsExact};
ghost use Rattle.leaf_link.specs.Started.{OrderIsKept};

/// Does nothing. Its contract says that what fits the problem of a leaf stands one to one for the candidates, and
/// that an answer of the problem is the answer over candidates: that the budget is spent, the values of the least
/// candidate, or that there is none.
pub fn problems_are_exact()
    ensures problem { ProblemIsExact }
    ensures answers { AnswersAreExact }
{}

/// Does nothing. Its contract says that the problem of a leaf, over all operations, is exact: what fits it stands
/// one to one for the candidates, and its answer is the answer over candidates. Of page tables it takes that the
/// rows are those of the translation, for all addresses that the atoms let be the virtual one.
pub fn leaf_problems_are_exact()
    ensures problems { LeafProblemsAreExact }
    ensures answers { LeafAnswersAreExact }
{}

/// Does nothing. Its contract says that a problem whose first cases are those of the turn has the turn's space and
/// pivots, and that the space is at most 46,292,649 where data accesses are not translated.
pub fn spaces_are_exact()
    ensures space { SpaceIsExact }
    ensures pivots { PivotsAreExact }
    ensures bounded { SpaceIsBounded }
{}

/// Does nothing. Its contract says that every problem can be given first cases that are the turn's and hold nothing.
pub fn firsts_exist()
    ensures { FirstsExist }
{}

/// Does nothing. Its contract says that a leaf's answer is that of its turn, with no problem in it: whether the budget
/// is spent is decided by the turn's space, and what is found is the first candidate in the order of the turn's
/// pivots. Cases that are there for their domains alone change nothing of what fits.
pub fn turn_answers_are_exact()
    ensures firsts { FirstsHoldNothing }
    ensures answers { TurnAnswersAreExact }
{}

/// Does nothing. Its contract says that a leaf's turn has just one answer, without and with its biases: there is one, and
/// two answers have the same values, start the same places, and drop the same biases for the same reasons.
pub fn turns_have_one_answer()
    ensures turns { TurnAnswersAgree }
    ensures leaves { LeafAnswersAgree }
    ensures some_of_turns { TurnAnswersExist }
    ensures some_of_leaves { LeafAnswersExist }
{}

/// Does nothing. Its contract says that the order of candidates is the same whether a known old CSR value stands in
/// their values or 0.
pub fn order_is_kept()
    ensures { OrderIsKept }
{}

/// Does nothing. Its contract says that each variable that a candidate's step uses, the new page table entries and the
/// vector where the step starts them, has a value in its domain: the default one, cut by the atoms. All values are words.
/// The old value of a CSR that the candidate starts is one of the vectors in mtvec, stvec, mepc and sepc, a legal one in
/// mcause and scause, and any word in the others.
pub fn candidates_are_in_domains()
    ensures domains { CandidatesAreInDomains }
    ensures words { CandidatesAreWords }
    ensures old_values { OldValuesAreInDomains }
    ensures old_domains { OldDomainsAreLet }
{}

/// Does nothing. Its contract says that a place and a candidate's values tell which of these a new place has; that the step
/// starts four words at most, the fetched one, two page table entries and the data word; that the values are those of the
/// candidate's instruction; and that no step writes satp but those of CSR instructions with its address.
pub fn values_are_by_places()
    ensures places { PlacesHaveValues }
    ensures instructions { ValuesAreInstructions }
    ensures control { StepsKeepSatp }
    ensures words { NewWordsAreFour }
{}
