// The laws of the problems of fetches, of `do` and of `fault` leaves.
ghost use Rattle.leaf_link.specs.Agreements.{FaultAnswersAgree, FaultAnswersExist, FetchAnswersAgree, FetchAnswersExist};
ghost use Rattle.leaf_link.specs.FaultRows.{FaultProblemsAreExact};
ghost use Rattle.leaf_link.specs.Faults.{FaultsAreExact};
ghost use Rattle.leaf_link.specs.FetchAnswers.{FaultAnswersAreExact, FetchAnswersAreExact, FetchFirstsExist};
ghost use Rattle.leaf_link.specs.FetchPlacing.{FaultPlacesHaveValues, FaultWordsAreTwo, FaultsAreUnfetched, FaultsKeepSatp, FetchPlacesHaveValues, FetchWordsAreTwo};
ghost use Rattle.leaf_link.specs.FetchRows.{FetchProblemsAreExact};
ghost use Rattle.leaf_link.specs.Fetches.{FetchesAreExact};

/// Does nothing. Its contract says that the new page table entries with which the translation of a leaf's fetch does
/// what is asked stand one to one for the fetch candidates.
pub fn fetches_are_exact()
    ensures { FetchesAreExact }
{}

/// Does nothing. Its contract says that what fits the fetch problem of a `do` leaf stands one to one for the fetch
/// candidates, where the rows of the translation of the pc are what its new entries do.
pub fn fetch_problems_are_exact()
    ensures { FetchProblemsAreExact }
{}

/// Does nothing. Its contract says that the new page table entries and the vector with which the fetch of a `fault` leaf
/// fails with a listed cause stand one to one for its candidates.
pub fn faults_are_exact()
    ensures { FaultsAreExact }
{}

/// Does nothing. Its contract says that what fits the problem of a `fault` leaf stands one to one for its candidates,
/// where the rows of the translation of the pc are what its new entries do.
pub fn fault_problems_are_exact()
    ensures { FaultProblemsAreExact }
{}

/// Does nothing. Its contract says that an answer of the problem of a fetch is the answer of the turn: whether the
/// budget is spent is decided by the space of the fetch, and what is found is the first candidate in the order of the
/// turn's draws.
pub fn fetch_answers_are_exact()
    ensures fetches { FetchAnswersAreExact }
    ensures faults { FaultAnswersAreExact }
{}

/// Does nothing. Its contract says that every problem of a fetch can be given a first case that has the turn's domains
/// and holds nothing.
pub fn fetch_firsts_exist()
    ensures { FetchFirstsExist }
{}

/// Does nothing. Its contract says that the fetch of a turn has just one answer, for a `do` and for a `fault` leaf: there is
/// one, and two answers have the same values and start the same places.
pub fn fetches_have_one_answer()
    ensures fetches { FetchAnswersAgree }
    ensures faults { FaultAnswersAgree }
    ensures some_of_fetches { FetchAnswersExist }
    ensures some_of_faults { FaultAnswersExist }
{}

/// Does nothing. Its contract says that the place alone tells which of the values of a fetch a new place has, of a `do` and
/// of a `fault` leaf: the word of the root entry, one other word, or the vector; and that no step of a `fault` leaf writes
/// satp, and each one ends as one whose fetch failed.
pub fn entries_are_by_places()
    ensures fetches { FetchPlacesHaveValues }
    ensures faults { FaultPlacesHaveValues }
    ensures fetch_words { FetchWordsAreTwo }
    ensures fault_words { FaultWordsAreTwo }
    ensures control { FaultsKeepSatp }
    ensures unfetched { FaultsAreUnfetched }
{}
