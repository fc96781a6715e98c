// What holds of places that are given and of steps that are taken.
ghost use Rattle.turn_laws.specs.Ahead.{LogsAreShort, OneMoreIsGiven, PlacesAreNext};
ghost use Rattle.turn_laws.specs.Back.{StepsAreOfCandidates};
ghost use Rattle.turn_laws.specs.Entered.{EntriesAreNext, FetchCandidatesAreWalked, WalksAreShort};
ghost use Rattle.turn_laws.specs.Laws.{GivenPlacesAreKnown, GivenTestsAreTests, GivesRegisters, FixedPartsStay, OthersStay, PlayedStepsAreNext, StartsGrow};
ghost use Rattle.turn_laws.specs.Played.{CandidatesArePlayed, FaultsArePlayed};

/// Does nothing. Its contract says what giving places to a hart one by one makes of a test: what was known, and these
/// places with their values; the hart's fixed parts, the records and the footprints stay, and it is a test.
pub fn given_places_are_known()
    ensures known { GivenPlacesAreKnown }
    ensures tests { GivenTestsAreTests }
    ensures fixed { FixedPartsStay }
    ensures others { OthersStay }
{}

/// Does nothing. Its contract says what giving places makes of a test's start: it gives what it gave, and the new registers.
pub fn starts_grow()
    ensures start { StartsGrow }
    ensures registers { GivesRegisters }
{}

/// Does nothing. Its contract says that the step of a candidate, and one whose fetch fails, is played on what its turn
/// knows and on what it starts.
pub fn steps_are_played()
    ensures candidates { CandidatesArePlayed }
    ensures faults { FaultsArePlayed }
{}

/// Does nothing. Its contract says that behind the places that a played step starts it is the next step of the hart,
/// told on what is known, and that it races with nothing.
pub fn played_steps_are_next()
    ensures { PlayedStepsAreNext }
{}

/// Does nothing. Its contract says what the next step of a hart lacks while the places that a played step starts are
/// given to it one by one: a place of the step that is not given yet, which can start with its value, and fewer are left
/// behind it; or the step can be done, and then all of them are given. So ten are enough.
pub fn places_are_next()
    ensures next { PlacesAreNext }
    ensures short { LogsAreShort }
    ensures appended { OneMoreIsGiven }
{}

/// Does nothing. Its contract says that the next step of a hart to which places were given, whatever they are, is that
/// of a candidate, where it meets what is asked of a leaf's step; the candidate starts those of the places that the step
/// asks for.
pub fn steps_are_of_candidates()
    ensures { StepsAreOfCandidates }
{}

/// Does nothing. Its contract says what the translation of a hart's pc lacks while the page table entries that a fetch
/// starts are given to it one by one: an entry that is not given yet, which the next step lacks as well and which can start
/// with its value, and fewer are left behind it; or it is done, and then all of them are given. So two are enough. Those of
/// a candidate for the fetch of a `do` leaf are such entries.
pub fn entries_are_next()
    ensures next { EntriesAreNext }
    ensures short { WalksAreShort }
    ensures candidates { FetchCandidatesAreWalked }
{}
