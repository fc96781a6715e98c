// What holds of tests while they are made.
ghost use Rattle.part_laws.specs.Laws.{FreshLaw, LatePlaceLaw, LateWordLaw, AdvanceLaw, NextLaw, BegunLaw, FinishLaw};

/// What keeps a test a test: nothing done yet, a first value for a place or a word that is not known, and one step
/// more, which is the one step more that the hart does from scratch. Some system begins as a start says, and a certificate of a test is sound.
pub fn partial_test_laws()
    ensures fresh { FreshLaw }
    ensures place { LatePlaceLaw }
    ensures word { LateWordLaw }
    ensures advance { AdvanceLaw }
    ensures next { NextLaw }
    ensures begun { BegunLaw }
    ensures finish { FinishLaw }
{}
