// The law of goals.
ghost use Rattle.data_goals.specs.Laws.{GoalsAreWays, WaysAreGoals};

/// Does nothing. Its contract says that the ways of a load or store, over rows of the addresses of which it is told where they
/// lead, are those of the goals.
pub fn accesses_are_goals()
    ensures there { WaysAreGoals }
    ensures back { GoalsAreWays }
{}
