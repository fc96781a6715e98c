// The laws of footprints, as contracts of functions that do nothing.
ghost use Rattle.foot_map.specs.Laws.{SameTriplesSameSet, RemoveUndoesAdd, RaceFreeByTable, FewerAreRaceFree, EmptyFootprint, SameAccessesSameFootprint, AddedFootprint, NoClashRaceFree, ClashRaces, BlockedWhereClash, NoRaceRaceFree};

/// A set is known by its triples, and `remove` with the mask of `add` gives back the set before.
pub fn set_laws()
    ensures same { SameTriplesSameSet }
    ensures undone { RemoveUndoesAdd }
{}

/// Race-freedom is that no two accesses break the table of roles, and what is left when accesses are
/// taken away is race-free too.
pub fn race_laws()
    ensures table { RaceFreeByTable }
    ensures fewer { FewerAreRaceFree }
{}

/// What the set of the bytes of accesses says of one access more.
pub fn footprint_laws()
    ensures empty { EmptyFootprint }
    ensures same { SameAccessesSameFootprint }
    ensures added { AddedFootprint }
    ensures joins { NoClashRaceFree }
    ensures races { ClashRaces }
{}

/// What blocked bytes and races of a set are in the words of clashes and of race-freedom.
pub fn blocking_laws()
    ensures blocked { BlockedWhereClash }
    ensures races { NoRaceRaceFree }
{}
