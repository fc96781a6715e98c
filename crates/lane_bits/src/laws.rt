// The laws of the lists that stand for sets, as the contract of a function that does nothing.
ghost use Rattle.lane_bits.specs.Laws.{ElementsPass, ElementsAscend, SameTestsSameElements};

/// A set has the numbers below 4,096 that pass its test, in ascending order, and no other set has just these.
pub fn page_laws()
    ensures pass { ElementsPass }
    ensures ascend { ElementsAscend }
    ensures same { SameTestsSameElements }
{}
