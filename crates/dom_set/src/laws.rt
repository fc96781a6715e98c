// The laws of the lists that contracts see sets as.
ghost use Rattle.dom_set.specs.Laws.{ElementsPass, ElementsAscend, SameTestsSameElements, IsInTests, AscendingAreElements, PowersAreTested};

/// Does nothing. Its contract says which list stands for the numbers that pass a test, so that what
/// is known of a number's test is known of the set; and that std's test of a power of two tells one.
pub fn set_laws()
    ensures pass { ElementsPass }
    ensures ascend { ElementsAscend }
    ensures same { SameTestsSameElements }
    ensures tests { IsInTests }
    ensures lists { AscendingAreElements }
    ensures powers { PowersAreTested }
{}
