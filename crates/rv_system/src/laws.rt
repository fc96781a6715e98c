// The law on systems.
ghost use Rattle.tpl_admit.specs.declared.certificate.Cert.{Cert};
ghost use Rattle.tpl_admit.specs.Starts.{AgreesWith, first_system};
ghost use Rattle.tpl_admit.specs.Validity.{IsSound};
ghost use Rattle.rv_system.specs.Faithfulness.{IsFaithful};
ghost use Rattle.rv_system.specs.Fills.{FillsAgree, FillsAreAll, FillsAreKept, FillsAreLegal, MachinesFill, ZeroIsAFill};

/// From every system that agrees with the start of a sound certificate, of any number of harts, under every order of
/// whole steps in which no hart exceeds its records, each hart's steps are its printed records, and the printed end
/// holds when all are taken. There is such a system for each fill of the registers, lazy CSRs and words that the start
/// doesn't give, and no other; one is that with zero wherever nothing is given.
pub fn sound_certificates_are_faithful()
    ensures faithful { (c : Cert) → IsSound c → IsFaithful c }
    ensures agreed { (c : Cert) → IsSound c → AgreesWith c (first_system c) }

    // A system for each fill.
    ensures filled { FillsAgree }
    ensures kept { FillsAreKept }

    // There are no others.
    ensures all { FillsAreAll }

    // Where values of CSRs are to be legal, as in a machine.
    ensures legal { FillsAreLegal }
    ensures machines { MachinesFill }
    ensures zero { ZeroIsAFill }
{}
