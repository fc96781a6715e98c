// Laws of the machine.
ghost use Rattle.rv_hart.specs.CsrRows.{CsrRowsAgree};
ghost use Rattle.rv_hart.specs.Asked.{AsksInOrder, AsksPlaces, AsksRegisters, NeedsPlaces};
ghost use Rattle.rv_hart.specs.Clauses.{IsSightless, ToldAreTaken, TrueSightsShowTheStep};
ghost use Rattle.rv_hart.specs.Local.{LocalByBytes};
ghost use Rattle.rv_hart.specs.Operations.{RowsHaveEffects};

/// Does nothing. Its contract says that a step that is told on what is known is that of each whole hart and memory that have it,
/// and needs no place that isn't known.
pub fn step_law()
    ensures { ToldAreTaken }
{}

/// Does nothing. Its contract says that a step that sees no sight is the step.
#[tactic(auto, using(crate::proofs::Steps::sightless))]
pub fn no_sights_law()
    ensures { IsSightless }
{}

/// Does nothing. Its contract says that sights that show what is in memory change nothing.
#[tactic(auto, using(crate::proofs::Steps::true_sights))]
pub fn true_sights_law()
    ensures { TrueSightsShowTheStep }
{}

/// Does nothing. Its contract says that a step of a whole hart rests on its fixed parts, on the registers and CSRs that it
/// needs, and on the bytes of its record's accesses: each hart and memory that have these make the same step.
#[tactic(auto, using(crate::proofs::Locals::local_by_bytes))]
pub fn local_law()
    ensures { LocalByBytes }
{}

/// Does nothing. Its contract says that a step asks its questions in the order of their labels, each label once at most;
/// that the registers that it asks for are one of 32, the CSRs lazy ones, and the bytes one, two or four of RAM, at a
/// multiple of their number; and so what the places that it needs are.
#[tactic(auto, using(crate::proofs::Forms::script_between, crate::proofs::Asked::asks_registers, crate::proofs::Askable::asks_places, crate::proofs::Askable::needs_places))]
pub fn question_law()
    ensures order { AsksInOrder }
    ensures registers { AsksRegisters }
    ensures places { AsksPlaces }
    ensures needs { NeedsPlaces }
{}

/// Does nothing. Its contract says what each operation does, by its name: each row of the table of encodings has an effect,
/// and none leaves the machine for want of one.
#[tactic(auto, using(crate::proofs::Operations::rows_have_effects))]
pub fn row_law()
    ensures { RowsHaveEffects }
{}

/// Does nothing. Its contract says that CSR instructions do what a read, and what a write of their result, at their address do:
/// the same value, the same registers behind it, and refused or not modelled alike.
#[tactic(auto, using(crate::proofs::CsrRows::csr_rows_agree))]
pub fn csr_law()
    ensures { CsrRowsAgree }
{}
