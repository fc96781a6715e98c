// Whether a template admits a trace.
ghost use Rattle.std.specs.Prelude.{◌≡◌, ℕ};
ghost use Rattle.tpl_admit.specs.declared.admission.Unmet.{Unmet as AnUnmet};
ghost use Rattle.tpl_admit.specs.declared.certificate.Cert.{Cert as ACert};
ghost use Rattle.tpl_admit.specs.Admission.{Admits, trace_in};
ghost use Rattle.tpl_admit.specs.Unmet.{IsLeastFailure};
ghost use Rattle.tpl_admit.specs.Internal.Walks.{trace};
ghost use Rattle.tpl_admit.specs.WellFormed.{IsWellFormed};

use crate::{Cert, Trace};

/// Where a trace fails its template.
#[derive(Clone, Copy, Debug, PartialEq, Eq)]
pub struct Unmet {
    pub hart: u8,
    /// The number of the hart's step, from 0: 0 too where the hart's start is not the template's; that of the first
    /// record left over; that of the next record at a label, and where a choice has no number that names an
    /// alternative; and the number of the hart's records where one is missing or a number of a choice is left over.
    pub step: u32,
    /// The number of the leaf's atom, from 0; `outcome in {retire}`, which is added to a leaf that says nothing of the
    /// outcome, is numbered behind the written ones. It is 65535 where what fails is no atom.
    pub atom: u32,
}

/// A certificate as a trace.
fn trace_of(cert: &Cert) -> Trace<'_>
    requires { IsWellFormed cert.now }
    ensures { trace result ≡ trace_in cert.now }
{
    Trace {
        template: &cert.template,
        start: cert.start.as_slice(),
        words: cert.words.as_slice(),
        records: cert.traces.as_slice(),
        choices: cert.choices.as_slice(),
        names: cert.names.as_slice(),
        dropped: cert.dropped.as_slice(),
    }
}

/// Where the certificate's template does not admit its trace: the least failure by hart, step and atom, or none.
pub fn admits(cert: &Cert) -> Option<Unmet>
    requires { IsWellFormed cert.now }
    ensures none { result ≡ None → Admits cert.now }
    ensures some { (u : AnUnmet) → result ≡ Some u → IsLeastFailure cert.now u.hart u.step u.atom }
{
    trace_of(cert).least_failure()
}

/// The law that a certificate whose template admits its trace has no least failure, and that each has one at most.
#[tactic(auto, using(crate::proofs::Failures::admitted_never))]
pub fn least_failures_are_unique()
    ensures admitted { (c : ACert) (hart step atom : ℕ) → Admits c → IsLeastFailure c hart step atom → ⊥ }
    ensures one { (c : ACert) (hart step atom hart' step' atom' : ℕ) → IsLeastFailure c hart step atom → IsLeastFailure c hart' step' atom' → (hart ≡ hart') × (step ≡ step') × (atom ≡ atom') }
{}
