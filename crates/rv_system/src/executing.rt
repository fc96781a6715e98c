// The run of a schedule from a certificate's start.
ghost use Rattle.std.specs.Prelude.{◌≡◌, ◌<◌, ◌≤◌, ℕ, All, IfOk, Err, length};
ghost use Rattle.std.specs.List.{AllByRecursion};
ghost use Rattle.rv_hart.specs.Clauses.{IsFitRecord};
ghost use Rattle.tpl_admit.specs.Starts.{first_system};
ghost use Rattle.tpl_admit.specs.System.{run_of};
ghost use Rattle.tpl_admit.specs.WellFormed.{IsWellFormed};
ghost use Rattle.rv_system.specs.Runs.{RunsWith, StopsAt, stopped_hart};

use crate::{OutOfMemory, Stop, System};
use rv_hart::Record;
use std::alloc::Global;
use tpl_admit::Cert;

/// What the run of a schedule did.
#[derive(Drop)]
pub struct Execution {
    /// The number of a hart and the record of its step, for each step that was made.
    pub events: Vec<(u8, Record)>,
    /// The hart at which the run stopped, None where it did the whole schedule.
    pub stopped: Option<u8>,
}

/// Runs a schedule from a certificate's start with zero wherever that gives nothing.
fn run_from_start(alloc: Global, cert: &Cert, schedule: &[u8]) -> Result<Vec<(u8, Record)>, Stop>
    requires well_formed { IsWellFormed cert.now }
    requires harts { All (λ k. k < length cert.now.start) schedule.now }
    ensures done { IfOk result (λ events. RunsWith schedule.now (first_system cert.now) events.items) }
    ensures fit { IfOk result (λ events. AllByRecursion (λ e. IsFitRecord e.1) events.items) }
    ensures few { IfOk result (λ events. length events.items ≡ length schedule.now) }
    ensures stopped { (at : ℕ) → result ≡ Err (Stop.Outside at) → StopsAt schedule.now (first_system cert.now) at }
{
    match System::of(alloc, cert, 0) {
        Ok(mut system) => system.run(alloc, schedule),
        Err(_) => Err(Stop::OutOfMemory),
    }
}

/// The run of a schedule, a list of numbers of harts, from a certificate's start with zero wherever that gives nothing.
/// Where it stops, what stands before is run once more, so that its events are told.
pub fn execute(alloc: Global, cert: &Cert, schedule: &[u8]) -> Result<Execution, OutOfMemory>
    requires well_formed { IsWellFormed cert.now }
    requires harts { All (λ k. k < length cert.now.start) schedule.now }
    ensures events { IfOk result (λ x. x.events.items ≡ (run_of schedule.now (first_system cert.now)).events) }
    ensures stopped { IfOk result (λ x. x.stopped ≡ stopped_hart schedule.now (run_of schedule.now (first_system cert.now))) }

    // Each record can stand in a file, and there is one at most for each turn.
    ensures fit { IfOk result (λ x. AllByRecursion (λ e. IsFitRecord e.1) x.events.items) }
    ensures few { IfOk result (λ x. length x.events.items ≤ length schedule.now) }
{
    match run_from_start(alloc, cert, schedule) {
        Ok(events) => Ok(Execution {
            events,
            stopped: None,
        }),
        Err(Stop::OutOfMemory) => Err(OutOfMemory),
        Err(Stop::Outside { at }) => match run_from_start(alloc, cert, &schedule[..at]) {
            Ok(events) => Ok(Execution {
                events,
                stopped: Some(schedule[at]),
            }),
            Err(Stop::OutOfMemory) => Err(OutOfMemory),
            Err(Stop::Outside { .. }) => unreachable!(),
        },
    }
}
