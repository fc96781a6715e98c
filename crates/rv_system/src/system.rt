// A system, and its run.
ghost use Rattle.rv_system.specs.Systems.{AreAllKnown};

use crate::starting::{start_harts, start_memory};
use crate::{OutOfMemory, Stop};
use rv_hart::{Hart, Record, Stepped, step};
use rv_mem::FullMem;
use std::alloc::Global;
use tpl_admit::Cert;

/// Harts over one memory. Each register and lazy CSR has a value, and each word of RAM.
#[derive(Drop)]
pub struct System {
    pub harts: Vec<Hart>,
    pub mem: FullMem,
    pub ghost known: { AreAllKnown harts.items },
}

impl System {
    ghost use Rattle.std.specs.Prelude.{◌≡◌, ◌≢◌, ◌<◌, ℕ, All, IfOk, IfSome, Err, length, Some, None};
    ghost use Rattle.std.specs.List.{AllByRecursion};
    ghost use Rattle.rv_hart.specs.Clauses.{IsFitRecord};
    ghost use Rattle.tpl_admit.specs.System.{System as AWholeSystem, run_of};
    ghost use Rattle.tpl_admit.specs.Starts.{AgreesWith, first_system};
    ghost use Rattle.tpl_admit.specs.WellFormed.{IsWellFormed};
    ghost use Rattle.rv_system.specs.Fills.{IsLegalSystem, evenly, filled_system};
    ghost use Rattle.rv_system.specs.Runs.{RunsWith, StandsFor, StopsAt, moved_by, next_of, record_in};

    /// The system of a certificate's start: the start's places, the fill in all other registers and words of RAM, and zero
    /// in all other lazy CSRs.
    pub fn of(alloc: Global, cert: &Cert, fill: u32) -> Result<System, OutOfMemory>
        requires { IsWellFormed cert.now }

        // It begins as the certificate says, whatever the fill, as a machine can.
        ensures agrees { IfOk result (λ s. AgreesWith cert.now (filled_system cert.now (evenly fill))) }
        ensures legal { IfOk result (λ s. IsLegalSystem (length cert.now.start) (filled_system cert.now (evenly fill))) }
        ensures stands { IfOk result (λ s. StandsFor s (filled_system cert.now (evenly fill))) }
        ensures zero { IfOk result (λ s. fill ≡ 0 → StandsFor s (first_system cert.now)) }
        ensures count { IfOk result (λ s. length s.harts.items ≡ length cert.now.start) }
    {
        let mem = start_memory(alloc, cert, fill)?;
        let harts = start_harts(alloc, cert, fill)?;
        Ok(System { harts, mem })
    }

    /// Does the next step of hart k, and gives its record. Where the machine has no step nothing changes.
    fn advance(&mut self, k: u8) -> Option<Record>
        requires { k < length self.old.harts.items }
        ensures fit { IfSome result IsFitRecord }
        ensures told { (sys : AWholeSystem) → StandsFor self.old sys → result ≡ record_in (next_of k sys) }
        ensures after { (sys : AWholeSystem) → StandsFor self.old sys → StandsFor self.new (moved_by (next_of k sys) k sys) }
        ensures count { length self.new.harts.items ≡ length self.old.harts.items }
    {
        match step(&mut self.harts[usize::from(k)], &mut self.mem) {
            Stepped::Did(record) => Some(record),
            Stepped::Missing(_) => unreachable!(),
            Stepped::Outside => None,
        }
    }

    /// Runs a schedule, a list of numbers of harts, one step for each, and gives each hart's number with its record. It
    /// ends before the position at which the machine has no step. Without memory for the events it does nothing.
    pub fn run(&mut self, alloc: Global, schedule: &[u8]) -> Result<Vec<(u8, Record)>, Stop>
        requires { All (λ k. k < length self.old.harts.items) schedule.now }
        ensures done { IfOk result (λ events. (sys : AWholeSystem) → StandsFor self.old sys → RunsWith schedule.now sys events.items) }
        ensures stopped { (at : ℕ) → result ≡ Err (Stop.Outside at) → (sys : AWholeSystem) → StandsFor self.old sys → StopsAt schedule.now sys at }

        // Each record can stand in a file.
        ensures fit { IfOk result (λ events. AllByRecursion (λ e. IsFitRecord e.1) events.items) }
        ensures few { IfOk result (λ events. length events.items ≡ length schedule.now) }

        // It stands after the events, unless there was no memory; then it is as it was.
        ensures after { result ≢ Err Stop.OutOfMemory → (sys : AWholeSystem) → StandsFor self.old sys → StandsFor self.new (run_of schedule.now sys).system }
        ensures refused { result ≡ Err Stop.OutOfMemory → self.new ≡ self.old }
        ensures count { length self.new.harts.items ≡ length self.old.harts.items }
    {
        let mut events = match Vec::with_capacity(alloc, schedule.len()) {
            Ok(events) => events,
            Err(_) => return Err(Stop::OutOfMemory),
        };
        for (at, k) in schedule.iter().enumerate() {
            match self.advance(*k) {
                Some(record) => events.push_reserved((*k, record)),
                None => return Err(Stop::Outside { at }),
            }
        }
        Ok(events)
    }
}
