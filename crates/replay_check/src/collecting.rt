// The footprints of all records at once.
ghost use Rattle.std.specs.Prelude.{◌≡◌, ◌≤◌, ℕ, List, All, IfOk, OnOk, false};
ghost use Rattle.std.specs.List.{AllByRecursion};
ghost use Rattle.rv_script.specs.declared.access.Access.{Access as AnAccess};
ghost use Rattle.rv_hart.specs.Effects.{IsInWord};
ghost use Rattle.foot_map.specs.Races.{IsRaceFree, IsFootprint};
ghost use Rattle.tpl_admit.specs.Starts.{trace_of};
ghost use Rattle.tpl_admit.specs.Races.{footprint_of, footprints_of};
ghost use Rattle.tpl_admit.specs.WellFormed.{IsWellFormed};
ghost use Rattle.replay_check.specs.Internal.Racing.{with_accesses};

use crate::OutOfMemory;
use foot_map::{FootMap, blocking_laws, footprint_laws};
use rv_hart::{Access, Record};
use std::alloc::Global;
use tpl_admit::Cert;

/// Puts the accesses of a hart into a footprint.
fn add_accesses(feet: &mut FootMap, hart: u8, accesses: &[Access]) -> Result<(), OutOfMemory>
    requires { All IsInWord accesses.now }
    ensures { OnOk result ((did : ℕ → List AnAccess) → IsFootprint feet.old did → IsFootprint feet.new (with_accesses did hart accesses.now)) }
{
    footprint_laws();
    for x in accesses {
        feet.add(hart, x.role, x.addr, x.size)?;
    }
    Ok(())
}

/// Puts the accesses of a hart's records into a footprint.
fn add_records(feet: &mut FootMap, hart: u8, records: &[Record]) -> Result<(), OutOfMemory>
    requires { AllByRecursion (λ r. All IsInWord r.accesses) records.now }
    ensures { OnOk result ((did : ℕ → List AnAccess) → IsFootprint feet.old did → IsFootprint feet.new (with_accesses did hart (footprint_of records.now))) }
{
    for record in records {
        add_accesses(feet, hart, record.accesses.as_slice())?;
    }
    Ok(())
}

/// Whether some accesses of a certificate race.
pub fn has_race(alloc: Global, cert: &Cert) -> Result<bool, OutOfMemory>
    requires well_formed { IsWellFormed cert.now }
    requires words { (k : ℕ) → AllByRecursion (λ r. All IsInWord r.accesses) (trace_of cert.now k) }
    ensures { IfOk result (λ b. b ≡ false → IsRaceFree (footprints_of (trace_of cert.now))) }
{
    footprint_laws();
    blocking_laws();
    let mut feet = FootMap::new(alloc);
    for k in 0..cert.traces.len() {
        add_records(&mut feet, k as u8, cert.traces.as_slice()[k].as_slice())?;
    }
    Ok(feet.races())
}
