// From which record on the accesses race.
ghost use Rattle.std.specs.Prelude.{◌≡◌, ◌≤◌, ℕ, List, length, All, IfOk, None, Some, true, false};
ghost use Rattle.std.specs.List.{AllByRecursion};
ghost use Rattle.rv_script.specs.declared.access.Access.{Access as AnAccess};
ghost use Rattle.rv_hart.specs.Effects.{IsInWord};
ghost use Rattle.foot_map.specs.Races.{IsRaceFree, IsFootprint};
ghost use Rattle.tpl_admit.specs.Starts.{trace_of};
ghost use Rattle.tpl_admit.specs.Races.{footprint_of, footprints_of};
ghost use Rattle.tpl_admit.specs.WellFormed.{IsWellFormed};
ghost use Rattle.replay_check.specs.Failures.{RacesFrom};
ghost use Rattle.replay_check.specs.Internal.Racing.{with_accesses, RacesAt};
ghost use Rattle.tpl_ast.specs.Limits.{most_records};

use crate::OutOfMemory;
use crate::collecting::has_race;
use foot_map::{FootMap, footprint_laws, race_laws};
use rv_hart::{Access, Record};
use std::alloc::Global;
use tpl_admit::Cert;

/// Puts the accesses of a hart into a footprint, unless one of them races with what is there: then true.
fn races(feet: &mut FootMap, hart: u8, accesses: &[Access]) -> Result<bool, OutOfMemory>
    requires { All IsInWord accesses.now }
    ensures footprint { IfOk result (λ b. b ≡ false → (did : ℕ → List AnAccess) → IsFootprint feet.old did → IsFootprint feet.new (with_accesses did hart accesses.now)) }
    ensures free { IfOk result (λ b. b ≡ false → (did : ℕ → List AnAccess) → IsFootprint feet.old did → IsRaceFree did → IsRaceFree (with_accesses did hart accesses.now)) }
    ensures races { IfOk result (λ b. b ≡ true → (did : ℕ → List AnAccess) → IsFootprint feet.old did → IsRaceFree (with_accesses did hart accesses.now) → ⊥) }
{
    race_laws();
    footprint_laws();
    for x in accesses {
        if feet.may(hart, x.role, x.addr, x.size).is_some() {
            return Ok(true);
        }
        feet.add(hart, x.role, x.addr, x.size)?;
    }
    Ok(false)
}

/// Puts the accesses of a hart's records into a footprint, up to the first record whose accesses race.
fn race_in(feet: &mut FootMap, hart: u8, records: &[Record]) -> Result<Option<u32>, OutOfMemory>
    requires words { AllByRecursion (λ r. All IsInWord r.accesses) records.now }
    requires count { length records.now ≤ most_records }
    ensures footprint { IfOk result (λ o. o ≡ None → (did : ℕ → List AnAccess) → IsFootprint feet.old did → IsFootprint feet.new (with_accesses did hart (footprint_of records.now))) }
    ensures free { IfOk result (λ o. o ≡ None → (did : ℕ → List AnAccess) → IsFootprint feet.old did → IsRaceFree did → IsRaceFree (with_accesses did hart (footprint_of records.now))) }
    ensures races { IfOk result (λ o. (step : ℕ) → o ≡ Some step → (did : ℕ → List AnAccess) → IsFootprint feet.old did → IsRaceFree did → RacesAt did hart records.now step) }
{
    for (i, record) in records.iter().enumerate() {
        if races(feet, hart, record.accesses.as_slice())? {
            return Ok(Some(i as u32));
        }
    }
    Ok(None)
}

/// The first record whose accesses race with those of an earlier one, or among themselves, by a walk through
/// all of them.
fn first_walked(alloc: Global, cert: &Cert) -> Result<Option<(u8, u32)>, OutOfMemory>
    requires well_formed { IsWellFormed cert.now }
    requires words { (k : ℕ) → AllByRecursion (λ r. All IsInWord r.accesses) (trace_of cert.now k) }
    ensures none { IfOk result (λ o. o ≡ None → IsRaceFree (footprints_of (trace_of cert.now))) }
    ensures some { IfOk result (λ o. (hart step : ℕ) → o ≡ Some (hart, step) → RacesFrom cert.now hart step) }
{
    let mut feet = FootMap::new(alloc);
    for k in 0..cert.traces.len() {
        if let Some(step) = race_in(&mut feet, k as u8, cert.traces.as_slice()[k].as_slice())? {
            return Ok(Some((k as u8, step)));
        }
    }
    Ok(None)
}

/// The first record whose accesses race with those of an earlier one, or among themselves: its hart and its step.
/// Harts are taken in ascending order. Only where some accesses race are the records walked through.
pub fn first_race(alloc: Global, cert: &Cert) -> Result<Option<(u8, u32)>, OutOfMemory>
    requires well_formed { IsWellFormed cert.now }
    requires words { (k : ℕ) → AllByRecursion (λ r. All IsInWord r.accesses) (trace_of cert.now k) }
    ensures none { IfOk result (λ o. o ≡ None → IsRaceFree (footprints_of (trace_of cert.now))) }
    ensures some { IfOk result (λ o. (hart step : ℕ) → o ≡ Some (hart, step) → RacesFrom cert.now hart step) }
{
    if !has_race(alloc, cert)? {
        return Ok(None);
    }
    first_walked(alloc, cert)
}
