// RAM and the harts with which a test begins.
ghost use Rattle.std.specs.Prelude.{◌≡◌, ◌<◌, ◌^◌, IfOk, length, map};
ghost use Rattle.std.specs.List.{AllByRecursion};
ghost use Rattle.tpl_ast.specs.States.{IsState};
ghost use Rattle.part_machine.specs.Whole.{bare};
ghost use Rattle.given_start.specs.Internal.Regions.{AreAligned};
ghost use Rattle.part_state.specs.Beginning.{AreHartsOf, IsHartOf, ends_of};

use crate::OutOfMemory;
use given_start::hart_in;
use rv_hart::Hart;
use rv_mem::Ram;
use std::alloc::Global;
use tpl_ast::{HartDecl, HartState, Region};

/// The ends of regions.
fn region_ends(alloc: Global, ram: &[Region]) -> Result<Vec<(u32, u32)>, OutOfMemory>
    ensures { IfOk result (λ ends. ends.items ≡ ends_of ram.now) }
{
    let mut ends = Vec::new(alloc);
    for region in ram {
        ends.push((region.low, region.high))?;
    }
    Ok(ends)
}

/// RAM of these regions.
pub fn ram_of(alloc: Global, ram: &[Region]) -> Result<Ram, OutOfMemory>
    requires { AreAligned ram.now }
    ensures { IfOk result (λ m. m ≡ ends_of ram.now) }
{
    Ok(Ram::new(region_ends(alloc, ram)?))
}

/// A hart with this number of which just a state is known.
fn started_hart(state: &HartState, number: u32) -> Hart
    requires { IsState state.now }
    ensures { IsHartOf number state.now (bare result) }
{
    let hart = hart_in(state, number);
    hart.csrs.legal_values();
    hart
}

/// The harts as they are declared.
pub fn harts_of(alloc: Global, decls: &[HartDecl]) -> Result<Vec<Hart>, OutOfMemory>
    requires count { length decls.now < 2 ^ 32 }
    requires states { AllByRecursion (λ d. IsState d.start) decls.now }
    ensures { IfOk result (λ harts. AreHartsOf decls.now (map bare harts.items)) }
{
    let mut harts = Vec::new(alloc);
    for (k, decl) in decls.iter().enumerate() {
        harts.push(started_hart(&decl.start, k as u32))?;
    }
    Ok(harts)
}
