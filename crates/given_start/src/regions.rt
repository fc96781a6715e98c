// RAM as a template gives it.
ghost use Rattle.std.specs.Prelude.{◌≡◌, ℕ, ◌*◌, IfOk, map};
ghost use Rattle.rv_mem.specs.Ram.{in_ram};
ghost use Rattle.tpl_ast.specs.States.{is_in_ram};
ghost use Rattle.given_start.specs.Internal.Regions.{AreAligned};

use rv_mem::Ram;
use std::alloc::{AllocError, Global};
use tpl_ast::Region;

/// The ends of regions.
fn ends_of(alloc: Global, ram: &[Region]) -> Result<Vec<(u32, u32)>, AllocError>
    ensures { IfOk result (λ ends. ends.items ≡ map (λ r. (r.low, r.high)) ram.now) }
{
    let mut ends = Vec::new(alloc);
    for region in ram {
        ends.push((region.low, region.high))?;
    }
    Ok(ends)
}

/// RAM of these regions.
#[tactic(auto, using(crate::proofs::Aligned::same_ram))]
pub fn ram_of(alloc: Global, ram: &[Region]) -> Result<Ram, AllocError>
    requires { AreAligned ram.now }
    ensures { IfOk result (λ m. (n : ℕ) → in_ram m n ≡ is_in_ram ram.now (n * 4)) }
{
    let ends = ends_of(alloc, ram)?;
    Ok(Ram::new(ends))
}
