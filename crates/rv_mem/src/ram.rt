// RAM.
ghost use Rattle.std.specs.Prelude.{◌≡◌, ◌/◌, ◌%◌, ℕ, ◌||◌, IfOk, OnOk};
ghost use Rattle.rv_mem.specs.Ram.{AreWhole, IsWhole, in_ram, in_region};
ghost use Rattle.rv_mem.specs.Runs.{in_runs};

use crate::OutOfMemory;
use std::alloc::Global;
use std::marker::Model;

/// RAM as regions of whole words. A region goes from a low address up to, not including, a high one.
#[derive(Drop)]
pub struct Ram {
    regions: Vec<(u32, u32)>,
}

impl Model for Ram {
    ghost use Rattle.std.specs.Prelude.{ℕ, List};
    ghost use Rattle.rv_mem.specs.Ram.{AreWhole};

    ghost Value = { List (ℕ × ℕ) };

    ghost view = { λ r. r.regions.items };

    ghost invariant = { λ r. AreWhole r.regions.items };
}

/// Appends the bytes of a region, if it has any.
fn push_region(runs: &mut Vec<(u32, u32)>, region: (u32, u32)) -> Result<(), OutOfMemory>
    requires { IsWhole region }
    ensures { OnOk result ((x : ℕ) → in_runs runs.new.items x ≡ (in_runs runs.old.items x || in_region region (x / 4))) }
{
    if region.0 < region.1 {
        runs.push((region.0, region.1 - 1))?;
    }
    Ok(())
}

impl Ram {
    /// RAM of these regions, whose ends are multiples of 4.
    pub fn new(regions: Vec<(u32, u32)>) -> Self
        requires { AreWhole regions.items }
        ensures { result ≡ regions.items }
    {
        Ram { regions }
    }

    /// The same regions, in memory of their own.
    pub fn copy(&self, alloc: Global) -> Result<Ram, OutOfMemory>
        ensures { IfOk result (λ r. r ≡ self.now) }
    {
        let regions = Vec::from_slice(alloc, &self.regions)?;
        Ok(Ram { regions })
    }

    pub fn as_slice(&self) -> &[(u32, u32)]
        ensures regions { result.now ≡ self.now }
        ensures whole { AreWhole self.now }
    {
        self.regions.as_slice()
    }

    /// The bytes of RAM as runs, each by its first byte and its last, in the order of the regions.
    pub fn runs(&self, alloc: Global) -> Result<Vec<(u32, u32)>, OutOfMemory>
        ensures { IfOk result (λ runs. (x : ℕ) → in_runs runs.items x ≡ in_ram self.now (x / 4)) }
    {
        let mut runs = Vec::new(alloc);
        for region in self.as_slice() {
            push_region(&mut runs, *region)?;
        }
        Ok(runs)
    }

    /// Whether the word at an address, a multiple of 4, is one of RAM.
    pub fn has_word(&self, a: u32) -> bool
        requires { a % 4 ≡ 0 }
        ensures { result ≡ in_ram self.now (a / 4) }
    {
        let n = a / 4;
        self.regions.iter().any(|r| r.0 <= n * 4 && n * 4 < r.1)
    }
}
