// Which addresses of a page are in RAM.
ghost use Rattle.std.specs.Prelude.{◌≡◌, ℕ, ◌/◌, ◌%◌, ◌<◌, ◌≤◌, ◌&&◌, nat_lt, true, false, if◌then◌else◌};
ghost use Rattle.std.specs.List.{list_any};
ghost use Rattle.rv_mem.specs.Ram.{in_ram, AreWhole};
ghost use Rattle.row_parts.specs.declared.blocks.Cover.TheVariants.{All, Nothing};
ghost use Rattle.row_parts.specs.Internal.Blocks.{turned};

use crate::blocks::{Choice, Cover, power};
use rv_mem::Ram;

/// The offsets from a frame's address at which RAM is, or isn't.
#[derive(Drop)]
pub struct RamPart<'a> {
    pub ram: &'a Ram,
    /// The number of the frame, its address divided by 4,096.
    pub frame: u32,
    pub wanted: bool,
}

/// Whether the word that an address lies in is one of RAM.
fn is_word(regions: &[(u32, u32)], addr: u64) -> bool
    ensures { result ≡ in_ram regions.now (addr / 4) }
{
    let word = addr / 4 * 4;
    regions
        .iter()
        .any(|r| u64::from(r.0) <= word && word < u64::from(r.1))
}

/// Whether one region has all addresses from one on and below another.
#[tactic(auto, using(crate::proofs::Regions::around))]
fn is_inside(regions: &[(u32, u32)], low: u64, end: u64) -> bool
    requires { AreWhole regions.now }
    ensures { result ≡ true → (a : ℕ) → low ≤ a → a < end → in_ram regions.now (a / 4) ≡ true }
{
    regions
        .iter()
        .any(|r| u64::from(r.0) <= low && end <= u64::from(r.1))
}

/// Whether some region reaches into the addresses from one on and below another.
fn is_touched(regions: &[(u32, u32)], low: u64, end: u64) -> bool
    ensures { result ≡ list_any (λ r. nat_lt r.0 end && nat_lt low r.1) regions.now }
{
    regions
        .iter()
        .any(|r| u64::from(r.0) < end && low < u64::from(r.1))
}

/// Whether no region has one of the addresses.
#[tactic(auto, using(crate::proofs::Regions::touching))]
fn is_outside(regions: &[(u32, u32)], low: u64, end: u64) -> bool
    requires { low % 4 ≡ 0 }
    ensures { result ≡ true → (a : ℕ) → low ≤ a → a < end → in_ram regions.now (a / 4) ≡ false }
{
    !is_touched(regions, low, end)
}

impl<'a> RamPart<'a> {
    /// What it means for a block that its words are in RAM, or that none is.
    fn cover(&self, there: bool) -> Cover
        ensures { result ≡ (if turned self.now.wanted there then All else Nothing) }
    {
        if there == self.wanted {
            Cover::All
        } else {
            Cover::Nothing
        }
    }
}

impl<'a> Choice for RamPart<'a> {
    ghost use Rattle.std.specs.Prelude.{◌+◌, ◌*◌, ◌/◌};
    ghost use Rattle.rv_mem.specs.Ram.{in_ram};
    ghost use Rattle.row_parts.specs.Internal.Blocks.{turned};

    ghost test = { λ p y. turned p.wanted (in_ram p.ram.now ((p.frame * 4096 + y) / 4)) };

    ghost grain = { λ p. 2 };

    fn judge(&self, start: u32, bits: u32) -> Cover {
        let low = u64::from(self.frame) * 4096 + u64::from(start);
        let regions = self.ram.as_slice();
        if bits == 2 {
            return self.cover(is_word(regions, low));
        }
        let end = low + power(bits);
        if is_inside(regions, low, end) {
            return self.cover(true);
        }
        if is_outside(regions, low, end) {
            return self.cover(false);
        }
        Cover::Some
    }
}
