// Whether regions, frames and flags may be given.
ghost use Rattle.std.specs.Prelude.{◌≡◌, ◌==◌, ◌^◌, ◌-◌, min};
ghost use Rattle.std.specs.List.{list_any};
ghost use Rattle.tpl_ast.specs.Templates.{holds, is_number_among, size_of};
ghost use Rattle.tpl_lang.specs.Faults.{is_bad_region, is_pointer_flag, overlaps};
ghost use Rattle.tpl_lang.specs.Sets.{number};

use crate::values::number;
use tpl_ast::{LAST_END, MAX_MEMORY, Region};
use tpl_lang::Numeral;

fn overlaps(low: u32, high: u32, region: Region) -> bool
    ensures { result ≡ overlaps low high region }
{
    low < region.high && region.low < high
}

fn overlaps_any(low: u32, high: u32, ram: &[Region]) -> bool
    ensures { result ≡ list_any (overlaps low high) ram.now }
{
    ram.iter().any(|region| overlaps(low, high, *region))
}

/// How many bytes the regions have, or 2^64 - 1 if they have more.
fn size_of(ram: &[Region]) -> u64
    ensures { result ≡ min (size_of ram.now) (2 ^ 64 - 1) }
{
    let mut size = 0u64;
    for region in ram {
        size = size.saturating_add(u64::from(region.high.saturating_sub(region.low)));
    }
    size
}

/// Whether the bytes from address `low` up to, and not including, `high` can't be a further region.
pub fn is_bad_region(ram: &[Region], low: u32, high: u32) -> bool
    ensures { result ≡ is_bad_region ram.now low high }
{
    high <= low
        || low % 4096 != 0
        || high % 4096 != 0
        || LAST_END < high
        || overlaps_any(low, high, ram)
        || MAX_MEMORY < size_of(ram).saturating_add(u64::from(high - low))
}

fn holds(low: u32, size: u32, region: Region) -> bool
    ensures { result ≡ holds low size region }
{
    region.low <= low && u64::from(low) + u64::from(size) <= u64::from(region.high)
}

/// Whether a region holds the `size` bytes from address `low` on.
pub fn any_holds(ram: &[Region], low: u32, size: u32) -> bool
    ensures { result ≡ list_any (holds low size) ram.now }
{
    ram.iter().any(|region| holds(low, size, *region))
}

/// Whether a number is one of the numbers.
pub fn is_number_among(numbers: &[u32], n: u32) -> bool
    ensures { result ≡ is_number_among numbers.now n }
{
    numbers.iter().any(|number| *number == n)
}

/// Whether one of the numbers has the value.
pub fn has_value(numbers: &[Numeral], n: u32) -> bool
    ensures { result ≡ list_any (λ m. number m == n) numbers.now }
{
    numbers.iter().any(|other| number(*other) == n)
}

fn is_pointer_flag(flag: Numeral) -> bool
    ensures { result ≡ is_pointer_flag flag }
{
    number(flag) % 16 == 1
}

/// Whether one of the flag bytes is that of a pointer: V without R, W and X.
pub fn is_any_pointer_flag(flags: &[Numeral]) -> bool
    ensures { result ≡ list_any is_pointer_flag flags.now }
{
    flags.iter().any(|flag| is_pointer_flag(*flag))
}
