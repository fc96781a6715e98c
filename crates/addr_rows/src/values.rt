// The values that a row lets new page table entries have.
ghost use Rattle.std.specs.Prelude.{◌≡◌};
ghost use Rattle.addr_rows.specs.Walks.{has_value};

use dom_set::Set;

/// Whether a value is one of these new entries, or 0 where there are none.
pub fn has_value(entries: &Option<Set>, value: u32) -> bool
    ensures { result ≡ has_value entries.now value }
{
    match entries {
        Some(set) => set.has(value),
        None => value == 0,
    }
}
