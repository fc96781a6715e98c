// The values of numbers.
ghost use Rattle.std.specs.Prelude.{◌≡◌, ◌++◌, false, OnOk};
ghost use Rattle.std.specs.List.{list_any};
ghost use Rattle.tpl_lang.specs.Faults.{is_above};
ghost use Rattle.tpl_lang.specs.Statements.{values_of};
ghost use Rattle.tpl_lang.specs.Sets.{number};

use dom_set::OutOfMemory;
use tpl_lang::Numeral;

/// The value of a number, where it has one.
pub fn number(n: Numeral) -> u32
    ensures { result ≡ number n }
{
    n.value.unwrap_or(0)
}

/// Appends the values of numbers.
pub fn push_numbers(values: &mut Vec<u32>, ns: &[Numeral]) -> Result<(), OutOfMemory>
    ensures { OnOk result (values.new.items ≡ values.old.items ++ values_of ns.now) }
{
    for n in ns {
        values.push(number(*n))?;
    }
    Ok(())
}

/// Appends the values of bytes.
pub fn push_bytes(bytes: &mut Vec<u8>, ns: &[Numeral]) -> Result<(), OutOfMemory>
    requires { list_any (is_above 255) ns.now ≡ false }
    ensures { OnOk result (bytes.new.items ≡ bytes.old.items ++ values_of ns.now) }
{
    for n in ns {
        bytes.push(number(*n) as u8)?;
    }
    Ok(())
}
