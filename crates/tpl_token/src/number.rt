// The values of numbers.
ghost use Rattle.std.specs.Prelude.{◌≡◌, ◌≤◌, nat_lt};
ghost use Rattle.std.specs.List.{list_all};
ghost use Rattle.tpl_lang.specs.Numbers.{digit_of, value_of, fitting, negated_of, are_digits};

fn digit(b: u8) -> u32
    ensures { result ≡ digit_of b }
{
    match b {
        b'0'..=b'9' => u32::from(b - b'0'),
        b'A'..=b'F' => u32::from(b - b'A') + 10,
        b'a'..=b'f' => u32::from(b - b'a') + 10,
        _ => 99,
    }
}

/// The number that the digits spell, unless it is too large.
fn whole(base: u32, digits: &[u8]) -> Option<u32>
    requires { 1 ≤ base }
    ensures { result ≡ fitting (value_of base 0 digits.now) }
{
    let mut value: u32 = 0;
    for d in digits {
        value = value.checked_mul(base)?.checked_add(digit(*d))?;
    }
    Some(value)
}

/// The number that decimal digits spell, unless it is too large.
pub fn decimal(digits: &[u8]) -> Option<u32>
    ensures { result ≡ fitting (value_of 10 0 digits.now) }
{
    whole(10, digits)
}

/// The number that hexadecimal digits spell, unless it is too large.
pub fn hexadecimal(digits: &[u8]) -> Option<u32>
    ensures { result ≡ fitting (value_of 16 0 digits.now) }
{
    whole(16, digits)
}

/// 2^32 minus the number, modulo 2^32, unless it is above 2^31.
pub fn negated(digits: &[u8]) -> Option<u32>
    ensures { result ≡ negated_of (value_of 10 0 digits.now) }
{
    let size = whole(10, digits)?;
    if size > 0x8000_0000 {
        return None;
    }
    Some(size.wrapping_neg())
}

fn all_digits(base: u32, digits: &[u8]) -> bool
    ensures { result ≡ list_all (λ d. nat_lt (digit_of d) base) digits.now }
{
    digits.iter().all(|d| digit(*d) < base)
}

/// Whether there is a digit and each is one of the base.
pub fn are_digits(base: u32, digits: &[u8]) -> bool
    ensures { result ≡ are_digits base digits.now }
{
    !digits.is_empty() && all_digits(base, digits)
}
