// Powers of two, and the low bits that they leave.
ghost use Rattle.std.specs.Prelude.{◌≡◌, ◌%◌, ◌^◌, ◌<◌};

/// One more than the greatest number.
pub const END: u64 = 1 << 32;

/// 2^shift.
pub fn step(shift: u32) -> u64
    requires { shift < 33 }
    ensures { result ≡ 2 ^ shift }
{
    1 << shift
}

/// The low bits of a number.
pub fn low_bits(x: u64, shift: u32) -> u64
    requires { shift < 33 }
    ensures { result ≡ x % 2 ^ shift }
{
    x & (step(shift) - 1)
}
