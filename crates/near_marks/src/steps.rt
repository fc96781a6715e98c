// Numbers that are a power of two apart.
ghost use Rattle.std.specs.Prelude.{◌≡◌, ◌+◌, ◌^◌, ◌<◌, ◌≤◌};

/// How many words there are.
pub const WORDS: u64 = 1 << 32;

/// Near are the differences from so far below 0 on that are less than so far above it: those that immediates of 12 bits
/// can be.
pub const REACH: u64 = 2048;

/// How many numbers are near.
pub const NEAR: u64 = 2 * REACH;

/// The numbers from a lowest to a highest one that are a multiple of 2^shift from the lowest.
#[derive(Clone, Copy)]
pub struct Steps {
    pub low: u64,
    pub high: u64,
    pub shift: u32,
    ghost ordered: { low ≤ high },
    ghost bound: { high ≤ 2 ^ 32 + 2048 },
    ghost within: { shift < 32 },
}

/// How far apart the numbers are.
pub fn step(shift: u32) -> u64
    requires { shift < 32 }
    ensures { result ≡ 2 ^ shift }
{
    1 << shift
}
