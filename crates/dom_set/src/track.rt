// Numbers that are a power of two apart.
ghost use Rattle.std.specs.Prelude.{◌≡◌, ◌%◌, ◌^◌, ◌<◌, ◌≤◌};

/// The numbers from a lowest to a highest one that are a multiple of 2^shift from the lowest.
#[derive(Clone, Copy)]
pub struct Track {
    pub low: u32,
    pub high: u32,
    pub shift: u32,
    ghost ordered: { low ≤ high },
    ghost within: { shift < 32 },
    ghost ends: { high % 2 ^ shift ≡ low % 2 ^ shift },
}
