// Bytes of words.
ghost use Rattle.std.specs.Prelude.{◌≡◌, ◌<◌};
ghost use Rattle.rv_mem.specs.Bytes.{with_byte};

/// The word with byte `k` replaced, counted from the lowest.
pub fn with_byte(word: u32, k: u32, v: u8) -> u32
    requires { k < 4 }
    ensures { result ≡ with_byte word k v }
{
    let mut bytes = word.to_le_bytes();
    bytes[k as usize] = v;
    u32::from_le_bytes(bytes)
}
