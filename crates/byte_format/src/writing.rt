// Numbers and padding at the end of a buffer. Without memory for them the buffer stays as it is.
ghost use Rattle.std.specs.Prelude.{◌≡◌, ◌++◌, OnOk, OnErr};
ghost use Rattle.byte_format.specs.Numbers.{byte, half, word, padding};

use std::alloc::AllocError;

/// Writes a byte.
#[tactic(auto, unfolding(crate::specs::Numbers::byte))]
pub fn put_byte(out: &mut Vec<u8>, n: u8) -> Result<(), AllocError>
    ensures ok { OnOk result (out.new.items ≡ out.old.items ++ byte n) }
    ensures err { OnErr result (out.new.items ≡ out.old.items) }
{
    out.push(n)?;
    Ok(())
}

/// Writes two bytes.
#[tactic(auto, unfolding(crate::specs::Numbers::half))]
pub fn put_half(out: &mut Vec<u8>, n: u16) -> Result<(), AllocError>
    ensures ok { OnOk result (out.new.items ≡ out.old.items ++ half n) }
    ensures err { OnErr result (out.new.items ≡ out.old.items) }
{
    out.extend_from_slice(&n.to_le_bytes())
}

/// Writes the low two bytes of a number: all of one below 2^16.
#[tactic(auto, unfolding(crate::specs::Numbers::half))]
pub fn put_short(out: &mut Vec<u8>, n: usize) -> Result<(), AllocError>
    ensures ok { OnOk result (out.new.items ≡ out.old.items ++ half n) }
    ensures err { OnErr result (out.new.items ≡ out.old.items) }
{
    out.extend_from_slice(&((n & 0xffff) as u16).to_le_bytes())
}

/// Writes four bytes.
#[tactic(auto, unfolding(crate::specs::Numbers::word))]
pub fn put_word(out: &mut Vec<u8>, n: u32) -> Result<(), AllocError>
    ensures ok { OnOk result (out.new.items ≡ out.old.items ++ word n) }
    ensures err { OnErr result (out.new.items ≡ out.old.items) }
{
    out.extend_from_slice(&n.to_le_bytes())
}

/// Writes the low four bytes of a number: all of one below 2^32.
#[tactic(auto, unfolding(crate::specs::Numbers::word))]
pub fn put_size(out: &mut Vec<u8>, n: usize) -> Result<(), AllocError>
    ensures ok { OnOk result (out.new.items ≡ out.old.items ++ word n) }
    ensures err { OnErr result (out.new.items ≡ out.old.items) }
{
    out.extend_from_slice(&((n & 0xffff_ffff) as u32).to_le_bytes())
}

/// Writes the zeros that make so many bytes a multiple of 4.
#[tactic(auto, using(crate::proofs::Padding::zeros_take), unfolding(crate::specs::Numbers::padding))]
pub fn put_padding(out: &mut Vec<u8>, size: usize) -> Result<(), AllocError>
    ensures ok { OnOk result (out.new.items ≡ out.old.items ++ padding size) }
    ensures err { OnErr result (out.new.items ≡ out.old.items) }
{
    let zeros = [0; 3];
    let gap = (4 - size % 4) % 4;
    out.extend_from_slice(&zeros[..gap])
}
