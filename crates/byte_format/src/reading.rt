// Numbers, literals and padding at the front of some bytes. Each function gives what it reads with what stands behind it.
ghost use Rattle.std.specs.Prelude.{◌≡◌, IfErr};
ghost use Rattle.byte_format.specs.Numbers.{half, word, padding};
ghost use Rattle.byte_format.specs.Internal.Readers.{Gives, byte_at, half_at, word_at, skip, padded_at};

use crate::error::PieceError;

/// Reads a byte.
#[tactic(auto, unfolding(crate::specs::Internal::Readers::byte_at))]
pub fn byte_of(bytes: &[u8]) -> Result<(u8, &[u8]), PieceError>
    ensures gives { Gives (λ x. (x.0, x.1.now)) result (byte_at bytes.now) }
    ensures malformed { IfErr result (λ e. e ≡ PieceError.Malformed) }
{
    match bytes {
        [] => Err(PieceError::Malformed),
        [first, rest @ ..] => Ok((*first, rest)),
    }
}

/// Reads a number of two bytes.
#[tactic(auto, unfolding(crate::specs::Internal::Readers::half_at))]
pub fn half_of(bytes: &[u8]) -> Result<(u16, &[u8]), PieceError>
    ensures gives { Gives (λ x. (x.0, x.1.now)) result (half_at bytes.now) }
    ensures malformed { IfErr result (λ e. e ≡ PieceError.Malformed) }
{
    if bytes.len() < 2 {
        return Err(PieceError::Malformed);
    }
    let (front, rest) = bytes.split_at(2);
    let number = u16::from_le_bytes([front[0], front[1]]);
    Ok((number, rest))
}

/// Reads a number of four bytes.
#[tactic(auto, unfolding(crate::specs::Internal::Readers::word_at))]
pub fn word_of(bytes: &[u8]) -> Result<(u32, &[u8]), PieceError>
    ensures gives { Gives (λ x. (x.0, x.1.now)) result (word_at bytes.now) }
    ensures malformed { IfErr result (λ e. e ≡ PieceError.Malformed) }
{
    if bytes.len() < 4 {
        return Err(PieceError::Malformed);
    }
    let (front, rest) = bytes.split_at(4);
    let number = u32::from_le_bytes([front[0], front[1], front[2], front[3]]);
    Ok((number, rest))
}

/// What stands behind a literal.
#[tactic(auto, unfolding(crate::specs::Internal::Readers::skip))]
pub fn after<'a>(bytes: &'a [u8], literal: &[u8]) -> Result<&'a [u8], PieceError>
    ensures gives { Gives (λ x. x.now) result (skip literal.now bytes.entry.now) }
    ensures malformed { IfErr result (λ e. e ≡ PieceError.Malformed) }
{
    if !bytes.starts_with(literal) {
        return Err(PieceError::Malformed);
    }
    let (_, rest) = bytes.split_at(literal.len());
    Ok(rest)
}

/// What stands behind this number of two bytes.
#[tactic(auto, unfolding(crate::specs::Numbers::half))]
pub fn after_half(bytes: &[u8], n: u16) -> Result<&[u8], PieceError>
    ensures gives { Gives (λ x. x.now) result (skip (half n) bytes.now) }
    ensures malformed { IfErr result (λ e. e ≡ PieceError.Malformed) }
{
    after(bytes, &n.to_le_bytes())
}

/// What stands behind this number of four bytes.
#[tactic(auto, unfolding(crate::specs::Numbers::word))]
pub fn after_word(bytes: &[u8], n: u32) -> Result<&[u8], PieceError>
    ensures gives { Gives (λ x. x.now) result (skip (word n) bytes.now) }
    ensures malformed { IfErr result (λ e. e ≡ PieceError.Malformed) }
{
    after(bytes, &n.to_le_bytes())
}

/// What stands behind the zeros that make so many bytes a multiple of 4.
#[tactic(auto, using(crate::proofs::Padding::zeros_take), unfolding(crate::specs::Numbers::padding))]
pub fn after_padding(bytes: &[u8], size: u32) -> Result<&[u8], PieceError>
    ensures gives { Gives (λ x. x.now) result (skip (padding size) bytes.now) }
    ensures malformed { IfErr result (λ e. e ≡ PieceError.Malformed) }
{
    let zeros = [0; 3];
    let gap = ((4 - size % 4) % 4) as usize;
    after(bytes, &zeros[..gap])
}

/// Reads so many bytes, with the padding behind them.
#[tactic(auto, unfolding(crate::specs::Internal::Readers::padded_at))]
pub fn padded_of(bytes: &[u8], size: u32) -> Result<(&[u8], &[u8]), PieceError>
    ensures gives { Gives (λ x. (x.0.now, x.1.now)) result (padded_at size bytes.now) }
    ensures malformed { IfErr result (λ e. e ≡ PieceError.Malformed) }
{
    if bytes.len() < size as usize {
        return Err(PieceError::Malformed);
    }
    let (front, rest) = bytes.split_at(size as usize);
    let rest = after_padding(rest, size)?;
    Ok((front, rest))
}
