// Numbers and bytes as the lines have them.
use crate::stop::Stop;

/// The value of a digit in hexadecimal.
fn digit_of(byte: u8) -> Option<u8> {
    match byte {
        b'0'..=b'9' => Some(byte - b'0'),
        b'a'..=b'f' => Some(byte - b'a' + 10),
        _ => None,
    }
}

/// The number of up to eight digits in hexadecimal.
pub fn hex(word: &str) -> Result<u32, Stop> {
    if word.is_empty() || 8 < word.len() {
        return Err(Stop::Value);
    }
    let mut number = 0u32;
    for byte in word.as_bytes() {
        let Some(digit) = digit_of(*byte) else {
            return Err(Stop::Value);
        };
        number = number.wrapping_mul(16).wrapping_add(u32::from(digit));
    }
    Ok(number)
}

/// The number of up to nine decimal digits.
pub fn decimal(word: &str) -> Result<u32, Stop> {
    if word.is_empty() || 9 < word.len() {
        return Err(Stop::Value);
    }
    let mut number = 0u32;
    for byte in word.as_bytes() {
        if !byte.is_ascii_digit() {
            return Err(Stop::Value);
        }
        number = number
            .wrapping_mul(10)
            .wrapping_add(u32::from(byte.wrapping_sub(b'0')));
    }
    Ok(number)
}

/// Appends a word as its four bytes, the lowest first.
pub fn push_word(bytes: &mut Vec<u8>, word: u32) -> Result<(), Stop> {
    bytes.extend_from_slice(&word.to_le_bytes())?;
    Ok(())
}

/// Appends a number in hexadecimal so many times: of two digits a byte, of eight a word.
fn push_number(bytes: &mut Vec<u8>, count: u32, word: &str) -> Result<(), Stop> {
    let number = hex(word)?;
    let [low, ..] = number.to_le_bytes();
    match word.len() {
        2 => {
            for _ in 0..count {
                bytes.push(low)?;
            }
            Ok(())
        }
        8 => {
            for _ in 0..count {
                push_word(bytes, number)?;
            }
            Ok(())
        }
        _ => Err(Stop::Value),
    }
}

/// Appends numbers in hexadecimal, each once or, behind `N*`, so many times.
pub fn push_numbers(bytes: &mut Vec<u8>, text: &str) -> Result<(), Stop> {
    for word in text.split_whitespace() {
        match word.split_once('*') {
            Some((count, word)) => push_number(bytes, decimal(count)?, word)?,
            None => push_number(bytes, 1, word)?,
        }
    }
    Ok(())
}

/// A length that a word has room for.
pub fn word_of(length: usize) -> u32 {
    u32::try_from(length).unwrap_or(u32::MAX)
}
