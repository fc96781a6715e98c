// Which words are reserved.
ghost use Rattle.std.specs.Prelude.{◌≡◌};
ghost use Rattle.tpl_lang.specs.Words.{is_register_word, is_reserved, register_of};

use crate::number::{are_digits, decimal};
use tpl_lang::{csr_of, key_of, op_of};

/// The number of a register's word, x and digits; None in Some is one that is too large.
pub fn register_of(word: &[u8]) -> Option<Option<u32>>
    ensures { result ≡ register_of word.now }
{
    let [first, digits @ ..] = word else {
        return None;
    };
    if *first == b'x' && are_digits(10, digits) {
        return Some(decimal(digits));
    }
    None
}

/// Whether a word is one of x0 to x31.
#[tactic(auto, unfolding(tpl_lang::specs::Words::is_register_word))]
fn is_register_word(word: &[u8]) -> bool
    ensures { result ≡ is_register_word word.now }
{
    match register_of(word) {
        Some(Some(n)) => n < 32 && (word.len() == 2 || word[1] != b'0'),
        _ => false,
    }
}

/// Whether a word can't be declared.
pub fn is_reserved(word: &[u8]) -> bool
    ensures { result ≡ is_reserved word.now }
{
    key_of(word).is_some()
        || op_of(word).is_some()
        || csr_of(word).is_some()
        || is_register_word(word)
}
