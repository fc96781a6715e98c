// Words that aren't known.
ghost use Rattle.std.specs.Prelude.{◌≡◌};
ghost use Rattle.std.specs.List.{list_any};
ghost use Rattle.tpl_lang.specs.Faults.{is_word_unknown};
ghost use Rattle.tpl_token.specs.Internal.Phrases.{words_view};

use tpl_ast::Var;
use tpl_lang::{csr_of, op_of};

/// Whether a word is no operation or CSR, whichever the variable takes.
fn is_word_unknown(var: Var, word: &[u8]) -> bool
    ensures { result ≡ is_word_unknown var word.now }
{
    match var {
        Var::Op => op_of(word).is_none(),
        _ => csr_of(word).is_none(),
    }
}

/// The same of one of the words.
pub fn is_any_word_unknown(var: Var, words: &[&[u8]]) -> bool
    ensures { result ≡ list_any (is_word_unknown var) (words_view words.now) }
{
    for word in words {
        if is_word_unknown(var, word) {
            return true;
        }
    }
    false
}
