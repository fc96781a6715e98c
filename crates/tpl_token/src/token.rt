// The tokens of a line.
ghost use Rattle.std.specs.Prelude.{◌≡◌, ◌<◌, ◌≤◌, ◌&&◌, not, length, IfOk, option_map};
ghost use Rattle.std.specs.List.{list_all};
ghost use Rattle.std.specs.Char.{is_ascii_uppercase};
ghost use Rattle.tpl_lang.specs.Tokens.{is_blank, is_word, is_word_byte, joins, mark_of, number_of, token_of, tokens_of};
ghost use Rattle.tpl_token.specs.Internal.Pieces.{piece_len};
ghost use Rattle.tpl_token.specs.Internal.Views.{view, views};

use crate::number::{are_digits, decimal, hexadecimal, negated};
use std::alloc::{AllocError, Global};
use tpl_ast::MAX_NAME;
use tpl_lang::{Mark, Numeral};

/// A token; a word lies in the text.
#[derive(Clone, Copy, Debug)]
pub enum Token<'a> {
    /// A word of the language, or a name.
    Word(&'a [u8]),
    /// A number as it is spelled.
    Number(Numeral),
    /// A symbol.
    Mark(Mark),
}

/// Whether two neighbours belong to one piece of a line.
fn joins(b: u8, c: u8) -> bool
    ensures { result ≡ joins b c }
{
    is_word_byte(b) && is_word_byte(c)
        || is_blank(b) && is_blank(c)
        || b == b'.' && c == b'.'
        || (b == b'=' || b == b'!') && c == b'='
        || b == b'-' && is_word_byte(c)
}

fn is_blank(b: u8) -> bool
    ensures { result ≡ is_blank b }
{
    b == b' ' || b == b'\t'
}

fn is_word_byte(b: u8) -> bool
    ensures { result ≡ is_word_byte b }
{
    b.is_ascii_digit() || b.is_ascii_lowercase() || b.is_ascii_uppercase() || b == b'_'
}

/// The length of the first piece.
fn piece_len(bytes: &[u8]) -> usize
    requires { 0 < length bytes.now }
    ensures within { result ≤ length bytes.now }
    ensures some { 0 < result }
    ensures value { result ≡ piece_len bytes.now }
{
    let mut n = 1;
    while n < bytes.len() && joins(bytes[n - 1], bytes[n]) {
        n += 1;
    }
    n
}

fn are_word_bytes(word: &[u8]) -> bool
    ensures { result ≡ list_all (λ b. is_word_byte b && not (is_ascii_uppercase b)) word.now }
{
    word.iter()
        .all(|b| is_word_byte(*b) && !b.is_ascii_uppercase())
}

#[tactic(auto, unfolding(tpl_lang::specs::Tokens::is_word))]
fn is_word(piece: &[u8]) -> bool
    requires { 0 < length piece.now }
    ensures { result ≡ is_word piece.now }
{
    piece.len() <= MAX_NAME && piece[0].is_ascii_lowercase() && are_word_bytes(piece)
}

/// The number that a piece spells, if it spells one.
#[tactic(auto, unfolding(tpl_lang::specs::Tokens::number_of))]
fn number(piece: &[u8]) -> Option<Numeral>
    requires { 0 < length piece.now }
    ensures { result ≡ number_of piece.now }
{
    if piece[0] == b'-' {
        let digits = &piece[1..];
        if are_digits(10, digits) {
            return Some(Numeral {
                minus: true,
                value: negated(digits),
            });
        }
        return None;
    }
    if piece.len() > 1 && piece[0] == b'0' && piece[1] == b'x' {
        let digits = &piece[2..];
        if are_digits(16, digits) {
            return Some(Numeral {
                minus: false,
                value: hexadecimal(digits),
            });
        }
        return None;
    }
    if are_digits(10, piece) {
        return Some(Numeral {
            minus: false,
            value: decimal(piece),
        });
    }
    None
}

#[tactic(auto, unfolding(tpl_lang::specs::Tokens::mark_of))]
fn find_mark(piece: &[u8]) -> Option<Mark>
    ensures { result ≡ mark_of piece.now }
{
    if piece == b"{".as_slice() {
        return Some(Mark::Open);
    }
    if piece == b"}".as_slice() {
        return Some(Mark::Close);
    }
    if piece == b";".as_slice() {
        return Some(Mark::Semicolon);
    }
    if piece == b",".as_slice() {
        return Some(Mark::Comma);
    }
    if piece == b":".as_slice() {
        return Some(Mark::Colon);
    }
    if piece == b"..".as_slice() {
        return Some(Mark::Range);
    }
    if piece == b"=".as_slice() {
        return Some(Mark::Is);
    }
    if piece == b"==".as_slice() {
        return Some(Mark::Equal);
    }
    if piece == b"!=".as_slice() {
        return Some(Mark::Unequal);
    }
    None
}

/// The token that a piece is.
#[tactic(auto, unfolding(tpl_lang::specs::Tokens::token_of))]
fn find_token(piece: &[u8]) -> Option<Token<'_>>
    requires { 0 < length piece.now }
    ensures { option_map view result ≡ token_of piece.now }
{
    if is_word(piece) {
        return Some(Token::Word(piece));
    }
    if let Some(mark) = find_mark(piece) {
        return Some(Token::Mark(mark));
    }
    let number = number(piece)?;
    Some(Token::Number(number))
}

/// The tokens of a line without its comment, if all of it is tokens.
#[tactic(auto, unfolding(tpl_lang::specs::Tokens::tokens_of))]
pub fn tokens(alloc: Global, line: &[u8]) -> Result<Option<Vec<Token<'_>>>, AllocError>
    ensures { IfOk result (λ found. option_map (λ v. views v.items) found ≡ tokens_of line.now) }
{
    let mut tokens = Vec::new(alloc);
    let mut rest = line;
    while !rest.is_empty() {
        let (piece, after) = rest.split_at(piece_len(rest));
        if !is_blank(piece[0]) {
            match find_token(piece) {
                Some(token) => tokens.push(token)?,
                None => return Ok(None),
            }
        }
        rest = after;
    }
    Ok(Some(tokens))
}
