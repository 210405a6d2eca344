//! What a text begins with.
ghost use Rattle.std.specs.Prelude.{◌≡◌, ◌<◌, ◌≤◌, ◌+◌, length};
ghost use Rattle.std.specs.Prelude.{IsTrue};
ghost use Rattle.ca_token.specs.code.Bytes.{begins_digit};
ghost use Rattle.ca_token.specs.Piece.{has_quote, escaped_before, escaped_piece, is_bit};
ghost use Rattle.ca_token.specs.code.Piece.{IsWithin};
ghost use Rattle.ca_token.specs.Piece.{constant_piece, number_before, number_piece, quote_piece};
ghost use Rattle.ca_token.specs.Piece.{sign_piece, piece_of};

use crate::directive::directive_piece;
use crate::fault::LexKind;
use crate::runs::{
    begins_name, constant_len, digits_len, is_digit, is_letter, is_sign, is_text, is_white,
    name_len, text_len,
};
use crate::skipped::{open_piece, slash_piece};
use ca_lex::TokenKind;

/// What a text begins with.
#[derive(Clone, Copy, Debug, PartialEq, Eq)]
pub(crate) enum Piece {
    /// One byte of white space.
    Blank,
    /// This many bytes of a comment, an attribute or a directive.
    Skipped(usize),
    /// A token of this many bytes.
    Found(TokenKind, usize),
    /// A fault, with the place of the byte that breaks the rule, counted from the piece's first byte.
    Broken(usize, LexKind),
}

fn has_quote(name: &[u8]) -> bool
    ensures { result ≡ has_quote name.now }
{
    name.iter().any(|byte| *byte == b'"')
}

// A name after a `\`, with what follows it.
fn escaped_before(name: &[u8], rest: &[u8]) -> Piece
    ensures piece { result ≡ escaped_before name.now rest.now }
    ensures within { IsWithin (1 + length name.now) result }
{
    match rest {
        [] => {
            if has_quote(name) {
                Piece::Broken(0, LexKind::Unsupported)
            } else {
                Piece::Broken(0, LexKind::Syntax)
            }
        }
        [next, ..] => {
            if !is_white(*next) {
                Piece::Broken(0, LexKind::NotText)
            } else if has_quote(name) {
                Piece::Broken(0, LexKind::Unsupported)
            } else if name.len() == 0 {
                Piece::Broken(0, LexKind::Syntax)
            } else {
                Piece::Found(TokenKind::Escaped, 1 + name.len())
            }
        }
    }
}

// What a `\` begins, by the bytes after it.
#[tactic(auto, unfolding(crate::specs::Piece::escaped_piece))]
fn escaped_piece(more: &[u8]) -> Piece
    ensures piece { result ≡ escaped_piece more.now }
    ensures within { IsWithin (1 + length more.now) result }
{
    let (name, rest) = more.split_at(text_len(more));
    escaped_before(name, rest)
}

fn is_bit(value: &[u8]) -> bool
    ensures { result ≡ is_bit value.now }
{
    value == b"b0".as_slice()
        || value == b"b1".as_slice()
        || value == b"B0".as_slice()
        || value == b"B1".as_slice()
}

// A constant of these digits and this value.
#[tactic(auto, unfolding(crate::specs::Piece::constant_piece))]
fn constant_piece(digits: &[u8], value: &[u8]) -> Piece
    ensures piece { result ≡ constant_piece digits.now value.now }
    ensures within { IsWithin (length digits.now + 1 + length value.now) result }
{
    if digits == b"1".as_slice() && is_bit(value) {
        Piece::Found(TokenKind::Constant, digits.len() + 1 + value.len())
    } else {
        Piece::Broken(0, LexKind::Unsupported)
    }
}

// Digits, with what follows them.
fn number_before(digits: &[u8], rest: &[u8]) -> Piece
    requires { 0 < length digits.now }
    ensures piece { result ≡ number_before digits.now rest.now }
    ensures within { IsWithin (length digits.now + length rest.now) result }
{
    match rest {
        [b'\'', more @ ..] => constant_piece(digits, &more[..constant_len(more)]),
        _ => Piece::Found(TokenKind::Number, digits.len()),
    }
}

// What a digit begins, which is the text's first byte.
#[tactic(auto, unfolding(crate::specs::Piece::number_piece))]
fn number_piece(text: &[u8]) -> Piece
    requires { IsTrue (begins_digit text.now) }
    ensures piece { result ≡ number_piece text.now }
    ensures within { IsWithin (length text.now) result }
{
    let (digits, rest) = text.split_at(digits_len(text));
    number_before(digits, rest)
}

// What a `'` begins, by the bytes after it.
#[tactic(auto, unfolding(crate::specs::Piece::quote_piece))]
fn quote_piece(more: &[u8]) -> Piece
    ensures piece { result ≡ quote_piece more.now }
    ensures within { IsWithin (1 + length more.now) result }
{
    match more {
        [byte, ..] if is_letter(*byte) || is_digit(*byte) => Piece::Broken(0, LexKind::Unsupported),
        _ => Piece::Broken(0, LexKind::Syntax),
    }
}

// What a byte is that begins no longer piece.
fn sign_piece(byte: u8) -> Piece
    ensures piece { result ≡ sign_piece byte }
    ensures within { IsWithin 1 result }
{
    if is_sign(byte) {
        Piece::Found(TokenKind::Sign, 1)
    } else if !is_text(byte) {
        Piece::Broken(0, LexKind::NotText)
    } else if byte == b'#' || byte == b'{' {
        Piece::Broken(0, LexKind::Unsupported)
    } else {
        Piece::Broken(0, LexKind::Syntax)
    }
}

/// What a text begins with, where only white space is before it on its line or not.
#[tactic(auto, unfolding(crate::specs::Piece::piece_of))]
pub(crate) fn piece_of(begins_line: bool, text: &[u8]) -> Piece
    requires { 0 < length text.now }
    ensures piece { result ≡ piece_of begins_line text.now }
    ensures within { IsWithin (length text.now) result }
{
    let [byte, more @ ..] = text else {
        return Piece::Blank;
    };
    let byte = *byte;
    if is_white(byte) {
        Piece::Blank
    } else if byte == b'/' {
        slash_piece(more)
    } else if byte == b'(' {
        open_piece(more)
    } else if byte == b'`' {
        directive_piece(begins_line, more)
    } else if byte == b'\\' {
        escaped_piece(more)
    } else if byte == b'\'' {
        quote_piece(more)
    } else if begins_name(byte) {
        Piece::Found(TokenKind::Name, name_len(text))
    } else if is_digit(byte) {
        number_piece(text)
    } else {
        sign_piece(byte)
    }
}
