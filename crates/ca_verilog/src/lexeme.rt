//! What a token is to the grammar.
ghost use Rattle.std.specs.Prelude.{◌≡◌, ◌≤◌};
ghost use Rattle.ca_verilog.specs.Lexeme.{is_refused, word_of, number_from, constant_of, sign_at, sign_of};
ghost use Rattle.ca_verilog.specs.Lexeme.{lexeme_of, after_first, name_of};

use ca_lex::TokenKind;

/// The greatest number.
pub(crate) const MOST: u32 = 131_071;

/// What a token is to the grammar.
#[derive(Clone, Copy, Debug, PartialEq, Eq)]
pub enum Lexeme {
    Module,
    Endmodule,
    Input,
    Output,
    Wire,
    Assign,
    /// A keyword of the larger language.
    Refused,
    /// An identifier.
    Name,
    /// A number up to the greatest.
    Number(u32),
    /// A larger number.
    Large,
    Constant(bool),
    Open,
    Close,
    OpenBracket,
    CloseBracket,
    Comma,
    Dot,
    Colon,
    Semicolon,
    Equals,
}

// Whether a word is a keyword of the larger language.
fn is_refused(word: &[u8]) -> bool
    ensures { result ≡ is_refused word.now }
{
    word == b"inout".as_slice()
        || word == b"reg".as_slice()
        || word == b"tri".as_slice()
        || word == b"supply0".as_slice()
        || word == b"supply1".as_slice()
        || word == b"parameter".as_slice()
        || word == b"defparam".as_slice()
        || word == b"always".as_slice()
        || word == b"initial".as_slice()
        || word == b"function".as_slice()
}

// A word without a `\`.
#[tactic(auto, unfolding(crate::specs::Lexeme::word_of))]
fn word_of(word: &[u8]) -> Lexeme
    ensures { result ≡ word_of word.now }
{
    if word == b"module".as_slice() {
        Lexeme::Module
    } else if word == b"endmodule".as_slice() {
        Lexeme::Endmodule
    } else if word == b"input".as_slice() {
        Lexeme::Input
    } else if word == b"output".as_slice() {
        Lexeme::Output
    } else if word == b"wire".as_slice() {
        Lexeme::Wire
    } else if word == b"assign".as_slice() {
        Lexeme::Assign
    } else if is_refused(word) {
        Lexeme::Refused
    } else {
        Lexeme::Name
    }
}

// The number of these digits.
fn number_of(digits: &[u8]) -> Lexeme
    ensures { result ≡ number_from 0 digits.now }
{
    let mut value = 0;
    let mut rest = digits;
    'digits: while let [digit, more @ ..] = rest {
        value = value * 10 + digit.saturating_sub(b'0') as u32;
        if MOST < value {
            return Lexeme::Large;
        }
        rest = more;
    }
    Lexeme::Number(value)
}

// A constant of one bit.
fn constant_of(text: &[u8]) -> Lexeme
    ensures { result ≡ constant_of text.now }
{
    Lexeme::Constant(text == b"1'b1".as_slice() || text == b"1'B1".as_slice())
}

// The sign of a byte.
fn sign_at(byte: u8) -> Lexeme
    ensures { result ≡ sign_at byte }
{
    match byte {
        b'(' => Lexeme::Open,
        b')' => Lexeme::Close,
        b'[' => Lexeme::OpenBracket,
        b']' => Lexeme::CloseBracket,
        b',' => Lexeme::Comma,
        b'.' => Lexeme::Dot,
        b':' => Lexeme::Colon,
        b';' => Lexeme::Semicolon,
        _ => Lexeme::Equals,
    }
}

// The sign of a token.
#[tactic(auto, unfolding(crate::specs::Lexeme::sign_of))]
fn sign_of(text: &[u8]) -> Lexeme
    ensures { result ≡ sign_of text.now }
{
    match text {
        [] => Lexeme::Equals,
        [byte, ..] => sign_at(*byte),
    }
}

/// What a token of this kind and text is to the grammar.
#[tactic(auto, unfolding(crate::specs::Lexeme::lexeme_of))]
pub(crate) fn lexeme_of(kind: TokenKind, text: &[u8]) -> Lexeme
    ensures { result ≡ lexeme_of kind text.now }
{
    match kind {
        TokenKind::Name => word_of(text),
        TokenKind::Escaped => Lexeme::Name,
        TokenKind::Number => number_of(text),
        TokenKind::Constant => constant_of(text),
        TokenKind::Sign => sign_of(text),
    }
}

/// The name of an identifier: an escaped one is without its `\`.
pub(crate) fn name_of(kind: TokenKind, text: &[u8]) -> &[u8]
    ensures { result.now ≡ name_of kind text.now }
{
    match kind {
        TokenKind::Escaped => after_first(text),
        _ => text,
    }
}

// The bytes after the first.
fn after_first(text: &[u8]) -> &[u8]
    ensures { result.now ≡ after_first text.now }
{
    match text {
        [] => text,
        [_, more @ ..] => more,
    }
}
