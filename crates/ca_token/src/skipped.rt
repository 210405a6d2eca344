//! Comments and attributes.
ghost use Rattle.std.specs.Prelude.{◌≡◌, ◌+◌, length};
ghost use Rattle.ca_token.specs.Piece.{closes, comment_from, attribute_from, slash_piece};
ghost use Rattle.ca_token.specs.code.Piece.{IsWithin};
ghost use Rattle.ca_token.specs.Piece.{open_piece};

use crate::fault::LexKind;
use crate::piece::Piece;
use crate::runs::{begins_with, is_plain};
use ca_lex::{TokenKind, line_len};

fn closes(sign: u8, text: &[u8]) -> bool
    ensures { result ≡ closes sign text.now }
{
    match text {
        [] => false,
        [byte, more @ ..] => *byte == b'*' && begins_with(sign, more),
    }
}

// A comment, by the bytes after its `/*`.
fn comment(text: &[u8]) -> Piece
    ensures piece { result ≡ comment_from 2 text.now }
    ensures within { IsWithin (2 + length text.now) result }
{
    let mut len = 2;
    let mut rest = text;
    'bytes: while let [byte, more @ ..] = rest {
        if closes(b'/', rest) {
            return Piece::Skipped(len + 2);
        }
        len += 1;
        rest = more;
    }
    Piece::Broken(len - 1, LexKind::Syntax)
}

// An attribute, by the bytes after its `(*`.
fn attribute(text: &[u8]) -> Piece
    ensures piece { result ≡ attribute_from 2 text.now }
    ensures within { IsWithin (2 + length text.now) result }
{
    let mut len = 2;
    let mut rest = text;
    'bytes: while let [byte, more @ ..] = rest {
        if closes(b')', rest) {
            return Piece::Skipped(len + 2);
        }
        if !is_plain(*byte) {
            return Piece::Broken(len, LexKind::NotText);
        }
        len += 1;
        rest = more;
    }
    Piece::Broken(len - 1, LexKind::Syntax)
}

/// What a `/` begins, by the bytes after it.
#[tactic(auto, unfolding(crate::specs::Piece::slash_piece))]
pub(crate) fn slash_piece(more: &[u8]) -> Piece
    ensures piece { result ≡ slash_piece more.now }
    ensures within { IsWithin (1 + length more.now) result }
{
    match more {
        [b'/', rest @ ..] => Piece::Skipped(2 + line_len(rest)),
        [b'*', rest @ ..] => comment(rest),
        _ => Piece::Broken(0, LexKind::Syntax),
    }
}

/// What a `(` begins, by the bytes after it.
#[tactic(auto, unfolding(crate::specs::Piece::open_piece))]
pub(crate) fn open_piece(more: &[u8]) -> Piece
    ensures piece { result ≡ open_piece more.now }
    ensures within { IsWithin (1 + length more.now) result }
{
    match more {
        [b'*', rest @ ..] if !begins_with(b')', rest) => attribute(rest),
        _ => Piece::Found(TokenKind::Sign, 1),
    }
}
