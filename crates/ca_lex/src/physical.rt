//! The physical lines of a cell netlist, and what each one is.
ghost use Rattle.std.specs.Prelude.{◌≡◌, ◌<◌, ◌≤◌, ◌∷◌, length, drop, true};
ghost use Rattle.std.specs.List.{prefix_len};
ghost use Rattle.ca_lex.specs.Words.{is_blank};
ghost use Rattle.ca_lex.specs.Physical.{lines_of, line_len, code_len, without_comment, is_pin_info, card_of};
ghost use Rattle.ca_lex.specs.Physical.{physical_of};
ghost use Rattle.ca_lex.specs.code.Joining.{physical};

use crate::words::{ends_word, is_blank, word_len};

/// What a physical line adds, without its leading blanks, its comment and the `+` of a continuation.
#[derive(Clone, Copy)]
pub(crate) enum Piece<'a> {
    /// The line has only blanks and comments.
    Nothing,
    Continuation(&'a [u8]),
    PinInfo(&'a [u8]),
    Card(&'a [u8]),
}

/// The number of bytes before the first line feed, or of all bytes.
pub fn line_len(text: &[u8]) -> usize
    ensures len { result ≡ line_len text.now }
    ensures within { result ≤ length text.now }
{
    let mut len = 0;
    let mut rest = text;
    'bytes: while let [byte, more @ ..] = rest {
        if *byte == b'\n' {
            return len;
        }
        len += 1;
        rest = more;
    }
    len
}

/// The first line of a text without its line feed, and what follows that.
pub fn first_line(text: &[u8]) -> (&[u8], &[u8])
    requires { 0 < length text.now }
    ensures lines { lines_of text.now ≡ result.0.now ∷ lines_of result.1.now }
    ensures shorter { length result.1.now < length text.now }
{
    let (line, rest) = text.split_at(line_len(text));
    match rest {
        [] => (line, rest),
        [_, more @ ..] => (line, more),
    }
}

fn without_blanks(line: &[u8]) -> &[u8]
    ensures { result.now ≡ drop (prefix_len is_blank line.now) line.now }
{
    let mut rest = line;
    'bytes: while let [byte, more @ ..] = rest {
        if !is_blank(*byte) {
            return rest;
        }
        rest = more;
    }
    rest
}

fn code_len(line: &[u8]) -> usize
    ensures len { result ≡ code_len true line.now }
    ensures within { result ≤ length line.now }
{
    let mut len = 0;
    let mut begins = true;
    let mut rest = line;
    'bytes: while let [byte, more @ ..] = rest {
        if begins && *byte == b'$' {
            return len;
        }
        begins = ends_word(*byte);
        len += 1;
        rest = more;
    }
    len
}

fn without_comment(line: &[u8]) -> &[u8]
    ensures { result.now ≡ without_comment line.now }
{
    &line[..code_len(line)]
}

#[tactic(auto, unfolding(crate::specs::Physical::is_pin_info))]
fn is_pin_info(line: &[u8]) -> bool
    ensures { result ≡ is_pin_info line.now }
{
    let word = &line[..word_len(line)];
    word.eq_ignore_ascii_case(b"*.PININFO")
}

#[tactic(auto, unfolding(crate::specs::Physical::card_of))]
fn card_of(text: &[u8]) -> Piece<'_>
    ensures { physical result ≡ card_of text.now }
{
    match text {
        [] => Piece::Nothing,
        [_, ..] => Piece::Card(text),
    }
}

/// What a physical line is.
#[tactic(auto, unfolding(crate::specs::Physical::physical_at))]
pub(crate) fn piece_of(line: &[u8]) -> Piece<'_>
    ensures { physical result ≡ physical_of line.now }
{
    let text = without_blanks(line);
    match text {
        [] => Piece::Nothing,
        [b'*', ..] => {
            if is_pin_info(text) {
                Piece::PinInfo(without_comment(text))
            } else {
                Piece::Nothing
            }
        }
        [b'+', more @ ..] => Piece::Continuation(without_comment(more)),
        [_, ..] => card_of(without_comment(text)),
    }
}
