//! The tokens of a STIL text.
ghost use Rattle.std.specs.Prelude.{◌≡◌, ◌<◌, ◌≤◌, ◌∷◌, ◌++◌, [], length, false, true, MatchOption};
ghost use Rattle.ca_stil_form.specs.Tokens.{is_space, is_mark, is_quote, is_inside, word_len, name_len};
ghost use Rattle.ca_stil_form.specs.Tokens.{group_len, first_len, tokens_of, trimmed};
ghost use Rattle.ca_stil_form.specs.code.Tokens.{BeginsToken, IsTrimmed};

fn is_space(byte: u8) -> bool
    ensures { result ≡ is_space byte }
{
    byte == b' ' || byte == b'\t' || byte == b'\r' || byte == b'\n'
}

fn is_mark(byte: u8) -> bool
    ensures { result ≡ is_mark byte }
{
    byte == b'{' || byte == b'}' || byte == b';' || byte == b':' || byte == b'=' || byte == b'#'
}

fn is_quote(byte: u8) -> bool
    ensures { result ≡ is_quote byte }
{
    byte == b'"' || byte == b'\''
}

fn is_inside(byte: u8) -> bool
    ensures { result ≡ is_inside byte }
{
    !(is_space(byte) || is_mark(byte) || is_quote(byte))
}

fn word_len(text: &[u8]) -> usize
    ensures len { result ≡ word_len text.now }
    ensures within { result ≤ length text.now }
{
    let mut len = 0;
    let mut rest = text;
    'bytes: while let [byte, more @ ..] = rest {
        if !is_inside(*byte) {
            return len;
        }
        len += 1;
        rest = more;
    }
    len
}

fn name_len(text: &[u8]) -> usize
    ensures len { result ≡ name_len text.now }
    ensures within { result ≤ length text.now }
{
    let mut len = 0;
    let mut rest = text;
    'bytes: while let [byte, more @ ..] = rest {
        len += 1;
        if *byte == b'"' {
            return len;
        }
        rest = more;
    }
    len
}

fn group_len(text: &[u8]) -> usize
    ensures len { result ≡ group_len false text.now }
    ensures within { result ≤ length text.now }
{
    let mut len = 0;
    let mut in_name = false;
    let mut rest = text;
    'bytes: while let [byte, more @ ..] = rest {
        len += 1;
        if !in_name && *byte == b'\'' {
            return len;
        }
        in_name = if in_name {
            *byte != b'"'
        } else {
            *byte == b'"'
        };
        rest = more;
    }
    len
}

pub(crate) fn first_len(text: &[u8]) -> usize
    ensures len { result ≡ first_len text.now }
    ensures within { result ≤ length text.now }
    ensures some { BeginsToken text.now → 0 < result }
{
    let [byte, more @ ..] = text else {
        return 0;
    };
    if is_mark(*byte) {
        1
    } else if *byte == b'"' {
        name_len(more) + 1
    } else if *byte == b'\'' {
        group_len(more) + 1
    } else {
        word_len(text)
    }
}

pub(crate) fn trimmed(text: &[u8]) -> &[u8]
    ensures { result.now ≡ trimmed text.now }
{
    let mut rest = text;
    'bytes: while let [byte, more @ ..] = rest {
        if !is_space(*byte) {
            return rest;
        }
        rest = more;
    }
    rest
}

// The token that a text begins with, and the rest.
fn split_token(text: &[u8]) -> (&[u8], &[u8])
    requires { BeginsToken text.now }
    ensures tokens { tokens_of text.now ≡ result.0.now ∷ tokens_of result.1.now }
    ensures shorter { length result.1.now < length text.now }
{
    text.split_at(first_len(text))
}

// The token that a text without spaces before it begins with, and the rest; none where it is empty.
fn token_at(text: &[u8]) -> Option<(&[u8], &[u8])>
    requires { IsTrimmed text.now }
    ensures { MatchOption result (text.now ≡ [])
        (λ both. (tokens_of text.now ≡ both.0.now ∷ tokens_of both.1.now)
        × (length both.1.now < length text.now)) }
{
    if text.is_empty() {
        return None;
    }
    Some(split_token(text))
}

/// The first token of a text, and the text after it.
pub(crate) fn first_token(text: &[u8]) -> Option<(&[u8], &[u8])>
    ensures { MatchOption result (tokens_of text.now ≡ [])
        (λ both. (tokens_of text.now ≡ both.0.now ∷ tokens_of both.1.now)
        × (length both.1.now < length text.now)) }
{
    token_at(trimmed(text))
}
