//! The line of a text's first faulty token.

ghost use Rattle.std.specs.Prelude.{◌≡◌, ◌≤◌, ◌==◌, length};
ghost use Rattle.std.specs.List.{count_by};
ghost use Rattle.ca_stil_form.specs.Tokens.{tokens_of};
ghost use Rattle.ca_stil_read.specs.Line.{after_token, after_tokens, line_feeds, line_at, fault_line};

use crate::token::{first_len, first_token, trimmed};

/// How many tokens a text has.
pub(crate) fn count_tokens(text: &[u8]) -> usize
    ensures count { result ≡ length (tokens_of text.now) }
    ensures within { result ≤ length text.now }
{
    let mut count = 0;
    let mut rest = text;
    'tokens: loop {
        let Some((_, after)) = first_token(rest) else {
            return count;
        };
        count += 1;
        rest = after;
    }
}

// The text after its first token.
fn after_token(text: &[u8]) -> &[u8]
    ensures { result.now ≡ after_token text.now }
{
    let here = trimmed(text);
    let (_, after) = here.split_at(first_len(here));
    after
}

// The text after `count` of its tokens.
#[tactic(auto, unfolding(crate::specs::Line::after_tokens))]
fn after_tokens(count: usize, text: &[u8]) -> &[u8]
    ensures { result.now ≡ after_tokens count text.now }
{
    let mut left = count;
    let mut rest = text;
    'tokens: while left > 0 {
        left -= 1;
        rest = after_token(rest);
    }
    rest
}

// How many lines end in a text.
fn line_feeds(text: &[u8]) -> usize
    ensures count { result ≡ line_feeds text.now }
    ensures within { result ≤ length text.now }
{
    let mut count = 0;
    for byte in text {
        if *byte == b'\n' {
            count += 1;
        }
    }
    count
}

// The line of the byte at which this rest of a text begins, or at its end that of its last byte.
fn line_at(text: &[u8], rest: &[u8]) -> usize
    ensures { result ≡ line_at text.now rest.now }
{
    let after = rest.len().max(1);
    let (before, _) = text.split_at(text.len().saturating_sub(after));
    line_feeds(before) + 1
}

/// The line of the token from which on `left` are left, or the last line where none is.
pub(crate) fn fault_line(text: &[u8], left: usize) -> usize
    ensures { result ≡ fault_line text.now left }
{
    let total = count_tokens(text);
    let rest = after_tokens(total.saturating_sub(left), text);
    line_at(text, trimmed(rest))
}
