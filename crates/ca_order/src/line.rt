//! The words of the lines of an order file.

ghost use Rattle.std.specs.Prelude.{◌≡◌, ◌∷◌, ◌<◌, ◌≤◌, [], length, Some, None, MatchOption};
ghost use Rattle.ca_net.specs.declared.trit.Trit.TheVariants.{Zero, One, X};
ghost use Rattle.ca_order.specs.Lines.{words_of, value_of};
ghost use Rattle.ca_order.specs.code.Lines.{word_len};

use ca_net::Trit;

// The number of bytes before the first space, or of all bytes.
#[tactic(auto, unfolding(crate::specs::code::Lines::word_len))]
fn word_len(text: &[u8]) -> usize
    ensures len { result ≡ word_len text.now }
    ensures within { result ≤ length text.now }
{
    let mut len = 0;
    let mut rest = text;
    'bytes: while let [byte, more @ ..] = rest {
        if *byte == b' ' {
            return len;
        }
        len += 1;
        rest = more;
    }
    len
}

/// The first word of a line, and what follows the space after it.
pub(crate) fn cut_word(text: &[u8]) -> (&[u8], Option<&[u8]>)
    ensures { MatchOption result.1 (words_of text.now ≡ result.0.now ∷ [])
        (λ rest. (words_of text.now ≡ result.0.now ∷ words_of rest.now)
        × (length rest.now < length text.now)) }
{
    let len = word_len(text);
    if len < text.len() {
        (&text[..len], Some(&text[len + 1..]))
    } else {
        (text, None)
    }
}

/// The value of a word.
pub(crate) fn value_of(word: &[u8]) -> Option<Trit>
    ensures { result ≡ value_of word.now }
{
    match word {
        [b'0'] => Some(Trit::Zero),
        [b'1'] => Some(Trit::One),
        [b'X'] => Some(Trit::X),
        _ => None,
    }
}
