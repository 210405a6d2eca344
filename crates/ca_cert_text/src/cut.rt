//! A text cut before a byte.

ghost use Rattle.std.specs.Prelude.{ℕ, List, ◌≡◌, ◌++◌, ◌≤◌, length};
ghost use Rattle.ca_cert_text.specs.code.Cut.{len_before, BeginsWith, IsOnlyCut};

// The number of bytes before the first that is this one, or of all bytes.
#[tactic(auto, unfolding(crate::specs::code::Cut::len_before))]
fn len_before(text: &[u8], byte: u8) -> usize
    ensures len { result ≡ len_before byte text.now }
    ensures within { result ≤ length text.now }
{
    let mut len = 0;
    let mut rest = text;
    'bytes: while let [first, more @ ..] = rest {
        if *first == byte {
            return len;
        }
        len += 1;
        rest = more;
    }
    len
}

/// The bytes before the first that is this one, and the text from there on; else all bytes, and nothing.
pub(crate) fn cut(text: &[u8], byte: u8) -> (&[u8], &[u8])
    ensures parts { text.now ≡ result.0.now ++ result.1.now }
    ensures begins { BeginsWith byte result.1.now }
    ensures only { IsOnlyCut byte text.now result.0.now result.1.now }
{
    text.split_at(len_before(text, byte))
}
