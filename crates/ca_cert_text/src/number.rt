//! Numbers in decimal digits.

ghost use Rattle.std.specs.Prelude.{◌≡◌, ◌<◌, ◌^◌, ◌↔◌, decimal, IsTrue, MatchOption};
ghost use Rattle.ca_cert_text.specs.code.Reading.{IsNumber, IsNoNumber};

use itoa::Buffer;

/// The most branches that a search may be given.
pub const MOST_BUDGET: u32 = 65_536;

/// The greatest bit that a token may name.
pub const GREATEST_BIT: u32 = 8_191;

// Whether the word is how the number is written.
fn is_written(word: &str, number: u32) -> bool
    ensures { IsTrue result ↔ (word.now ≡ decimal number) }
{
    Buffer::new().format(number) == word
}

/// The number of which a word is the decimal digits, without a leading zero.
#[tactic(auto, using(crate::proofs::NumberLemmas::written_is_read))]
pub(crate) fn number_of(word: &[u8]) -> Option<u32>
    ensures { MatchOption result (IsNoNumber word.now) (IsNumber word.now) }
{
    let Ok(word) = str::from_utf8(word) else {
        return None;
    };
    match word.parse::<u32>() {
        Ok(number) => {
            if is_written(word, number) {
                Some(number)
            } else {
                None
            }
        }
        Err(_) => None,
    }
}
