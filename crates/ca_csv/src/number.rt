//! Fields that are decimal digits.
ghost use Rattle.std.specs.Prelude.{◌≡◌, ◌↔◌, decimal, IsTrue, MatchOption};
ghost use Rattle.ca_csv.specs.Fields.{IsNumber, IsNoNumber};

use itoa::Buffer;

// Whether the word is how the number is written.
fn is_written(word: &str, number: u32) -> bool
    ensures { IsTrue result ↔ (word.now ≡ decimal number) }
{
    Buffer::new().format(number) == word
}

/// The number of which a field is the decimal digits, without a sign or a leading zero.
#[tactic(auto, using(crate::proofs::FieldLemmas::written_is_read, crate::proofs::FieldLemmas::written_is_text))]
pub fn decimal_number(word: &[u8]) -> Option<u32>
    ensures { MatchOption result (IsNoNumber word.now) (IsNumber word.now) }
{
    let Ok(word) = str::from_utf8(word) else {
        return None;
    };
    match word.parse::<u32>() {
        Ok(number) => {
            if is_written(word, number) {
                Some(number)
            } else {
                None
            }
        }
        Err(_) => None,
    }
}
