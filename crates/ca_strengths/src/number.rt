//! The numbers of ratios.

ghost use Rattle.std.specs.Prelude.{◌≡◌};
ghost use Rattle.ca_strengths.specs.StrengthText.{number_up_to};

use ca_csv::decimal_number;

/// The greatest width and length of a ratio.
pub const MOST_NUMBER: u32 = 1_000_000;

/// The number from 1 to `most` of which a word is the decimal digits, without a sign or a leading zero.
#[tactic(auto, using(crate::proofs::NumberLemmas::up_to_found, crate::proofs::NumberLemmas::past_none, crate::proofs::NumberLemmas::zero_none, crate::proofs::NumberLemmas::no_number_none))]
pub(crate) fn number_up_to(most: u32, word: &[u8]) -> Option<u32>
    ensures { result ≡ number_up_to most word.now }
{
    match decimal_number(word) {
        Some(number) => {
            if 1 <= number && number <= most {
                Some(number)
            } else {
                None
            }
        }
        None => None,
    }
}
