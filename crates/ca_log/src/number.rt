//! The numbers of pairs.

ghost use Rattle.std.specs.Prelude.{◌≡◌, ◌<◌, ◌^◌};
ghost use Rattle.ca_log.specs.LogText.{number_below};

use ca_csv::decimal_number;

/// The number below `count` of which a word is the decimal digits, without a leading zero.
#[tactic(auto, using(crate::proofs::NumberLemmas::below_found, crate::proofs::NumberLemmas::past_none, crate::proofs::NumberLemmas::no_number_none))]
pub(crate) fn number_below(count: usize, word: &[u8]) -> Option<u32>
    requires { count < 2 ^ 32 }
    ensures { result ≡ number_below count word.now }
{
    match decimal_number(word) {
        Some(number) => {
            if (number as usize) < count {
                Some(number)
            } else {
                None
            }
        }
        None => None,
    }
}
