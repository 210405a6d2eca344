//! Node numbers.

ghost use Rattle.std.specs.Prelude.{◌≡◌, ◌≤◌, ◌^◌, length};
ghost use Rattle.std.specs.List.{list_all};
ghost use Rattle.ca_lex.specs.Length.{is_digit, number_of};
ghost use Rattle.ca_order.specs.Lines.{is_number, below, node_of};

use crate::event::Place;
use ca_net::NodeId;

fn is_digit(byte: u8) -> bool
    ensures { result ≡ is_digit byte }
{
    48 <= byte && byte <= 57
}

fn are_digits(word: &[u8]) -> bool
    ensures { result ≡ list_all is_digit word.now }
{
    let mut rest = word;
    'bytes: while let [byte, more @ ..] = rest {
        if !is_digit(*byte) {
            return false;
        }
        rest = more;
    }
    true
}

// Whether a word is digits without a leading zero.
fn is_number(word: &[u8]) -> bool
    ensures { result ≡ is_number word.now }
{
    match word {
        [] => false,
        [digit] => is_digit(*digit),
        [digit, _, ..] => *digit != b'0' && are_digits(word),
    }
}

// The node of the number that digits make, if there are more nodes than that. No digit is looked at where the
// digits before it make too much already.
#[tactic(auto, using(crate::proofs::NodeLemmas::grows))]
fn below(word: &[u8], count: usize) -> Option<NodeId>
    requires few { count ≤ 2 ^ 32 }
    ensures { result ≡ below (number_of word.now) count }
{
    let mut value: u128 = 0;
    let mut rest = word;
    'bytes: while let [byte, more @ ..] = rest {
        if count as u128 <= value {
            return None;
        }
        value = value * 10 + (*byte).saturating_sub(b'0') as u128;
        rest = more;
    }
    if value < count as u128 {
        Some(NodeId(value as u32))
    } else {
        None
    }
}

/// The node that a word names, if it names one.
pub(crate) fn node_of(places: &[Place], word: &[u8]) -> Option<NodeId>
    requires few { length places.now ≤ 2 ^ 32 }
    ensures { result ≡ node_of places.now word.now }
{
    if !is_number(word) {
        return None;
    }
    below(word, places.len())
}
