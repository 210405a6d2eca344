//! Lengths as words spell them.
ghost use Rattle.std.specs.Prelude.{◌≡◌, ◌<◌, ◌≤◌, ◌+◌, ◌*◌, ◌^◌, ◌/◌, ◌++◌, ℕ, length, fold, take, drop};
ghost use Rattle.std.specs.Prelude.{option_map, Some, None, IfSome, IfNone};
ghost use Rattle.ca_lex.specs.code.LengthViews.{IsMantissa, AllDigits, shift_of, IsSmallShift};
ghost use Rattle.ca_lex.specs.Length.{is_digit, digits_len, with_digit, number_of, fraction_at, places_at};
ghost use Rattle.ca_lex.specs.Length.{signed_at, exponent_at, suffix_of, places_of, is_e, is_m, scaled};
ghost use Rattle.ca_lex.specs.Length.{in_range, mantissa_of, length_of};

/// A length in units of 10^-18 metre.
#[derive(Clone, Copy, Debug, PartialEq, Eq, PartialOrd, Ord)]
pub struct Length(pub u128);

/// The digits before the exponent, before and after the point, and the rest of the word.
#[derive(Clone, Copy)]
struct Mantissa<'a> {
    whole: &'a [u8],
    fraction: &'a [u8],
    rest: &'a [u8],
}

/// By how many places an exponent moves the point, and the rest of the word.
#[derive(Clone, Copy)]
struct Shift<'a> {
    right: u32,
    left: u32,
    rest: &'a [u8],
}

/// The greatest length.
const MOST: u128 = 1_000_000_000_000_000_000_000_000;

fn is_digit(byte: u8) -> bool
    ensures { result ≡ is_digit byte }
{
    b'0' <= byte && byte <= b'9'
}

fn digits_len(text: &[u8]) -> usize
    ensures len { result ≡ digits_len text.now }
    ensures within { result ≤ length text.now }
{
    let mut len = 0;
    let mut rest = text;
    'digits: while let [byte, more @ ..] = rest {
        if !is_digit(*byte) {
            return len;
        }
        len += 1;
        rest = more;
    }
    len
}

fn is_e(byte: u8) -> bool
    ensures { result ≡ is_e byte }
{
    byte == b'E' || byte == b'e'
}

fn is_m(byte: u8) -> bool
    ensures { result ≡ is_m byte }
{
    byte == b'M' || byte == b'm'
}

/// By how many places a letter of a suffix moves the point to the left.
fn places_of(letter: u8) -> Option<u32>
    ensures value { result ≡ places_of letter }
    ensures below { IfSome result (λ places. places < 16) }
{
    match letter {
        b'F' | b'f' => Some(15),
        b'P' | b'p' => Some(12),
        b'N' | b'n' => Some(9),
        b'U' | b'u' => Some(6),
        b'M' | b'm' => Some(3),
        _ => None,
    }
}

#[tactic(auto, unfolding(crate::specs::Length::suffix_of))]
fn suffix_of(text: &[u8]) -> Option<u32>
    ensures value { result ≡ suffix_of text.now }
    ensures below { IfSome result (λ places. places < 16) }
{
    match text {
        [] => Some(0),
        [letter] => places_of(*letter),
        [letter, second] => {
            if is_m(*second) {
                places_of(*letter)
            } else {
                None
            }
        }
        [_, _, _, ..] => None,
    }
}

/// The number of these digits after another.
fn with_digits(number: u128, digits: &[u8]) -> u128
    requires digits { AllDigits digits.now }
    requires room { (number + 1) * 10 ^ length digits.now ≤ 10 ^ 32 }
    ensures value { result ≡ fold with_digit number digits.now }
    ensures below { result < (number + 1) * 10 ^ length digits.now }
{
    let mut value = number;
    for digit in digits {
        value = value * 10 + (*digit - b'0') as u128;
    }
    value
}

/// The digits that the text begins with, and the rest.
fn split_digits(text: &[u8]) -> (&[u8], &[u8])
    ensures front { result.0.now ≡ take (digits_len text.now) text.now }
    ensures back { result.1.now ≡ drop (digits_len text.now) text.now }
    ensures len { length result.0.now ≡ digits_len text.now }
    ensures digits { AllDigits result.0.now }
{
    text.split_at(digits_len(text))
}

#[tactic(auto, unfolding(crate::specs::Length::fraction_at))]
fn mantissa_of(word: &[u8]) -> Mantissa<'_>
    ensures { IsMantissa result (mantissa_of word.now) }
{
    let (whole, rest) = split_digits(word);
    match rest {
        [b'.', more @ ..] => {
            let (fraction, rest) = split_digits(more);
            Mantissa {
                whole,
                fraction,
                rest,
            }
        }
        _ => Mantissa {
            whole,
            fraction: &[],
            rest,
        },
    }
}

#[tactic(auto, unfolding(crate::specs::Length::places_at))]
fn places_at(text: &[u8]) -> Option<(u32, &[u8])>
    ensures value { option_map (λ places. (places.0, places.1.now)) result ≡ places_at text.now }
    ensures below { IfSome result (λ places. places.0 < 100) }
{
    let (digits, rest) = split_digits(text);
    if digits.len() != 1 && digits.len() != 2 {
        return None;
    }
    Some((with_digits(0, digits) as u32, rest))
}

#[tactic(auto, unfolding(crate::specs::Length::signed_at))]
fn signed_at(text: &[u8]) -> Option<Shift<'_>>
    ensures value { option_map shift_of result ≡ signed_at text.now }
    ensures below { IfSome result IsSmallShift }
{
    match text {
        [] => None,
        [b'-', more @ ..] => {
            let (left, rest) = places_at(more)?;
            Some(Shift {
                right: 0,
                left,
                rest,
            })
        }
        [b'+', more @ ..] => {
            let (right, rest) = places_at(more)?;
            Some(Shift {
                right,
                left: 0,
                rest,
            })
        }
        _ => {
            let (right, rest) = places_at(text)?;
            Some(Shift {
                right,
                left: 0,
                rest,
            })
        }
    }
}

#[tactic(auto, unfolding(crate::specs::Length::exponent_at))]
fn exponent_at(text: &[u8]) -> Option<Shift<'_>>
    ensures value { option_map shift_of result ≡ exponent_at text.now }
    ensures below { IfSome result IsSmallShift }
{
    match text {
        [letter, more @ ..] if is_e(*letter) => signed_at(more),
        _ => Some(Shift {
            right: 0,
            left: 0,
            rest: text,
        }),
    }
}

/// The number as a length, if it is from 1 to 10^24.
#[tactic(auto, unfolding(crate::specs::Length::in_range))]
fn in_range(number: u128) -> Option<Length>
    ensures { option_map (λ found. found.0) result ≡ in_range number }
{
    if 1 <= number && number <= MOST {
        Some(Length(number))
    } else {
        None
    }
}

fn product(left: u128, right: u128) -> Option<u128>
    ensures value { IfSome result (λ product. product ≡ left * right) }
    ensures none { IfNone result (2 ^ 128 ≤ left * right) }
{
    left.checked_mul(right)
}

/// The number with its point moved to the right by `places` places.
fn moved_right(number: u128, places: u32) -> Option<Length>
    ensures { option_map (λ found. found.0) result ≡ in_range (number * 10 ^ places) }
{
    if number == 0 {
        return None;
    }
    if 24 < places {
        return None;
    }
    match product(number, 10u128.pow(places)) {
        Some(moved) => in_range(moved),
        None => None,
    }
}

/// The number with its point moved to the left by this many places, without what then follows it.
fn moved_left(number: u128, places: u32) -> Option<Length>
    requires { number < 10 ^ 32 }
    ensures { option_map (λ found. found.0) result ≡ in_range (number / 10 ^ places) }
{
    if 32 <= places {
        return None;
    }
    in_range(number / 10u128.pow(places))
}

/// The number with its point moved to the right and to the left, without what then follows it.
fn scaled(number: u128, right: u32, left: u32) -> Option<Length>
    requires { number < 10 ^ 32 }
    ensures { option_map (λ found. found.0) result ≡ in_range (scaled number right left) }
{
    if left <= right {
        moved_right(number, right - left)
    } else {
        moved_left(number, left - right)
    }
}

impl Mantissa<'_> {
    /// The number that the digits spell, without the point.
    fn number(&self) -> u128
        requires whole { AllDigits self.now.whole.now }
        requires fraction { AllDigits self.now.fraction.now }
        requires short { length self.now.whole.now + length self.now.fraction.now ≤ 32 }
        ensures value { result ≡ number_of (self.now.whole.now ++ self.now.fraction.now) }
        ensures below { result < 10 ^ 32 }
    {
        with_digits(with_digits(0, self.whole), self.fraction)
    }
}

/// The length that the word spells, if it spells one. Digits after the eighteenth place of a metre are
/// dropped.
#[tactic(auto, unfolding(crate::specs::Length::length_of))]
pub fn read_length(word: &[u8]) -> Option<Length>
    ensures { option_map (λ found. found.0) result ≡ length_of word.now }
{
    let mantissa = mantissa_of(word);
    let digits = mantissa.whole.len() + mantissa.fraction.len();
    if digits < 1 || 32 < digits {
        return None;
    }
    let exponent = exponent_at(mantissa.rest)?;
    let suffix = suffix_of(exponent.rest)?;
    let left = mantissa.fraction.len() as u32 + exponent.left + suffix;
    scaled(mantissa.number(), 18 + exponent.right, left)
}
