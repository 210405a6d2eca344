//! A token in two bytes.

ghost use Rattle.std.specs.Prelude.{◌≡◌, ◌<◌};
ghost use Rattle.ca_code.specs.declared.token.TheConstants.{MOST_PATTERN_BITS};
ghost use Rattle.ca_code.specs.Tokens.{token_of, IsNarrow};

use ca_flat::Token;

/// Up to this many pattern bits, tokens have two bytes.
pub const MOST_PATTERN_BITS: usize = 32_767;

/// The number of a token: 0 for a leaf.
pub fn packed(token: Token) -> u16
    requires { IsNarrow token }
    ensures { token_of result ≡ token }
{
    match token {
        Token::Leaf => 0,
        Token::Branch { bit, first: false } => 2 * bit + 1,
        Token::Branch { bit, first: true } => 2 * bit + 2,
    }
}

/// The token that has this number.
pub fn unpacked(number: u16) -> Token
    ensures { result ≡ token_of number }
{
    if number == 0 {
        return Token::Leaf;
    }
    Token::Branch {
        bit: (number - 1) / 2,
        first: (number - 1) % 2 == 1,
    }
}
