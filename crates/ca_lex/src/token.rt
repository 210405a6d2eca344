//! The tokens of a gate netlist.

/// What a token is.
#[derive(Clone, Copy, Debug, PartialEq, Eq)]
pub enum TokenKind {
    /// A letter or `_`, and then letters, digits, `_` and `$`.
    Name,
    /// A name after a `\`, which ends at white space.
    Escaped,
    /// Decimal digits.
    Number,
    /// A constant of one bit.
    Constant,
    /// One byte of punctuation.
    Sign,
}

/// A token, whose text is the source's bytes from `start` up to `end`.
#[derive(Clone, Copy, Debug, PartialEq, Eq)]
pub struct Token {
    pub kind: TokenKind,
    pub start: usize,
    pub end: usize,
}
