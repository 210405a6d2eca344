//! Strength tables, by which the width and the length of a transistor's channel say how strong it is.

ghost use Rattle.std.specs.Prelude.{◌≡◌, ◌≤◌, ◌^◌};

use ca_lex::Length;
use ca_net::WEAKEST;

/// A ratio of a channel's width to its length.
#[derive(Clone, Copy, Debug, PartialEq, Eq)]
pub struct Ratio {
    pub width: u32,
    pub length: u32,
}

impl Ratio {
    ghost use Rattle.ca_cell.specs.Strength.{reaches, one_if};

    // 1 where a channel of this width and length reaches the ratio, else 0.
    fn count_reached(self, width: Length, length: Length) -> u8
        requires width { width.0 ≤ 10 ^ 24 }
        requires length { length.0 ≤ 10 ^ 24 }
        ensures count { result ≡ one_if (reaches self width.0 length.0) }
        ensures most { result ≤ 1 }
    {
        let needed = length.0 * u128::from(self.width);
        let given = width.0 * u128::from(self.length);
        if needed <= given { 1 } else { 0 }
    }
}

/// Five ratios, which ascend in a table that was read. The more of them a transistor's own ratio reaches, the
/// stronger it is.
#[derive(Clone, Copy, Debug, PartialEq, Eq)]
pub struct StrengthTable {
    pub first: Ratio,
    pub second: Ratio,
    pub third: Ratio,
    pub fourth: Ratio,
    pub fifth: Ratio,
}

impl StrengthTable {
    ghost use Rattle.ca_cell.specs.Strength.{default_table, strength_of};

    /// The table that holds where none is named: 1/2, 1, 2, 4 and 8.
    pub fn default_table() -> Self
        ensures { result ≡ default_table }
    {
        StrengthTable {
            first: Ratio {
                width: 1,
                length: 2,
            },
            second: Ratio {
                width: 1,
                length: 1,
            },
            third: Ratio {
                width: 2,
                length: 1,
            },
            fourth: Ratio {
                width: 4,
                length: 1,
            },
            fifth: Ratio {
                width: 8,
                length: 1,
            },
        }
    }

    /// The strength of a transistor of this width and length, which are no longer than a million metres: no
    /// longer one is ever read.
    pub fn strength(&self, width: Length, length: Length) -> u8
        requires width { width.0 ≤ 10 ^ 24 }
        requires length { length.0 ≤ 10 ^ 24 }
        ensures { result ≡ strength_of self.now width.0 length.0 }
    {
        let low = self.first.count_reached(width, length)
            + self.second.count_reached(width, length);
        let high = self.fourth.count_reached(width, length)
            + self.fifth.count_reached(width, length);
        WEAKEST + (low + self.third.count_reached(width, length) + high)
    }
}
