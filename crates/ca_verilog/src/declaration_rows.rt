//! Rows of the table: declarations with their ranges.
ghost use Rattle.std.specs.Prelude.{◌≡◌};
ghost use Rattle.ca_verilog.specs.Table.{declaration_row, range_left_row, range_colon_row, range_right_row};
ghost use Rattle.ca_verilog.specs.Table.{range_end_row, declared_row, declared_end_row};

use crate::fault::VerilogKind;
use crate::lexeme::Lexeme;
use crate::table::{Action, Direction, Place, Range, Row, act, go, stray};

/// A range, or the first name.
pub(crate) fn declaration_row(direction: Direction, lexeme: Lexeme) -> Result<Row, VerilogKind>
    ensures { result ≡ declaration_row direction lexeme }
{
    match lexeme {
        Lexeme::OpenBracket => go(Place::RangeLeft(direction)),
        Lexeme::Name => act(
            Place::DeclaredEnd(direction, None),
            Action::Declare(direction, None),
        ),
        _ => stray(lexeme),
    }
}

/// The left number of a range.
pub(crate) fn range_left_row(direction: Direction, lexeme: Lexeme) -> Result<Row, VerilogKind>
    ensures { result ≡ range_left_row direction lexeme }
{
    match lexeme {
        Lexeme::Number(left) => go(Place::RangeColon(direction, left)),
        _ => stray(lexeme),
    }
}

/// The `:` of a range.
pub(crate) fn range_colon_row(
    direction: Direction,
    left: u32,
    lexeme: Lexeme,
) -> Result<Row, VerilogKind>
    ensures { result ≡ range_colon_row direction left lexeme }
{
    match lexeme {
        Lexeme::Colon => go(Place::RangeRight(direction, left)),
        _ => stray(lexeme),
    }
}

/// The right number of a range.
pub(crate) fn range_right_row(
    direction: Direction,
    left: u32,
    lexeme: Lexeme,
) -> Result<Row, VerilogKind>
    ensures { result ≡ range_right_row direction left lexeme }
{
    match lexeme {
        Lexeme::Number(right) => go(Place::RangeEnd(direction, Range { left, right })),
        _ => stray(lexeme),
    }
}

/// The `]` of a range.
pub(crate) fn range_end_row(
    direction: Direction,
    range: Range,
    lexeme: Lexeme,
) -> Result<Row, VerilogKind>
    ensures { result ≡ range_end_row direction range lexeme }
{
    match lexeme {
        Lexeme::CloseBracket => go(Place::Declared(direction, Some(range))),
        _ => stray(lexeme),
    }
}

/// A name after a range or a `,`.
pub(crate) fn declared_row(
    direction: Direction,
    range: Option<Range>,
    lexeme: Lexeme,
) -> Result<Row, VerilogKind>
    ensures { result ≡ declared_row direction range lexeme }
{
    match lexeme {
        Lexeme::Name => act(
            Place::DeclaredEnd(direction, range),
            Action::Declare(direction, range),
        ),
        _ => stray(lexeme),
    }
}

/// A further name, or the declaration's end.
pub(crate) fn declared_end_row(
    direction: Direction,
    range: Option<Range>,
    lexeme: Lexeme,
) -> Result<Row, VerilogKind>
    ensures { result ≡ declared_end_row direction range lexeme }
{
    match lexeme {
        Lexeme::Comma => go(Place::Declared(direction, range)),
        Lexeme::Semicolon => go(Place::Item),
        _ => stray(lexeme),
    }
}
