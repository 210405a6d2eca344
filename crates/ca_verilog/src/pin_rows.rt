//! Rows of the table: operands, and instances with their pins.
ghost use Rattle.std.specs.Prelude.{◌≡◌};
ghost use Rattle.ca_verilog.specs.Table.{operand_row, operand_end_row, name_end_row, index_row};
ghost use Rattle.ca_verilog.specs.Table.{index_end_row, instance_name_row, pins_row, next_pin_row};
ghost use Rattle.ca_verilog.specs.Table.{first_pin_row, pin_name_row, pin_open_row, pin_value_row};
ghost use Rattle.ca_verilog.specs.Table.{pin_end_row, instance_end_row};

use crate::fault::VerilogKind;
use crate::lexeme::Lexeme;
use crate::table::{Action, Place, Row, Side, act, go, stray};

/// An operand; another constant is of the larger language.
pub(crate) fn operand_row(side: Side, lexeme: Lexeme) -> Result<Row, VerilogKind>
    ensures { result ≡ operand_row side lexeme }
{
    match lexeme {
        Lexeme::Name => act(Place::NameEnd(side), Action::Refer),
        Lexeme::Constant(value) => act(Place::OperandEnd(side), Action::TakeConstant(value)),
        Lexeme::Number(_) => Err(VerilogKind::Unsupported),
        Lexeme::Large => Err(VerilogKind::Unsupported),
        _ => stray(lexeme),
    }
}

/// What follows an operand.
pub(crate) fn operand_end_row(side: Side, lexeme: Lexeme) -> Result<Row, VerilogKind>
    ensures { result ≡ operand_end_row side lexeme }
{
    match (side, lexeme) {
        (Side::Left, Lexeme::Equals) => act(Place::Operand(Side::Right), Action::KeepLeft),
        (Side::Right, Lexeme::Semicolon) => act(Place::Item, Action::Join),
        (Side::Pin, Lexeme::Close) => act(Place::PinEnd, Action::Connect),
        _ => stray(lexeme),
    }
}

/// A bit of the name, or what follows an operand.
pub(crate) fn name_end_row(side: Side, lexeme: Lexeme) -> Result<Row, VerilogKind>
    ensures { result ≡ name_end_row side lexeme }
{
    match lexeme {
        Lexeme::OpenBracket => act(Place::Index(side), Action::OpenIndex),
        _ => operand_end_row(side, lexeme),
    }
}

/// The number of a bit.
pub(crate) fn index_row(side: Side, lexeme: Lexeme) -> Result<Row, VerilogKind>
    ensures { result ≡ index_row side lexeme }
{
    match lexeme {
        Lexeme::Number(index) => act(Place::IndexEnd(side), Action::Select(index)),
        _ => stray(lexeme),
    }
}

/// The `]` after it; a part select is of the larger language.
pub(crate) fn index_end_row(side: Side, lexeme: Lexeme) -> Result<Row, VerilogKind>
    ensures { result ≡ index_end_row side lexeme }
{
    match lexeme {
        Lexeme::CloseBracket => go(Place::OperandEnd(side)),
        Lexeme::Colon => Err(VerilogKind::Unsupported),
        _ => stray(lexeme),
    }
}

/// The name of an instance.
pub(crate) fn instance_name_row(lexeme: Lexeme) -> Result<Row, VerilogKind>
    ensures { result ≡ instance_name_row lexeme }
{
    match lexeme {
        Lexeme::Name => act(Place::Pins, Action::TakeInstance),
        _ => stray(lexeme),
    }
}

/// The `(` before the pins.
pub(crate) fn pins_row(lexeme: Lexeme) -> Result<Row, VerilogKind>
    ensures { result ≡ pins_row lexeme }
{
    match lexeme {
        Lexeme::Open => go(Place::FirstPin),
        _ => stray(lexeme),
    }
}

/// A pin; one without its name is of the larger language.
pub(crate) fn next_pin_row(lexeme: Lexeme) -> Result<Row, VerilogKind>
    ensures { result ≡ next_pin_row lexeme }
{
    match lexeme {
        Lexeme::Dot => go(Place::PinName),
        Lexeme::Name => Err(VerilogKind::Unsupported),
        Lexeme::Number(_) => Err(VerilogKind::Unsupported),
        Lexeme::Large => Err(VerilogKind::Unsupported),
        Lexeme::Constant(_) => Err(VerilogKind::Unsupported),
        _ => stray(lexeme),
    }
}

/// The first pin, or the end of the pins.
pub(crate) fn first_pin_row(lexeme: Lexeme) -> Result<Row, VerilogKind>
    ensures { result ≡ first_pin_row lexeme }
{
    match lexeme {
        Lexeme::Close => go(Place::InstanceEnd),
        _ => next_pin_row(lexeme),
    }
}

/// The name of a pin.
pub(crate) fn pin_name_row(lexeme: Lexeme) -> Result<Row, VerilogKind>
    ensures { result ≡ pin_name_row lexeme }
{
    match lexeme {
        Lexeme::Name => act(Place::PinOpen, Action::TakePin),
        _ => stray(lexeme),
    }
}

/// The `(` after it.
pub(crate) fn pin_open_row(lexeme: Lexeme) -> Result<Row, VerilogKind>
    ensures { result ≡ pin_open_row lexeme }
{
    match lexeme {
        Lexeme::Open => go(Place::PinValue),
        _ => stray(lexeme),
    }
}

/// What is on the pin, or nothing.
pub(crate) fn pin_value_row(lexeme: Lexeme) -> Result<Row, VerilogKind>
    ensures { result ≡ pin_value_row lexeme }
{
    match lexeme {
        Lexeme::Close => act(Place::PinEnd, Action::LeaveOpen),
        _ => operand_row(Side::Pin, lexeme),
    }
}

/// A further pin, or the end of the pins.
pub(crate) fn pin_end_row(lexeme: Lexeme) -> Result<Row, VerilogKind>
    ensures { result ≡ pin_end_row lexeme }
{
    match lexeme {
        Lexeme::Comma => go(Place::NextPin),
        Lexeme::Close => go(Place::InstanceEnd),
        _ => stray(lexeme),
    }
}

/// The `;` after the pins.
pub(crate) fn instance_end_row(lexeme: Lexeme) -> Result<Row, VerilogKind>
    ensures { result ≡ instance_end_row lexeme }
{
    match lexeme {
        Lexeme::Semicolon => act(Place::Item, Action::EndInstance),
        _ => stray(lexeme),
    }
}
