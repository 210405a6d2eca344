//! The table of the grammar: which tokens may follow at each place, where each leads, and what it does.
ghost use Rattle.std.specs.Prelude.{◌≡◌};
ghost use Rattle.ca_verilog.specs.Table.{act, go, stray, start_row, module_name_row, header_row, port_row};
ghost use Rattle.ca_verilog.specs.Table.{first_port_row, port_end_row, header_end_row, item_row, end_row};
ghost use Rattle.ca_verilog.specs.Table.{row_of};

use crate::declaration_rows::{
    declaration_row, declared_end_row, declared_row, range_colon_row, range_end_row,
    range_left_row, range_right_row,
};
use crate::fault::VerilogKind;
use crate::lexeme::Lexeme;
use crate::pin_rows::{
    first_pin_row, index_end_row, index_row, instance_end_row, instance_name_row, name_end_row,
    next_pin_row, operand_end_row, operand_row, pin_end_row, pin_name_row, pin_open_row,
    pin_value_row, pins_row,
};

/// What a name is declared as.
#[derive(Clone, Copy, Debug, PartialEq, Eq)]
pub enum Direction {
    Input,
    Output,
    /// A wire that is no port.
    Inner,
}

/// The bits of a vector, from its left index to its right one.
#[derive(Clone, Copy, Debug, PartialEq, Eq)]
pub struct Range {
    pub left: u32,
    pub right: u32,
}

impl Range {
    ghost use Rattle.std.specs.Prelude.{Some, ◌≤◌, ◌^◌};
    ghost use Rattle.ca_verilog.specs.Reading.{has_index, width_in};

    /// Whether the index is one of the range's.
    pub(crate) fn has(self, index: u32) -> bool
        ensures { result ≡ has_index index self }
    {
        (self.left <= index && index <= self.right) || (self.right <= index && index <= self.left)
    }

    /// The number of bits.
    pub(crate) fn width(self) -> u64
        ensures width { result ≡ width_in (Some self) }
        ensures below { result ≤ 2 ^ 32 }
    {
        self.left.abs_diff(self.right) as u64 + 1
    }
}

/// Where an operand is: on the left or the right side of an `assign`, or on a pin.
#[derive(Clone, Copy, Debug, PartialEq, Eq)]
pub enum Side {
    Left,
    Right,
    Pin,
}

/// Where the reading is in the grammar, by what is due there.
#[derive(Clone, Copy, Debug, PartialEq, Eq)]
pub enum Place {
    /// `module`.
    Start,
    /// The module's name.
    ModuleName,
    /// `(` or `;`.
    Header,
    /// The header's first name, or `)`.
    FirstPort,
    /// A further name of the header.
    Port,
    /// `,` or `)`.
    PortEnd,
    /// `;` after the header.
    HeaderEnd,
    /// An item or `endmodule`.
    Item,
    /// Nothing more.
    End,
    /// `[` or the first name of a declaration.
    Declaration(Direction),
    /// The left number of a range.
    RangeLeft(Direction),
    /// `:`.
    RangeColon(Direction, u32),
    /// The right number.
    RangeRight(Direction, u32),
    /// `]`.
    RangeEnd(Direction, Range),
    /// A name of a declaration.
    Declared(Direction, Option<Range>),
    /// `,` or `;`.
    DeclaredEnd(Direction, Option<Range>),
    /// An operand of an `assign`.
    Operand(Side),
    /// `[`, or what follows an operand.
    NameEnd(Side),
    /// The number of a bit.
    Index(Side),
    /// `]`.
    IndexEnd(Side),
    /// What follows an operand.
    OperandEnd(Side),
    /// The name of an instance.
    InstanceName,
    /// `(` before the pins.
    Pins,
    /// `.` of the first pin, or `)`.
    FirstPin,
    /// `.` of a further pin.
    NextPin,
    /// The name of a pin.
    PinName,
    /// `(` after it.
    PinOpen,
    /// What is on the pin, or `)`.
    PinValue,
    /// `,` or `)`.
    PinEnd,
    /// `;` after the pins.
    InstanceEnd,
}

/// What a token does beside leading to another place.
#[derive(Clone, Copy, Debug, PartialEq, Eq)]
pub enum Action {
    Nothing,
    /// The name is one of the header's.
    AddPort,
    /// The name is declared.
    Declare(Direction, Option<Range>),
    /// The module ends.
    Close,
    /// The name is the cell of an instance.
    TakeCell,
    /// The name is the instance's.
    TakeInstance,
    /// The name is a pin's.
    TakePin,
    /// The name is an operand.
    Refer,
    /// A bit of the operand follows.
    OpenIndex,
    /// The operand is this bit of it.
    Select(u32),
    /// The operand is a constant.
    TakeConstant(bool),
    /// The pin is left open.
    LeaveOpen,
    /// The operand is on the pin.
    Connect,
    /// The operand is the left side.
    KeepLeft,
    /// The operand is the right side, which is joined to the left one.
    Join,
    /// The instance ends.
    EndInstance,
}

/// A row of the table: where a token leads, and what it does.
#[derive(Clone, Copy, Debug, PartialEq, Eq)]
pub struct Row {
    pub place: Place,
    pub action: Action,
}

// The token leads there, and does nothing else.
pub(crate) fn go(place: Place) -> Result<Row, VerilogKind>
    ensures { result ≡ go place }
{
    act(place, Action::Nothing)
}

// The token leads there and does this.
pub(crate) fn act(place: Place, action: Action) -> Result<Row, VerilogKind>
    ensures { result ≡ act place action }
{
    Ok(Row { place, action })
}

// No row has the token.
pub(crate) fn stray(lexeme: Lexeme) -> Result<Row, VerilogKind>
    ensures { result ≡ stray lexeme }
{
    match lexeme {
        Lexeme::Refused => Err(VerilogKind::Unsupported),
        _ => Err(VerilogKind::Syntax),
    }
}

// The text begins with `module`.
fn start_row(lexeme: Lexeme) -> Result<Row, VerilogKind>
    ensures { result ≡ start_row lexeme }
{
    match lexeme {
        Lexeme::Module => go(Place::ModuleName),
        _ => stray(lexeme),
    }
}

// The module's name.
fn module_name_row(lexeme: Lexeme) -> Result<Row, VerilogKind>
    ensures { result ≡ module_name_row lexeme }
{
    match lexeme {
        Lexeme::Name => go(Place::Header),
        _ => stray(lexeme),
    }
}

// The header, or none.
fn header_row(lexeme: Lexeme) -> Result<Row, VerilogKind>
    ensures { result ≡ header_row lexeme }
{
    match lexeme {
        Lexeme::Open => go(Place::FirstPort),
        Lexeme::Semicolon => go(Place::Item),
        _ => stray(lexeme),
    }
}

// A name of the header; a direction there is of the larger language.
fn port_row(lexeme: Lexeme) -> Result<Row, VerilogKind>
    ensures { result ≡ port_row lexeme }
{
    match lexeme {
        Lexeme::Name => act(Place::PortEnd, Action::AddPort),
        Lexeme::Input => Err(VerilogKind::Unsupported),
        Lexeme::Output => Err(VerilogKind::Unsupported),
        _ => stray(lexeme),
    }
}

// The header's first name, or its end.
fn first_port_row(lexeme: Lexeme) -> Result<Row, VerilogKind>
    ensures { result ≡ first_port_row lexeme }
{
    match lexeme {
        Lexeme::Close => go(Place::HeaderEnd),
        _ => port_row(lexeme),
    }
}

// A further name of the header, or its end.
fn port_end_row(lexeme: Lexeme) -> Result<Row, VerilogKind>
    ensures { result ≡ port_end_row lexeme }
{
    match lexeme {
        Lexeme::Comma => go(Place::Port),
        Lexeme::Close => go(Place::HeaderEnd),
        _ => stray(lexeme),
    }
}

// The `;` after the header.
fn header_end_row(lexeme: Lexeme) -> Result<Row, VerilogKind>
    ensures { result ≡ header_end_row lexeme }
{
    match lexeme {
        Lexeme::Semicolon => go(Place::Item),
        _ => stray(lexeme),
    }
}

// An item, or the module's end; a module in a module is of the larger language.
fn item_row(lexeme: Lexeme) -> Result<Row, VerilogKind>
    ensures { result ≡ item_row lexeme }
{
    match lexeme {
        Lexeme::Input => go(Place::Declaration(Direction::Input)),
        Lexeme::Output => go(Place::Declaration(Direction::Output)),
        Lexeme::Wire => go(Place::Declaration(Direction::Inner)),
        Lexeme::Assign => go(Place::Operand(Side::Left)),
        Lexeme::Name => act(Place::InstanceName, Action::TakeCell),
        Lexeme::Endmodule => act(Place::End, Action::Close),
        Lexeme::Module => Err(VerilogKind::Unsupported),
        _ => stray(lexeme),
    }
}

// Nothing but the text's end; a second module is of the larger language.
fn end_row(lexeme: Lexeme) -> Result<Row, VerilogKind>
    ensures { result ≡ end_row lexeme }
{
    match lexeme {
        Lexeme::Module => Err(VerilogKind::Unsupported),
        _ => stray(lexeme),
    }
}

/// The row of a token at a place.
#[tactic(auto, unfolding(crate::specs::Table::row_of))]
pub(crate) fn row_of(place: Place, lexeme: Lexeme) -> Result<Row, VerilogKind>
    ensures { result ≡ row_of place lexeme }
{
    match place {
        Place::Start => start_row(lexeme),
        Place::ModuleName => module_name_row(lexeme),
        Place::Header => header_row(lexeme),
        Place::FirstPort => first_port_row(lexeme),
        Place::Port => port_row(lexeme),
        Place::PortEnd => port_end_row(lexeme),
        Place::HeaderEnd => header_end_row(lexeme),
        Place::Item => item_row(lexeme),
        Place::End => end_row(lexeme),
        Place::Declaration(direction) => declaration_row(direction, lexeme),
        Place::RangeLeft(direction) => range_left_row(direction, lexeme),
        Place::RangeColon(direction, left) => range_colon_row(direction, left, lexeme),
        Place::RangeRight(direction, left) => range_right_row(direction, left, lexeme),
        Place::RangeEnd(direction, range) => range_end_row(direction, range, lexeme),
        Place::Declared(direction, range) => declared_row(direction, range, lexeme),
        Place::DeclaredEnd(direction, range) => declared_end_row(direction, range, lexeme),
        Place::Operand(side) => operand_row(side, lexeme),
        Place::NameEnd(side) => name_end_row(side, lexeme),
        Place::Index(side) => index_row(side, lexeme),
        Place::IndexEnd(side) => index_end_row(side, lexeme),
        Place::OperandEnd(side) => operand_end_row(side, lexeme),
        Place::InstanceName => instance_name_row(lexeme),
        Place::Pins => pins_row(lexeme),
        Place::FirstPin => first_pin_row(lexeme),
        Place::NextPin => next_pin_row(lexeme),
        Place::PinName => pin_name_row(lexeme),
        Place::PinOpen => pin_open_row(lexeme),
        Place::PinValue => pin_value_row(lexeme),
        Place::PinEnd => pin_end_row(lexeme),
        Place::InstanceEnd => instance_end_row(lexeme),
    }
}
