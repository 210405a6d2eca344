//! The lines that report names, and what a matrix holds.
ghost use Rattle.std.specs.Prelude.{◌≡◌, ◌++◌, decimal, flat_map, IfOk, OnOk};
ghost use Rattle.ca_on_cell.specs.Lines.{line_of_name, IsSummary};

use ca_base::NoMemory;
use ca_lex::{Names, Text};
use ca_matrix::Matrix;
use itoa::Buffer;
use std::alloc::Global;

/// One line for each name.
pub fn lines_of_names(alloc: Global, names: &Names) -> Result<Text, NoMemory>
    ensures { IfOk result (λ text. text ≡ flat_map line_of_name names.now) }
{
    let mut text = Text::new(alloc);
    let names = names.as_slice();
    for name in names {
        add_line(&mut text, name)?;
    }
    Ok(text)
}

// Appends the line of a name.
fn add_line(text: &mut Text, name: &Text) -> Result<(), NoMemory>
    ensures { OnOk result (text.new ≡ text.old ++ line_of_name name.now) }
{
    text.append(name.as_bytes())?;
    text.append(b"\n")
}

/// The line that reports what a matrix holds.
pub fn summary(alloc: Global, matrix: &Matrix) -> Result<Text, NoMemory>
    ensures { IfOk result (IsSummary matrix.now) }
{
    let mut text = Text::new(alloc);
    text.append(b"defects ")?;
    add_number(&mut text, matrix.defect_count())?;
    text.append(b", exposable ")?;
    add_number(&mut text, matrix.exposable_count())?;
    text.append(b", rows ")?;
    add_number(&mut text, matrix.record_count())?;
    text.append(b"\n")?;
    Ok(text)
}

// Appends a number's digits.
fn add_number(text: &mut Text, number: usize) -> Result<(), NoMemory>
    ensures { OnOk result (text.new ≡ text.old ++ decimal number) }
{
    text.append(Buffer::new().format(number).as_bytes())
}
