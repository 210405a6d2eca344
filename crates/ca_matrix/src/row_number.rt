//! Rows by number.

ghost use Rattle.std.specs.Prelude.{◌≡◌, ◌*◌, ◌^◌, ◌<◌, ◌≤◌};
ghost use Rattle.ca_matrix.specs.code.Filled.{row_at};

use ca_cell::{MOST_INPUTS, Row};

/// How many vectors there are of this many inputs.
pub(crate) fn vector_count(inputs: usize) -> usize
    requires { inputs ≤ MOST_INPUTS }
    ensures count { result ≡ 2 ^ inputs }
    ensures few { result ≤ 256 }
{
    2usize.pow(inputs as u32)
}

/// The row of a number, where there are this many vectors.
pub(crate) fn row_at(vectors: usize, number: usize) -> Row
    requires vectors { vectors ≤ 256 }
    requires number { number < vectors * vectors }
    ensures { result ≡ row_at vectors number }
{
    Row {
        first: (number / vectors) as u8,
        last: (number % vectors) as u8,
    }
}
