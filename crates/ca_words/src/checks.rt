//! What single words may be.
ghost use Rattle.std.specs.Prelude.{◌≡◌, ◌↔◌, ℕ, Some, IsTrue};
ghost use Rattle.std.specs.Option.{option_copied};
ghost use Rattle.ca_words.specs.Words.{IsFileName, IsTable, AreCellFiles, IsVector, IsLetter};

/// Whether a word may name a file.
pub(crate) fn is_file_name(word: &str) -> bool
    ensures { IsTrue result ↔ IsFileName word.now }
{
    !word.is_empty() && word != "-"
}

// Whether no file of a strength table is named, or by a file's name.
fn is_table(table: Option<&str>) -> bool
    ensures { IsTrue result ↔ IsTable (option_copied table.entry) }
{
    match table {
        Some(name) => is_file_name(name),
        None => true,
    }
}

/// Whether the file of a strength table is named so.
pub(crate) fn is_called(table: Option<&str>, name: &str) -> bool
    ensures { IsTrue result ↔ (option_copied table.entry ≡ Some name.now) }
{
    match table {
        Some(word) => word == name,
        None => false,
    }
}

/// Whether these may be the files of a command on one cell.
pub(crate) fn are_cell_files(table: Option<&str>, cells: &str) -> bool
    ensures { IsTrue result ↔ AreCellFiles (option_copied table.entry) cells.now }
{
    is_table(table) && is_file_name(cells) && !is_called(table, cells)
}

/// Whether a word may be a vector.
pub(crate) fn is_vector(word: &str) -> bool
    ensures { IsTrue result ↔ IsVector word.now }
{
    word == "-" || !word.is_empty() && word.as_bytes().iter().all(|byte| is_letter(*byte))
}

fn is_letter(byte: u8) -> bool
    ensures { IsTrue result ↔ IsLetter byte }
{
    byte == b'0' || byte == b'1' || byte == b'X'
}
