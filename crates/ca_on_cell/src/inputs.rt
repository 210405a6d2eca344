//! The words and the cell of a command on one cell.
ghost use Rattle.std.specs.Prelude.{◌≡◌, Some, IfErr, IfOk};
ghost use Rattle.ca_lex.specs.Words.{upper_case};
ghost use Rattle.ca_cell.specs.Library.{entry_of};
ghost use Rattle.ca_cell.specs.Rules.{KeepsRules};
ghost use Rattle.ca_cell.specs.declared.library.Entry.TheVariants as entry;
ghost use Rattle.ca_load.specs.Texts.{cells_of};
ghost use Rattle.ca_on_cell.specs.Stages.{AreTyped, IsEntryCause};

use ca_base::NoMemory;
use ca_cell::{Cell, Entry, Library};
use ca_fault::Fault;
use ca_fault_place::rule_place;
use ca_lex::{Text, fold};
use ca_load::{TypedCells, typed_cells};
use ca_words::CellWords;
use std::alloc::Global;

/// What a fault says of the files and the cell of a command. It is in memory of its own before the first file
/// is opened, so that no fault of a file or of the cell's name is reported as out of memory.
#[derive(Drop)]
pub struct TypedWords {
    pub cells: TypedCells,
    pub cell: Text,
    pub upper_cell: Text,
}

/// The words that faults of the files and the cell's name are reported with.
pub fn typed_words(alloc: Global, words: &CellWords<'_>) -> Result<TypedWords, NoMemory>
    ensures { IfOk result (AreTyped (cells_of words.now.files) words.now.cell.now) }
{
    Ok(TypedWords {
        cells: typed_cells(alloc, &words.files)?,
        cell: Text::from_bytes(alloc, words.cell.as_bytes())?,
        upper_cell: fold(alloc, words.cell.as_bytes())?,
    })
}

/// The cell of a name, which may be in any case. Only the place of a rule takes memory: the word is in memory
/// of its own, as it was typed and in upper case.
pub fn find_cell<'a>(
    alloc: Global,
    library: &'a Library,
    word: &str,
    typed: Text,
    upper: Text,
) -> Result<&'a Cell, Fault>
    requires typed { typed ≡ word.now }
    requires upper { upper ≡ upper_case word.now }

    ensures found { IfOk result (λ cell.
        entry_of library.now (upper_case word.now) ≡ Some (entry.Sound cell.now)) }
    ensures kept { IfOk result (λ cell. KeepsRules cell.now) }
    ensures cause { IfErr result (IsEntryCause word.now library.now) }
{
    match library.get(word.as_bytes()) {
        Some(Entry::Sound(cell)) => Ok(cell),
        Some(Entry::Refused(raw, rule)) => Err(Fault::Cell {
            cell: upper,
            rule: *rule,
            place: rule_place(alloc, raw, *rule)?,
        }),
        None => Err(Fault::NoCell { word: typed }),
    }
}
