//! What the definitions imply.
ghost use Rattle.std.specs.Prelude.{◌≡◌, ℕ, List, map, Some, Ok, Err};
ghost use Rattle.ca_spice.specs.declared.fault.SpiceKind.{SpiceKind};
ghost use Rattle.ca_spice.specs.declared.fault.SpiceFault.TheVariants.{At};
ghost use Rattle.ca_spice.specs.Reading.{library_of};
ghost use Rattle.ca_lex.specs.Words.{upper_case};
ghost use Rattle.ca_cell.specs.declared.library.Entry.TheVariants.{Sound};
ghost use Rattle.ca_cell.specs.declared.raw.RawCell.{RawCell};
ghost use Rattle.ca_cell.specs.declared.strength.StrengthTable.{StrengthTable};
ghost use Rattle.ca_cell.specs.Library.{Named, entry_of};
ghost use Rattle.ca_cell.specs.PlainNames.{HasPlainNames};
ghost use Rattle.ca_spice.specs.Called.{cell_called};
ghost use Rattle.ca_spice.specs.Laws.{IsFirstFaulty};
ghost use Rattle.ca_spice.specs.Views.{subcircuit_seen};
ghost use Rattle.ca_spice.specs.Writing.{IsReadable};

/// A text has a fault at a line exactly where that is its first faulty line: the first that breaks a rule
/// after the lines before it were read, or the `.SUBCKT` of the subcircuit in which the text ends, where no
/// line breaks a rule.
pub fn first_faulty_line()
    ensures found { (table : StrengthTable) (text : List ℕ) (line : ℕ) (kind : SpiceKind)
        → library_of table text ≡ Err (At line kind) → IsFirstFaulty table text line kind }
    ensures only { (table : StrengthTable) (text : List ℕ) (line : ℕ) (kind : SpiceKind)
        → IsFirstFaulty table text line kind → library_of table text ≡ Err (At line kind) }
{}

/// What `write_cell` asks holds of each cell that is found in a library which was read, under each name by
/// which it is found.
pub fn found_cell()
    ensures { (table : StrengthTable) (text name : List ℕ) (library : List Named) (raw : RawCell)
        → library_of table text ≡ Ok (map subcircuit_seen library)
        → entry_of library (upper_case name) ≡ Some (Sound raw) → IsReadable table name raw }
{}

/// The nets and the devices of each cell of a text that was read have names by which they are told apart.
pub fn plain_names()
    ensures { (table : StrengthTable) (text name : List ℕ) (raw : RawCell)
        → cell_called table text name ≡ Some raw → HasPlainNames raw }
{}
