//! Laws of the defects of a cell, each the contract of a function that does nothing.

ghost use Rattle.ca_cell.specs.declared.raw.RawCell.{RawCell};
ghost use Rattle.ca_cell.specs.Laws.{DefectNamesDiffer};
ghost use Rattle.ca_cell.specs.List.{ListsDefects};

/// The list of a cell's defects has exactly its defects, and as many as the cell counts.
pub fn lists_defects()
    ensures { (raw : RawCell) → ListsDefects raw }
{}

/// The names of the defects of a cell that keeps the rules differ, where its nets and devices have plain
/// names.
pub fn defect_names_differ()
    ensures { DefectNamesDiffer }
{}
