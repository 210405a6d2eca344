//! The rows that expose the defects of a chip.

ghost use Rattle.std.specs.Prelude.{◌↔◌};

use crate::chip_defect::ChipDefect;
use ca_cell::Rows;

/// For each defect of a chip the rows that expose it in its cell.
pub trait ExposingRows {
    ghost use Rattle.ca_flat.specs.Chip.{Chip, IsDefectIn};
    ghost use Rattle.ca_flat.specs.Rows.{ListsExposingRows};

    /// The chip.
    ghost chip: { Self → Chip };

    /// The rows of a defect.
    fn rows(&self, defect: ChipDefect) -> &Rows
        requires { IsDefectIn (chip self.now) defect }
        ensures { ListsExposingRows (chip self.now) defect result.now };
}

/// For each defect of a chip the rows that expose it in its cell, and whether any pair of vectors does.
pub trait ExposableDefects: ExposingRows {
    ghost use Rattle.std.specs.Prelude.{IsTrue};
    ghost use Rattle.ca_flat.specs.Chip.{IsDefectIn};
    ghost use Rattle.ca_flat.specs.Detection.{IsExposableIn};

    /// Whether some pair of vectors exposes the defect in its cell.
    fn is_exposable(&self, defect: ChipDefect) -> bool
        requires { IsDefectIn (Self.chip self.now) defect }
        ensures { IsTrue result ↔ IsExposableIn (Self.chip self.now) defect };
}
