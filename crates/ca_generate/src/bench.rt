//! What the work asks of the simulator, the guide and the search.

use crate::search_end::SearchEnd;
use ca_base::NoMemory;
use ca_credit::Simulator;
use std::alloc::Global;

/// A simulator, and searches with it for a pair that shows the defect that is aimed at.
pub trait Bench: Simulator {
    ghost use Rattle.std.specs.Prelude.{◌≡◌, ◌<◌, ◌↔◌, IsTrue, IfOk, length, Some};
    ghost use Rattle.ca_flat.specs.declared.chip_defect.ChipDefect.{ChipDefect};
    ghost use Rattle.ca_credit.specs.Defects.{IsDefectAt, IsExposableIn};
    ghost use Rattle.ca_generate.specs.Outcome.{IsSearchEnd};

    /// Whether some pair of vectors exposes the defect at this place of the list in its cell.
    fn is_exposable(&self, place: usize) -> bool
        requires { place < length (Self.task self.now).defects }
        ensures { (defect : ChipDefect) → IsDefectAt (Self.task self.now) place defect
            → IsTrue result ↔ IsExposableIn ((Self.task self.now).chip_of place) defect };

    /// Searches for a pair that shows the defect that is aimed at. The bits and the aim may be others
    /// afterwards. Memory is taken for the pair that is found, or for the code that is spent.
    fn find(&mut self, alloc: Global) -> Result<SearchEnd, NoMemory>
        ensures searched { (defect : ChipDefect) → Self.aimed self.old ≡ Some defect
            → IfOk result (IsSearchEnd (Self.aimed_in self.old) (Self.task self.old).budget defect) }
        ensures task { Self.task self.new ≡ Self.task self.old };
}
