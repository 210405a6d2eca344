//! What the reading of a code asks.

/// A chip, a defect of it and a partial pair, and what may stand in a code at the pair.
pub trait Examiner {
    ghost use Rattle.std.specs.Prelude.{◌≡◌, ◌<◌, ◌↔◌, slice_set, IsTrue};
    ghost use Rattle.ca_flat.specs.Pair.{bit_count};
    ghost use Rattle.ca_flat.specs.Codes.{unset_pair};
    ghost use Rattle.ca_read_code.specs.Examined.{Examined, with_pair, set_trit, MayLeaveHere, MayBranchHere};
    ghost use Rattle.ca_read_code.specs.Examined.{MayGoOn};

    /// The chip, the defect, and the bits that are set.
    ghost examined: { Self → Examined };

    /// Unsets all bits.
    fn clear(&mut self)
        ensures { examined self.new ≡ with_pair (examined self.old) (unset_pair (examined self.old).chip) };

    /// Sets a bit, or unsets it.
    fn set(&mut self, bit: u16, value: Option<bool>)
        requires { bit < bit_count (examined self.old).chip }
        ensures { examined self.new
            ≡ with_pair (examined self.old) (slice_set (examined self.old).pair bit (set_trit value)) };

    /// Whether a leaf may stand at the pair.
    fn may_leave(&mut self) -> bool
        ensures same { examined self.new ≡ examined self.old }
        ensures leaf { IsTrue result ↔ MayLeaveHere (examined self.old) };

    /// Whether a branch on the bit may.
    fn may_branch(&self, bit: u16) -> bool
        ensures { IsTrue result ↔ MayBranchHere (examined self.now) bit };

    /// Whether a branch on some bit may.
    fn may_go_on(&self) -> bool
        ensures { IsTrue result ↔ MayGoOn (examined self.now) };
}
