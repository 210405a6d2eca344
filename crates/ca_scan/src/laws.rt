//! What the definitions of chains imply.

ghost use Rattle.std.specs.Prelude.{ℕ, ◌≡◌, ◌≤◌, List, length};
ghost use Rattle.ca_linked.specs.Linked.{LinkedChip};
ghost use Rattle.ca_scan.specs.Chain.{RunsOut, IsChainFrom};
ghost use Rattle.ca_scan.specs.ChainFault.{HasOneAnswer};

/// At each bit of the ports one whole chain begins at most.
pub fn chains_are_one()
    ensures { (chip : LinkedChip) (p : ℕ) (chain other : List ℕ) → IsChainFrom chip p chain
        → IsChainFrom chip p other → chain ≡ other }
{}

/// A run to an output port has no scan instance twice, so at most as many as the chip has instances.
pub fn runs_are_short()
    ensures { (chip : LinkedChip) (net : ℕ) (chain : List ℕ) → RunsOut chip net chain
        → length chain ≤ length chip.parts }
{}

/// A chip has one list of whole chains, or there is one cause alone that it has none, and not both.
pub fn chips_have_one_answer()
    ensures { (chip : LinkedChip) → HasOneAnswer chip }
{}
