//! What may stand at a partial pair.

ghost use Rattle.std.specs.Prelude.{◌≡◌, ◌<◌, ◌↔◌, length, IsTrue};
ghost use Rattle.std.specs.List.{All};
ghost use Rattle.ca_flat.specs.Chain.{IsSupportBit};
ghost use Rattle.ca_flat.specs.Codes.{MayBranch};
ghost use Rattle.ca_flat.specs.Pair.{IsOpenPair};
ghost use Rattle.ca_flat.specs.Rows.{ListsExposingRows};
ghost use Rattle.ca_view.specs.Linked.{IsPlaced, place_in};
ghost use Rattle.ca_flat.specs.CheckedCode.{MayLeave};
ghost use Rattle.ca_examiner.specs.code.Order.{IsOrder};
ghost use Rattle.ca_examiner.specs.code.Marks.{IsMarked};
ghost use Rattle.ca_examiner.specs.code.OpenNets.{AreOpenNets};
ghost use Rattle.ca_examiner.specs.code.Support.{AreLeadingNets};
ghost use Rattle.ca_examiner.specs.code.ChipExaminer.{IsSeenOf, ReachesOutput, HasUnset};
ghost use Rattle.std.specs.List.{Any};

use crate::open_nets::mark_open;
use crate::rows::is_some_row_allowed;
use crate::standing::{is_settled, is_shown};
use crate::support::supports;
use crate::sweep::mark_onward;
use ca_cell::Rows;
use ca_flat::ChipDefect;
use ca_sim::NetWaves;
use ca_view::View;

// Whether one of the nets has a mark.
fn is_some_marked(marks: &[bool], nets: &[u32]) -> bool
    requires { All (λ net. net < length marks.now) nets.now }
    ensures { IsTrue result ↔ Any (IsMarked marks.now) nets.now }
{
    for net in nets {
        if marks[*net as usize] {
            return true;
        }
    }
    false
}

// Whether a chain of open nets leads from the instance to one of the outputs. The two lists are room.
fn has_open_chain<V: NetWaves>(
    open_nets: &mut Vec<bool>,
    marks: &mut Vec<bool>,
    chip: &View<'_>,
    waves: &V,
    order: &[Option<u32>],
    outputs: &[u32],
    u: usize,
) -> bool
    requires chip { (V.seen waves.now).chip ≡ chip.now.core }
    requires placed { IsPlaced chip.now.core (place_in chip.now.ranks) u }
    requires open_nets { length open_nets.old.items ≡ length chip.now.core.nets }
    requires marks { length marks.old.items ≡ length chip.now.core.nets }
    requires order { IsOrder chip.now.core (place_in chip.now.ranks) order.now }
    requires outputs { outputs.now ≡ chip.now.core.outputs }
    ensures open_nets { AreOpenNets (V.seen waves.now) open_nets.new.items }
    ensures marks { length marks.new.items ≡ length chip.now.core.nets }
    ensures chain { IsTrue result ↔ ReachesOutput chip.now.core open_nets.new.items u }
{
    chip.linked();
    mark_open(open_nets, waves);
    mark_onward(marks, open_nets, chip, order, u);
    is_some_marked(marks, outputs)
}

// Whether the bit is an unset one of the support.
fn is_unset_support<V: NetWaves>(
    chip: &View<'_>,
    waves: &V,
    leading: &[bool],
    bit: usize,
    defect: ChipDefect,
) -> bool
    requires chip { (V.seen waves.now).chip ≡ chip.now.core }
    requires leading { AreLeadingNets chip.now.core defect.instance leading.now }
    ensures support { IsTrue result → IsSupportBit (V.seen waves.now).chip defect bit }
    ensures unset { IsTrue result → value_at (V.seen waves.now).pair bit ≡ X }
    ensures only { IsSupportBit (V.seen waves.now).chip defect bit → value_at (V.seen waves.now).pair bit ≡ X
        → IsTrue result }
{
    waves.exact();
    if !supports(chip, leading, bit, defect) {
        return false;
    }
    waves.bit(bit).is_none()
}

ghost use Rattle.ca_net.specs.declared.trit.Trit.TheVariants.{X};
ghost use Rattle.ca_net.specs.State.{value_at};

// Whether some bit of the support is unset.
fn has_unset<V: NetWaves>(chip: &View<'_>, waves: &V, leading: &[bool], defect: ChipDefect) -> bool
    requires chip { (V.seen waves.now).chip ≡ chip.now.core }
    requires leading { AreLeadingNets chip.now.core defect.instance leading.now }
    ensures { IsTrue result ↔ HasUnset (V.seen waves.now) defect }
{
    chip.linked();
    for bit in 0..2 * chip.input_count() {
        if is_unset_support(chip, waves, leading, bit, defect) {
            return true;
        }
    }
    false
}

// Whether the pair is open.
fn is_open_pair<V: NetWaves>(
    chip: &View<'_>,
    waves: &V,
    outputs: &[u32],
    defect: ChipDefect,
) -> bool
    requires seen { IsSeenOf chip.now.core (place_in chip.now.ranks) (V.seen waves.now) defect }
    requires outputs { outputs.now ≡ chip.now.core.outputs }
    ensures { IsTrue result ↔ IsOpenPair (V.seen waves.now).chip defect (V.seen waves.now).pair }
{
    chip.linked();
    waves.exact();
    !is_shown(waves, outputs) && !is_settled(waves, outputs)
}

/// Whether a branch on the bit may stand at the pair.
pub(crate) fn may_branch<V: NetWaves>(
    chip: &View<'_>,
    waves: &V,
    outputs: &[u32],
    leading: &[bool],
    bit: usize,
    defect: ChipDefect,
) -> bool
    requires seen { IsSeenOf chip.now.core (place_in chip.now.ranks) (V.seen waves.now) defect }
    requires outputs { outputs.now ≡ chip.now.core.outputs }
    requires leading { AreLeadingNets chip.now.core defect.instance leading.now }
    ensures { IsTrue result ↔ MayBranch (V.seen waves.now).chip defect (V.seen waves.now).pair bit }
{
    if !is_unset_support(chip, waves, leading, bit, defect) {
        return false;
    }
    is_open_pair(chip, waves, outputs, defect)
}

/// Whether a branch on some bit may.
pub(crate) fn may_go_on<V: NetWaves>(
    chip: &View<'_>,
    waves: &V,
    outputs: &[u32],
    leading: &[bool],
    defect: ChipDefect,
) -> bool
    requires seen { IsSeenOf chip.now.core (place_in chip.now.ranks) (V.seen waves.now) defect }
    requires outputs { outputs.now ≡ chip.now.core.outputs }
    requires leading { AreLeadingNets chip.now.core defect.instance leading.now }
    ensures { IsTrue result ↔ CanBranch (V.seen waves.now) defect }
{
    if !has_unset(chip, waves, leading, defect) {
        return false;
    }
    is_open_pair(chip, waves, outputs, defect)
}

ghost use Rattle.ca_examiner.specs.code.ChipExaminer.{CanBranch};

/// Whether a leaf may stand at the pair. The first two lists are room.
pub(crate) fn may_leave<V: NetWaves>(
    open_nets: &mut Vec<bool>,
    marks: &mut Vec<bool>,
    chip: &View<'_>,
    waves: &V,
    order: &[Option<u32>],
    outputs: &[u32],
    leading: &[bool],
    rows: &Rows,
    defect: ChipDefect,
) -> bool
    requires seen { IsSeenOf chip.now.core (place_in chip.now.ranks) (V.seen waves.now) defect }
    requires open_nets { length open_nets.old.items ≡ length chip.now.core.nets }
    requires marks { length marks.old.items ≡ length chip.now.core.nets }
    requires order { IsOrder chip.now.core (place_in chip.now.ranks) order.now }
    requires outputs { outputs.now ≡ chip.now.core.outputs }
    requires leading { AreLeadingNets chip.now.core defect.instance leading.now }
    requires rows { ListsExposingRows chip.now.core defect rows.now }
    ensures open_nets { length open_nets.new.items ≡ length chip.now.core.nets }
    ensures marks { length marks.new.items ≡ length chip.now.core.nets }
    ensures leaf { IsTrue result ↔ MayLeave (V.seen waves.now).chip defect (V.seen waves.now).pair }
{
    chip.linked();
    waves.exact();
    let u = defect.instance as usize;
    if is_settled(waves, outputs) {
        return true;
    }
    if !is_some_row_allowed(chip, waves, u, rows) {
        return true;
    }
    if !has_open_chain(open_nets, marks, chip, waves, order, outputs, u) {
        return true;
    }
    if has_unset(chip, waves, leading, defect) {
        return false;
    }
    !is_shown(waves, outputs)
}
