//! The flood: which nets are reached over links from some roots.

ghost use Rattle.std.specs.Prelude.{◌≡◌, ◌<◌, ◌≤◌, [], ◌∷◌, length};
ghost use Rattle.std.specs.List.{All};
ghost use Rattle.ca_guide.specs.code.Flood.{IsFloodTo};
ghost use Rattle.ca_view.specs.NetLists.{AreWithin};
ghost use Rattle.ca_guide.specs.code.Visit.{IsVisit};

use crate::number_set::NumberSet;

/// For each net the nets to which it is linked.
pub trait Links {
    ghost use Rattle.std.specs.Prelude.{ℕ, List, ◌≡◌, ◌<◌, length};
    ghost use Rattle.ca_view.specs.NetLists.{linked_from, AreWithin};

    /// The list of a net's links, for each net.
    ghost links: { Self → List (List ℕ) };

    /// The nets to which the net is linked.
    fn from(&self, net: u32) -> &[u32]
        requires { net < length (links self.now) }
        ensures same { result.now ≡ linked_from (links self.now) net }
        ensures within { AreWithin (links self.now) };
}

/// Which nets may be entered, and at which the flood ends.
pub trait Region {
    ghost use Rattle.std.specs.Prelude.{◌≡◌, ◌<◌};
    ghost use Rattle.ca_guide.specs.Flood.{Area};

    /// The number of nets, and the two tests.
    ghost area: { Self → Area };

    /// Whether the net may be entered.
    fn enters(&self, net: u32) -> bool
        requires { net < (area self.now).count }
        ensures { result ≡ (area self.now).enters net };

    /// Whether the flood ends at the net.
    fn ends(&self, net: u32) -> bool
        requires { net < (area self.now).count }
        ensures { result ≡ (area self.now).ends net };
}

/// Fills the set with the nets that are reached from the roots, the roots among them; each has to be one that
/// may be entered. It stops at the first net that is an end, and the answer is whether there was one.
pub(crate) fn flood<L: Links, R: Region>(
    set: &mut NumberSet,
    links: &L,
    region: &R,
    roots: &[u32],
) -> bool
    requires roots { All (λ net. net < length (L.links links.now)) roots.now }
    requires room { set.old.bound ≡ length (L.links links.now) }
    requires region { (R.area region.now).count ≡ length (L.links links.now) }
    ensures room { set.new.bound ≡ set.old.bound }
    ensures flood { IsFloodTo result (L.links links.now) (R.area region.now) roots.now set.new.members }
{
    set.clear();
    if visit(set, region, roots) {
        return true;
    }
    let mut place = 0;
    'places: while place < set.len() {
        if visit(set, region, links.from(set.get(place))) {
            return true;
        }
        place += 1;
    }
    false
}

// Puts those of the nets that may be entered into the set, up to the first new one that is an end.
fn visit<R: Region>(set: &mut NumberSet, region: &R, nets: &[u32]) -> bool
    requires within { All (λ net. net < set.old.bound) nets.now }
    requires region { (R.area region.now).count ≡ set.old.bound }
    ensures { IsVisit result (R.area region.now) nets.now set.old set.new }
{
    for net in nets {
        if look(set, region, *net) {
            return true;
        }
    }
    false
}

// Puts the net into the set, if it may be entered, and answers whether it is new and an end.
fn look<R: Region>(set: &mut NumberSet, region: &R, net: u32) -> bool
    requires within { net < set.old.bound }
    requires region { (R.area region.now).count ≡ set.old.bound }
    ensures { IsVisit result (R.area region.now) (net ∷ []) set.old set.new }
{
    if !region.enters(net) {
        return false;
    }
    if !set.insert(net) {
        return false;
    }
    region.ends(net)
}
