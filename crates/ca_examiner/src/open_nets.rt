//! The nets that a completion may still change, or that the defect has changed.

ghost use Rattle.std.specs.Prelude.{◌≡◌, length};
ghost use Rattle.ca_examiner.specs.code.OpenNets.{is_known, is_same, is_closed_wave, AreOpenNets};

use ca_net::{Trit, Wave};
use ca_sim::NetWaves;

// Marks the open nets, and no others.
pub(crate) fn mark_open<V: NetWaves>(marks: &mut Vec<bool>, waves: &V)
    requires { length marks.old.items ≡ length (V.seen waves.now).chip.nets }
    ensures { AreOpenNets (V.seen waves.now) marks.new.items }
{
    for net in 0..marks.len() {
        let closed = is_closed(waves.good(net), waves.faulty(net));
        marks[net] = !closed;
    }
}

// Whether no completion changes the net, good or with the defect, and both are one.
fn is_closed(good: Wave, faulty: Wave) -> bool
    ensures { result ≡ is_closed_wave good faulty }
{
    let one = is_same(good.first, faulty.first)
        && is_same(good.mid, faulty.mid)
        && is_same(good.last, faulty.last);
    let definite = is_known(good.first) && is_known(good.last);
    one && definite && (is_known(good.mid) || !is_same(good.first, good.last))
}

// Whether the value is 0 or 1.
fn is_known(value: Trit) -> bool
    ensures { result ≡ is_known value }
{
    match value {
        Trit::Zero | Trit::One => true,
        Trit::X => false,
    }
}

// Whether the two values are one.
fn is_same(a: Trit, b: Trit) -> bool
    ensures { result ≡ is_same a b }
{
    match (a, b) {
        (Trit::Zero, Trit::Zero) | (Trit::One, Trit::One) | (Trit::X, Trit::X) => true,
        (Trit::Zero, Trit::One | Trit::X)
        | (Trit::One, Trit::Zero | Trit::X)
        | (Trit::X, Trit::Zero | Trit::One) => false,
    }
}
