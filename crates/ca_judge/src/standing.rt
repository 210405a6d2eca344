//! How a partial pair stands, from the last values of the waves of the observed nets.

ghost use Rattle.std.specs.Prelude.{◌≡◌, ◌<◌, ◌↔◌, length, true, IsTrue};
ghost use Rattle.std.specs.List.{All, Any};
ghost use Rattle.ca_judge.specs.code.Ends.{are_opposite, are_alike, is_opposite_at, is_alike_at, LooksSo};

use ca_net::Trit;
use ca_search::Standing;
use ca_sim::NetWaves;

// Whether one of the values is 0 and the other 1.
fn are_opposite(good: Trit, faulty: Trit) -> bool
    ensures { result ≡ are_opposite good faulty }
{
    match (good, faulty) {
        (Trit::Zero, Trit::One) | (Trit::One, Trit::Zero) => true,
        (Trit::Zero | Trit::X, Trit::Zero | Trit::X)
        | (Trit::One, Trit::One | Trit::X)
        | (Trit::X, Trit::One) => false,
    }
}

// Whether both values are 0, or both 1.
fn are_alike(good: Trit, faulty: Trit) -> bool
    ensures { result ≡ are_alike good faulty }
{
    match (good, faulty) {
        (Trit::Zero, Trit::Zero) | (Trit::One, Trit::One) => true,
        (Trit::Zero, Trit::One | Trit::X)
        | (Trit::One, Trit::Zero | Trit::X)
        | (Trit::X, Trit::Zero | Trit::One | Trit::X) => false,
    }
}

// Whether the waves end with opposite values at one of the nets.
pub(crate) fn is_shown<V: NetWaves>(waves: &V, outputs: &[u32]) -> bool
    requires { All (λ net. net < length (V.seen waves.now).chip.nets) outputs.now }
    ensures { IsTrue result ↔ Any (λ net. is_opposite_at (V.seen waves.now) net ≡ true) outputs.now }
{
    for net in outputs {
        let net = *net as usize;
        if are_opposite(waves.good(net).last, waves.faulty(net).last) {
            return true;
        }
    }
    false
}

// Whether the waves end with one value at each of the nets.
fn is_settled<V: NetWaves>(waves: &V, outputs: &[u32]) -> bool
    requires { All (λ net. net < length (V.seen waves.now).chip.nets) outputs.now }
    ensures { IsTrue result ↔ All (λ net. is_alike_at (V.seen waves.now) net ≡ true) outputs.now }
{
    for net in outputs {
        let net = *net as usize;
        if !are_alike(waves.good(net).last, waves.faulty(net).last) {
            return false;
        }
    }
    true
}

// How the pair stands, if these are the observed nets.
pub(crate) fn standing<V: NetWaves>(waves: &V, outputs: &[u32]) -> Standing
    requires { All (λ net. net < length (V.seen waves.now).chip.nets) outputs.now }
    ensures { LooksSo (V.seen waves.now) outputs.now result }
{
    if is_shown(waves, outputs) {
        Standing::Shown
    } else if is_settled(waves, outputs) {
        Standing::Settled
    } else {
        Standing::Open
    }
}
