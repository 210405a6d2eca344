//! The first and last values of good waves.

ghost use Rattle.std.specs.Prelude.{◌≡◌, ◌<◌, length};
ghost use Rattle.ca_sweep.specs.Seen.{lasts_in};
ghost use Rattle.ca_every_vector.specs.code.Firsts.{firsts_in};

use ca_net::State;
use ca_sim::NetWaves;

/// Takes over the first values of the good waves.
pub(crate) fn load_firsts<V: NetWaves>(waves: &V, values: &mut State)
    requires { length values.old ≡ length (V.seen waves.now).chip.nets }
    ensures { values.new ≡ firsts_in (V.seen waves.now).good }
{
    waves.exact();
    for net in 0..values.len() {
        values.set(net, waves.good(net).first);
    }
}

/// Takes over the last values of the good waves.
pub(crate) fn load_lasts<V: NetWaves>(waves: &V, values: &mut State)
    requires { length values.old ≡ length (V.seen waves.now).chip.nets }
    ensures { values.new ≡ lasts_in (V.seen waves.now).good }
{
    waves.exact();
    for net in 0..values.len() {
        values.set(net, waves.good(net).last);
    }
}
