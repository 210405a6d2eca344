//! The waves of nets, as they are seen of a simulator.

ghost use Rattle.std.specs.Prelude.{◌≡◌, ◌<◌, length};
ghost use Rattle.ca_net.specs.State.{value_at};
ghost use Rattle.ca_response.specs.Gives.{wave_at};
ghost use Rattle.ca_sim.specs.Seen.{value_of, IsExact};

use ca_net::Wave;

/// The waves of the nets of a chip for a partial pair, without a defect and with one.
pub trait NetWaves {
    ghost use Rattle.ca_sim.specs.Seen.{Seen};

    /// The chip, the defect, the bits and the waves.
    ghost seen: { Self → Seen };

    /// The wave of a net without a defect.
    fn good(&self, net: usize) -> Wave
        requires { net < length (seen self.now).chip.nets }
        ensures { result ≡ wave_at (seen self.now).good net };

    /// The wave of a net with the defect that is aimed at.
    fn faulty(&self, net: usize) -> Wave
        requires { net < length (seen self.now).chip.nets }
        ensures { result ≡ wave_at (seen self.now).faulty net };

    /// The value of a bit, if it is set.
    fn bit(&self, bit: usize) -> Option<bool>
        requires { bit < length (seen self.now).pair }
        ensures { value_of result ≡ value_at (seen self.now).pair bit };

    /// The waves are those of the flat networks. The call does nothing: it is for the fact.
    fn exact(&self)
        ensures { IsExact (seen self.now) };
}
