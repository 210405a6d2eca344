//! Lists of waves.

ghost use Rattle.std.specs.Prelude.{◌≡◌, ◌<◌, length, slice_set, replicate, IfOk};
ghost use Rattle.ca_response.specs.Gives.{wave_at, unknown_wave};

use ca_base::NoMemory;
use ca_net::Wave;
use std::alloc::Global;
use std::marker::Model;

/// A wave for each net of a chip, in order.
#[derive(Drop, Debug)]
pub struct Waves {
    waves: Vec<Wave>,
}

impl Model for Waves {
    ghost use Rattle.std.specs.Prelude.{List};
    ghost use Rattle.ca_net.specs.declared.wave.Wave.{Wave};

    ghost Value = { List Wave };

    ghost view = { λ s. s.waves.items };
}

impl Waves {
    /// The unknown wave for `nets` nets.
    pub fn unknown(alloc: Global, nets: usize) -> Result<Self, NoMemory>
        ensures { IfOk result (λ waves. waves ≡ replicate nets unknown_wave) }
    {
        Ok(Waves {
            waves: vec![in alloc; Wave::default(); nets]?,
        })
    }

    /// The same waves.
    pub fn copy(&self, alloc: Global) -> Result<Self, NoMemory>
        ensures { IfOk result (λ waves. waves ≡ self.now) }
    {
        let mut waves = Vec::with_capacity(alloc, self.waves.len())?;
        waves.extend_from_slice(self.waves.as_slice())?;
        Ok(Waves { waves })
    }

    /// Takes over the waves of a list that is as long.
    pub fn take_over(&mut self, other: &Waves)
        requires { length self.old ≡ length other.now }
        ensures { self.new ≡ other.now }
    {
        self.waves.copy_from_slice(&other.waves);
    }

    /// The wave of a net.
    pub fn get(&self, net: usize) -> Wave
        requires { net < length self.now }
        ensures { result ≡ wave_at self.now net }
    {
        self.waves[net]
    }

    /// Gives a net a wave.
    pub fn set(&mut self, net: usize, wave: Wave)
        requires { net < length self.old }
        ensures { self.new ≡ slice_set self.old net wave }
    {
        self.waves[net] = wave;
    }
}
