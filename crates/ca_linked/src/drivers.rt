//! The drivers of each net.

ghost use Rattle.std.specs.Prelude.{◌≡◌, ◌<◌, ◌↔◌, ◌+◌, ◌^◌, IsTrue, false, length, replicate, slice_set};
ghost use Rattle.std.specs.Prelude.{IfSome, IfNone, IfOk};
ghost use Rattle.ca_linked.specs.Linked.{FromConstant, FromPin, FromPort, net_count};
ghost use Rattle.ca_linked.specs.Drivers.{no_sources, sources_at, first_instance};
ghost use Rattle.ca_linked.specs.code.Drivers.{noted, after_constant};
ghost use Rattle.ca_linked.specs.Drivers.{IsDrafted, IsSingle};
ghost use Rattle.ca_linked.specs.code.Drivers.{AreDrivers, AreNoted, IsSeen, IsFirstFlaw};
ghost use Rattle.ca_linked.specs.code.Drivers.{AreAllSingle};

use crate::draft::Draft;
use crate::parts::{Body, Source};
use ca_base::NoMemory;
use std::alloc::Global;
use std::marker::Model;

/// The first two that drive a net, if there are two.
#[derive(Clone, Copy, Debug)]
pub struct Sources {
    pub first: Option<Source>,
    pub second: Option<Source>,
}

/// For each net the first two that drive it.
#[derive(Drop)]
pub(crate) struct Drivers {
    table: Vec<Sources>,
}

impl Model for Drivers {
    ghost use Rattle.std.specs.Prelude.{List};
    ghost use Rattle.ca_linked.specs.declared.drivers.Sources.{Sources};

    ghost Value = { List Sources };

    ghost view = { λ drivers. drivers.table.items };
}

impl Sources {
    // These, with one more.
    fn with(self, source: Source) -> Self
        ensures { result ≡ noted source self.first self.second }
    {
        match (self.first, self.second) {
            (None, _) => Sources {
                first: Some(source),
                second: None,
            },
            (Some(_), None) => Sources {
                second: Some(source),
                ..self
            },
            (Some(_), Some(_)) => self,
        }
    }
}

impl Sources {
    /// Whether one drives the net, and no other.
    pub fn is_single(self) -> bool
        ensures { IsTrue result ↔ IsSingle self }
    {
        self.first.is_some() && self.second.is_none()
    }

    /// The instance whose output pin is the first of these.
    pub fn instance(self) -> Option<u32>
        ensures { result ≡ first_instance self.first }
    {
        match self.first {
            Some(Source::FromPin(u, _)) => Some(u),
            Some(Source::FromPort(_)) => None,
            Some(Source::FromConstant(_)) => None,
            None => None,
        }
    }
}

impl Drivers {
    // No net is driven so far.
    fn begin(alloc: Global, nets: usize) -> Result<Self, NoMemory>
        ensures { IfOk result (λ drivers. drivers ≡ replicate nets no_sources) }
    {
        let none = Sources {
            first: None,
            second: None,
        };
        Ok(Drivers {
            table: vec![in alloc; none; nets]?,
        })
    }

    /// The first two that drive a net.
    pub(crate) fn get(&self, net: u32) -> Sources
        requires { net < length self.now }
        ensures { result ≡ sources_at self.now net }
    {
        self.table[net as usize]
    }

    /// The first net that nothing drives, or that two drive.
    pub(crate) fn first_flaw(&self) -> Option<u32>
        requires { length self.now < 2 ^ 32 }
        ensures some { IfSome result (IsFirstFlaw self.now) }
        ensures none { IfNone result (AreAllSingle self.now) }
    {
        for net in 0..self.table.len() {
            if !self.get(net as u32).is_single() {
                return Some(net as u32);
            }
        }
        None
    }

    // One more drives a net.
    fn note(&mut self, net: u32, source: Source)
        requires { net < length self.old }
        ensures { self.new ≡ slice_set self.old net (noted source (sources_at self.old net).first
            (sources_at self.old net).second) }
    {
        self.table[net as usize] = self.get(net).with(source);
    }

    // The bits of input ports.
    fn note_ports(&mut self, draft: &Draft)
        requires drafted { IsDrafted draft.now }
        requires so_far { AreNoted draft.now (IsSeen (FromPort 0)) self.old }
        ensures { AreNoted draft.now (IsSeen (FromConstant false)) self.new }
    {
        for p in 0..draft.ports() {
            let port = draft.port(p);
            if port.is_input {
                self.note(port.net, Source::FromPort(p as u32));
            }
        }
    }

    // A constant.
    fn note_constant(&mut self, draft: &Draft, value: bool)
        requires drafted { IsDrafted draft.now }
        requires so_far { AreNoted draft.now (IsSeen (FromConstant value)) self.old }
        ensures { AreNoted draft.now (IsSeen (after_constant value)) self.new }
    {
        if let Some(net) = draft.constant_net(value) {
            self.note(net, Source::FromConstant(value));
        }
    }

    // The output pins of an instance.
    fn note_part(&mut self, draft: &Draft, u: usize)
        requires drafted { IsDrafted draft.now }
        requires within { u < length draft.now.parts }
        requires so_far { AreNoted draft.now (IsSeen (FromPin u 0)) self.old }
        ensures { AreNoted draft.now (IsSeen (FromPin (u + 1) 0)) self.new }
    {
        let body = &draft.part(u).body;
        for pin in 0..body.output_count() {
            self.note(body.output(pin), Source::FromPin(u as u32, pin as u32));
        }
    }

    // The output pins of all instances.
    fn note_parts(&mut self, draft: &Draft)
        requires drafted { IsDrafted draft.now }
        requires so_far { AreNoted draft.now (IsSeen (FromPin 0 0)) self.old }
        ensures { AreDrivers draft.now self.new }
    {
        for u in 0..draft.parts() {
            self.note_part(draft, u);
        }
    }
}

/// For each net the first two that drive it.
pub(crate) fn drivers_of(alloc: Global, draft: &Draft) -> Result<Drivers, NoMemory>
    requires { IsDrafted draft.now }
    ensures { IfOk result (AreDrivers draft.now) }
{
    let mut drivers = Drivers::begin(alloc, draft.nets())?;
    drivers.note_ports(draft);
    drivers.note_constant(draft, false);
    drivers.note_constant(draft, true);
    drivers.note_parts(draft);
    Ok(drivers)
}
