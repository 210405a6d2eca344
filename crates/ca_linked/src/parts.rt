//! The instances, port bits and drivers of a linked chip.

ghost use Rattle.std.specs.Prelude.{◌≡◌, ◌<◌, ◌↔◌, ◌++◌, [], ◌∷◌, if◌then◌else◌, length, IsTrue, Some};
ghost use Rattle.std.specs.Prelude.{slice_get, IfOk, OnOk, OnErr};
ghost use Rattle.ca_linked.specs.Linked.{Scan, input_nets, output_nets, IsGate};

use ca_base::NoMemory;
use ca_lex::Text;
use std::alloc::Global;
use std::marker::Model;

/// A net, by its place in net order.
#[derive(Clone, Copy, Debug, PartialEq, Eq)]
pub struct NetId(pub u32);

/// Nets in order. Contracts see the list of their numbers.
#[derive(Drop)]
pub struct NetList {
    numbers: Vec<u32>,
}

impl Model for NetList {
    ghost use Rattle.std.specs.Prelude.{List, ℕ};

    ghost Value = { List ℕ };

    ghost view = { λ list. list.numbers.items };
}

impl NetList {
    /// The list of no nets.
    pub fn new(alloc: Global) -> Self
        ensures { result ≡ [] }
    {
        NetList {
            numbers: Vec::new(alloc),
        }
    }

    /// The number of nets.
    pub fn len(&self) -> usize
        ensures { result ≡ length self.now }
    {
        self.numbers.len()
    }

    /// The net at a place.
    pub fn get(&self, k: usize) -> u32
        requires { k < length self.now }
        ensures { slice_get self.now k ≡ Some result }
    {
        self.numbers[k]
    }

    /// The numbers of the nets as a slice.
    pub fn as_slice(&self) -> &[u32]
        ensures { result.now ≡ self.now }
    {
        &self.numbers
    }

    /// Appends a net.
    pub fn push(&mut self, net: u32) -> Result<(), NoMemory>
        ensures ok { OnOk result (self.new ≡ self.old ++ net ∷ []) }
        ensures err { OnErr result (self.new ≡ self.old) }
    {
        Ok(self.numbers.push(net)?)
    }

    /// A list of its own with the same nets.
    pub fn copy(&self, alloc: Global) -> Result<Self, NoMemory>
        ensures { IfOk result (λ list. list ≡ self.now) }
    {
        let mut list = NetList::new(alloc);
        for k in 0..self.len() {
            list.push(self.get(k))?;
        }
        Ok(list)
    }

    /// Appends a net, if it passed a test.
    pub fn push_if(&mut self, passed: bool, net: u32) -> Result<(), NoMemory>
        ensures ok { OnOk result (self.new ≡ self.old ++ (if passed then net ∷ [] else [])) }
        ensures err { OnErr result (self.new ≡ self.old) }
    {
        if passed { self.push(net) } else { Ok(()) }
    }
}

/// The nets of a scan cell's pins; not every scan cell has an inverted output.
#[derive(Clone, Copy, Debug)]
pub struct ScanNets {
    pub d: u32,
    pub si: u32,
    pub se: u32,
    pub ck: u32,
    pub hold: u32,
    pub q: u32,
    pub qn: Option<u32>,
    pub so: u32,
}

/// What an instance is of: a library cell, by its place in the library, with the net of each input pin and of
/// each output pin; or a scan cell.
#[derive(Drop)]
pub enum Body {
    Gate {
        cell: u32,
        inputs: NetList,
        outputs: NetList,
    },
    Scan(ScanNets),
}

impl ScanNets {
    // The net of an input pin.
    fn input(&self, pin: usize) -> u32
        requires { pin < length (input_nets (Scan self.now)) }
        ensures { slice_get (input_nets (Scan self.now)) pin ≡ Some result }
    {
        match pin {
            0 => self.d,
            1 => self.si,
            2 => self.se,
            3 => self.ck,
            _ => self.hold,
        }
    }

    // The number of output pins.
    fn output_count(&self) -> usize
        ensures { result ≡ length (output_nets (Scan self.now)) }
    {
        match self.qn {
            None => 2,
            Some(_) => 3,
        }
    }

    // The net of an output pin.
    fn output(&self, pin: usize) -> u32
        requires { pin < length (output_nets (Scan self.now)) }
        ensures { slice_get (output_nets (Scan self.now)) pin ≡ Some result }
    {
        match (pin, self.qn) {
            (0, _) => self.q,
            (1, Some(qn)) => qn,
            _ => self.so,
        }
    }
}

impl Body {
    /// The number of input pins.
    pub fn input_count(&self) -> usize
        ensures { result ≡ length (input_nets self.now) }
    {
        match self {
            Body::Gate { inputs, .. } => inputs.len(),
            Body::Scan(_) => 5,
        }
    }

    /// The net of an input pin.
    pub fn input(&self, pin: usize) -> u32
        requires { pin < length (input_nets self.now) }
        ensures { slice_get (input_nets self.now) pin ≡ Some result }
    {
        match self {
            Body::Gate { inputs, .. } => inputs.get(pin),
            Body::Scan(nets) => nets.input(pin),
        }
    }

    /// The number of output pins.
    pub fn output_count(&self) -> usize
        ensures { result ≡ length (output_nets self.now) }
    {
        match self {
            Body::Gate { outputs, .. } => outputs.len(),
            Body::Scan(nets) => nets.output_count(),
        }
    }

    /// The net of an output pin.
    pub fn output(&self, pin: usize) -> u32
        requires { pin < length (output_nets self.now) }
        ensures { slice_get (output_nets self.now) pin ≡ Some result }
    {
        match self {
            Body::Gate { outputs, .. } => outputs.get(pin),
            Body::Scan(nets) => nets.output(pin),
        }
    }

    /// The net of a pin, the input pins first.
    pub fn pin(&self, pin: usize) -> u32
        requires { pin < length (input_nets self.now ++ output_nets self.now) }
        ensures { slice_get (input_nets self.now ++ output_nets self.now) pin ≡ Some result }
    {
        let inputs = self.input_count();
        if pin < inputs {
            self.input(pin)
        } else {
            self.output(pin - inputs)
        }
    }

    /// A body of its own that is the same.
    pub fn copy(&self, alloc: Global) -> Result<Self, NoMemory>
        ensures { IfOk result (λ body. body ≡ self.now) }
    {
        match self {
            Body::Gate {
                cell,
                inputs,
                outputs,
            } => Ok(Body::Gate {
                cell: *cell,
                inputs: inputs.copy(alloc)?,
                outputs: outputs.copy(alloc)?,
            }),
            Body::Scan(nets) => Ok(Body::Scan(*nets)),
        }
    }

    /// Whether the instance is of a library cell.
    pub fn is_gate(&self) -> bool
        ensures { IsTrue result ↔ IsGate self.now }
    {
        matches!(self, Body::Gate { .. })
    }
}

/// An instance, with its name, that of its cell and that of its data pin, which is empty where the cell is
/// one of the library.
#[derive(Drop)]
pub struct Part {
    pub name: Text,
    pub cell: Text,
    pub data: Text,
    pub body: Body,
}

impl Part {
    /// An instance of its own that is the same.
    pub fn copy(&self, alloc: Global) -> Result<Self, NoMemory>
        ensures { IfOk result (λ part. part ≡ self.now) }
    {
        Ok(Part {
            name: self.name.copy(alloc)?,
            cell: self.cell.copy(alloc)?,
            data: self.data.copy(alloc)?,
            body: self.body.copy(alloc)?,
        })
    }
}

/// A bit of a port, with its name and its net.
#[derive(Drop)]
pub struct PortBit {
    pub name: Text,
    pub is_input: bool,
    pub net: u32,
}

impl PortBit {
    /// A port bit of its own that is the same.
    pub fn copy(&self, alloc: Global) -> Result<Self, NoMemory>
        ensures { IfOk result (λ port. port ≡ self.now) }
    {
        Ok(PortBit {
            name: self.name.copy(alloc)?,
            is_input: self.is_input,
            net: self.net,
        })
    }
}

/// What drives a net: a port bit by its place in the header, a constant, or an output pin of an instance.
#[derive(Clone, Copy, Debug)]
pub enum Source {
    FromPort(u32),
    FromConstant(bool),
    FromPin(u32, u32),
}
