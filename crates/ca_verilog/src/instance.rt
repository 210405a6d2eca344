//! Instances with what is on their pins.
ghost use Rattle.std.specs.Prelude.{◌≡◌, [], ◌∷◌, ◌++◌, IfOk};
ghost use Rattle.ca_verilog.specs.Instance.{has_pin, has_instance};

use ca_base::{List, NoMemory};
use ca_lex::Text;
use ca_names::NameSet;
use std::alloc::Global;
use std::marker::Model;

/// What is on a side of an `assign` or on a pin. Declared names are given by their places.
#[derive(Clone, Copy, Debug, PartialEq, Eq)]
pub enum Operand {
    /// A name as a whole.
    Whole(u32),
    /// The bit of a vector that has this index.
    Bit(u32, u32),
    Constant(bool),
}

/// What an `assign` joins.
#[derive(Clone, Copy, Debug, PartialEq, Eq)]
pub struct Join {
    pub left: Operand,
    pub right: Operand,
}

/// A pin with what is on it, if anything is.
#[derive(Drop)]
pub struct Use {
    pub pin: Text,
    pub operand: Option<Operand>,
}

/// The pins of an instance, in order. A pin is found without a search through the others. Contracts see a
/// list.
#[derive(Drop)]
pub(crate) struct Uses {
    names: NameSet,
    uses: List<Use>,
}

impl Model for Uses {
    ghost use Rattle.std.specs.Prelude.{List, map};
    ghost use Rattle.ca_verilog.specs.declared.instance.Use.{Use};
    ghost use Rattle.ca_verilog.specs.code.Known.{Knows};

    ghost Value = { List Use };

    ghost view = { λ list. list.uses };

    ghost invariant = { λ list. Knows list.names (map (λ used. used.pin) list.uses) };
}

impl Uses {
    /// No pins.
    pub(crate) fn new(alloc: Global) -> Self
        ensures { result ≡ [] }
    {
        Uses {
            names: NameSet::new(alloc),
            uses: List::new(alloc),
        }
    }

    /// The pins alone, where none is to be found among them any more.
    pub(crate) fn into_list(self) -> List<Use>
        ensures { result ≡ self }
    {
        let Uses { names: _, uses } = self;
        uses
    }

    pub(crate) fn has(&self, pin: &[u8]) -> bool
        ensures { result ≡ has_pin pin.now self.now }
    {
        self.names.has(pin)
    }

    /// The pins with one more.
    pub(crate) fn with(
        self,
        alloc: Global,
        pin: Text,
        operand: Option<Operand>,
    ) -> Result<Self, NoMemory>
        ensures { IfOk result (λ uses. uses ≡ self ++ record { pin = pin; operand = operand } ∷ []) }
    {
        let Uses {
            mut names,
            mut uses,
        } = self;
        names.add(alloc, pin.as_bytes())?;
        uses.push(Use { pin, operand })?;
        Ok(Uses { names, uses })
    }
}

/// An instance of a cell.
#[derive(Drop)]
pub struct Instance {
    pub name: Text,
    pub cell: Text,
    pub uses: List<Use>,
}

/// The instances, in order. One is found without a search through the others. Contracts see a list.
#[derive(Drop)]
pub(crate) struct Instances {
    names: NameSet,
    instances: Vec<Instance>,
}

impl Model for Instances {
    ghost use Rattle.std.specs.Prelude.{List, map};
    ghost use Rattle.ca_verilog.specs.declared.instance.Instance.{Instance};
    ghost use Rattle.ca_verilog.specs.code.Known.{Knows};

    ghost Value = { List Instance };

    ghost view = { λ list. list.instances.items };

    ghost invariant = { λ list. Knows list.names (map (λ instance. instance.name) list.instances.items) };
}

impl Instances {
    /// No instances.
    pub(crate) fn new(alloc: Global) -> Self
        ensures { result ≡ [] }
    {
        Instances {
            names: NameSet::new(alloc),
            instances: Vec::new(alloc),
        }
    }

    /// The instances as a slice.
    pub(crate) fn as_slice(&self) -> &[Instance]
        ensures { result.now ≡ self.now }
    {
        &self.instances
    }

    pub(crate) fn has(&self, name: &[u8]) -> bool
        ensures { result ≡ has_instance name.now self.now }
    {
        self.names.has(name)
    }

    /// The instances with one more.
    pub(crate) fn with(self, alloc: Global, instance: Instance) -> Result<Self, NoMemory>
        ensures { IfOk result (λ instances. instances ≡ self ++ instance ∷ []) }
    {
        let Instances {
            mut names,
            mut instances,
        } = self;
        names.add(alloc, instance.name.as_bytes())?;
        instances.push(instance)?;
        Ok(Instances { names, instances })
    }
}
