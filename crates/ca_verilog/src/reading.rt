//! Reading a gate netlist, token by token.
ghost use Rattle.std.specs.Prelude.{◌≡◌, ◌<◌, ◌^◌};
ghost use Rattle.ca_lex.specs.Reading.{Gives};
ghost use Rattle.ca_lex.specs.code.Reading.{Steps};
ghost use Rattle.ca_verilog.specs.Reading.{width_of, is_vector, selected};
ghost use Rattle.ca_verilog.specs.code.VerilogFault.{kind_reported};

use crate::bus::Buses;
use crate::fault::{Refusal, VerilogKind};
use crate::instance::{Instance, Instances, Join, Operand, Uses};
use crate::lexeme::{Lexeme, lexeme_of, name_of};
use crate::table::{Action, Direction, Place, Range, row_of};
use ca_lex::{Text, Token, fold};
use ca_names::NameSet;
use std::alloc::Global;
use std::mem;

/// What is in hand: the instance, its pin and the operands that are being read.
#[derive(Drop)]
pub(crate) struct Hand {
    pub cell: Text,
    pub name: Text,
    pub uses: Uses,
    pub pin: Text,
    pub left: Operand,
    pub operand: Operand,
}

/// What was read so far.
#[derive(Drop)]
pub(crate) struct Reading {
    pub place: Place,
    pub ports: NameSet,
    pub buses: Buses,
    pub joins: Vec<Join>,
    pub instances: Instances,
    pub hand: Hand,
}

// The number of bits of an operand.
pub(crate) fn width_of(buses: &Buses, operand: Operand) -> u64
    ensures width { result ≡ width_of buses.now operand }
    ensures below { result < 2 ^ 33 }
{
    match operand {
        Operand::Whole(place) => match buses.range_at(place) {
            None => 1,
            Some(range) => range.width(),
        },
        _ => 1,
    }
}

// Whether the operand is a vector as a whole.
fn is_vector(buses: &Buses, operand: Operand) -> bool
    ensures { result ≡ is_vector buses.now operand }
{
    match operand {
        Operand::Whole(place) => buses.range_at(place).is_some(),
        _ => false,
    }
}

// The bit of an operand that has this index.
fn selected(buses: &Buses, operand: Operand, index: u32) -> Result<Operand, Refusal>
    ensures { Gives kind_reported (λ found. found) result (selected buses.now operand index) }
{
    let Operand::Whole(place) = operand else {
        return Err(Refusal::Kind(VerilogKind::BadRange));
    };
    match buses.range_at(place) {
        Some(range) if range.has(index) => Ok(Operand::Bit(place, index)),
        _ => Err(Refusal::Kind(VerilogKind::BadRange)),
    }
}

impl Reading {
    ghost use Rattle.ca_verilog.specs.Reading.{nothing, add_port, declare_name, close, take_cell};
    ghost use Rattle.ca_verilog.specs.Reading.{take_instance, take_pin, refer, open_index, select, connect};
    ghost use Rattle.ca_verilog.specs.Reading.{keep_left, join, with_use, end_instance, act, lexeme_step};
    ghost use Rattle.std.specs.Prelude.{Ok, ◌≤◌, length};
    ghost use Rattle.ca_verilog.specs.Text.{token_step};
    ghost use Rattle.ca_verilog.specs.code.Views.{reading_seen};

    /// What is read before the first token.
    pub(crate) fn new(alloc: Global) -> Self
        ensures { reading_seen result ≡ nothing }
    {
        Reading {
            place: Place::Start,
            ports: NameSet::new(alloc),
            buses: Buses::new(alloc),
            joins: Vec::new(alloc),
            instances: Instances::new(alloc),
            hand: Hand {
                cell: Text::new(alloc),
                name: Text::new(alloc),
                uses: Uses::new(alloc),
                pin: Text::new(alloc),
                left: Operand::Constant(false),
                operand: Operand::Constant(false),
            },
        }
    }

    fn add_port(&mut self, alloc: Global, name: &[u8]) -> Result<(), Refusal>
        ensures { Steps kind_reported (reading_seen self.new) result
            (add_port name.now (reading_seen self.old)) }
    {
        if self.ports.has(name) {
            return Err(Refusal::Kind(VerilogKind::DoubleName));
        }
        self.ports.add(alloc, name)?;
        Ok(())
    }

    fn declare(
        &mut self,
        alloc: Global,
        direction: Direction,
        range: Option<Range>,
        name: &[u8],
    ) -> Result<(), Refusal>
        ensures { Steps kind_reported (reading_seen self.new) result
            (declare_name direction range name.now (reading_seen self.old)) }
    {
        let buses = mem::replace(&mut self.buses, Buses::new(alloc));
        self.buses = buses.declare(alloc, direction, range, name, &self.ports)?;
        Ok(())
    }

    fn close(&self) -> Result<(), Refusal>
        ensures { Steps kind_reported (reading_seen self.now) result (close (reading_seen self.now)) }
    {
        let mut rest = self.ports.as_slice();
        'ports: while let [name, more @ ..] = rest {
            if !self.buses.has_direction(name) {
                return Err(Refusal::Kind(VerilogKind::Undeclared));
            }
            rest = more;
        }
        Ok(())
    }

    fn take_cell(&mut self, alloc: Global, name: &[u8]) -> Result<(), Refusal>
        ensures { Steps kind_reported (reading_seen self.new) result
            (take_cell name.now (reading_seen self.old)) }
    {
        self.hand.cell = fold(alloc, name)?;
        Ok(())
    }

    fn take_instance(&mut self, alloc: Global, name: &[u8]) -> Result<(), Refusal>
        ensures { Steps kind_reported (reading_seen self.new) result
            (take_instance name.now (reading_seen self.old)) }
    {
        if self.instances.has(name) {
            return Err(Refusal::Kind(VerilogKind::DoubleName));
        }
        self.hand.name = Text::from_bytes(alloc, name)?;
        self.hand.uses = Uses::new(alloc);
        Ok(())
    }

    fn take_pin(&mut self, alloc: Global, name: &[u8]) -> Result<(), Refusal>
        ensures { Steps kind_reported (reading_seen self.new) result
            (take_pin name.now (reading_seen self.old)) }
    {
        let pin = fold(alloc, name)?;
        if self.hand.uses.has(pin.as_bytes()) {
            return Err(Refusal::Kind(VerilogKind::DoubleName));
        }
        self.hand.pin = pin;
        Ok(())
    }

    fn refer(&mut self, name: &[u8]) -> Result<(), Refusal>
        ensures { Steps kind_reported (reading_seen self.new) result
            (refer name.now (reading_seen self.old)) }
    {
        let Some(place) = self.buses.find(name) else {
            return Err(Refusal::Kind(VerilogKind::Undeclared));
        };
        self.hand.operand = Operand::Whole(place);
        Ok(())
    }

    fn open_index(&self) -> Result<(), Refusal>
        ensures { Steps kind_reported (reading_seen self.now) result (open_index (reading_seen self.now)) }
    {
        if !is_vector(&self.buses, self.hand.operand) {
            return Err(Refusal::Kind(VerilogKind::BadRange));
        }
        Ok(())
    }

    fn select(&mut self, index: u32) -> Result<(), Refusal>
        ensures { Steps kind_reported (reading_seen self.new) result (select index (reading_seen self.old)) }
    {
        self.hand.operand = selected(&self.buses, self.hand.operand, index)?;
        Ok(())
    }

    fn use_pin(&mut self, alloc: Global, operand: Option<Operand>) -> Result<(), Refusal>
        ensures { Steps kind_reported (reading_seen self.new) result
            (Ok (with_use operand (reading_seen self.old))) }
    {
        let pin = mem::replace(&mut self.hand.pin, Text::new(alloc));
        let uses = mem::replace(&mut self.hand.uses, Uses::new(alloc));
        self.hand.uses = uses.with(alloc, pin, operand)?;
        Ok(())
    }

    fn connect(&mut self, alloc: Global) -> Result<(), Refusal>
        ensures { Steps kind_reported (reading_seen self.new) result (connect (reading_seen self.old)) }
    {
        if is_vector(&self.buses, self.hand.operand) {
            return Err(Refusal::Kind(VerilogKind::BadRange));
        }
        self.use_pin(alloc, Some(self.hand.operand))
    }

    fn join(&mut self) -> Result<(), Refusal>
        ensures { Steps kind_reported (reading_seen self.new) result (join (reading_seen self.old)) }
    {
        let join = Join {
            left: self.hand.left,
            right: self.hand.operand,
        };
        if width_of(&self.buses, join.left) != width_of(&self.buses, join.right) {
            return Err(Refusal::Kind(VerilogKind::BadRange));
        }
        self.joins.push(join)?;
        Ok(())
    }

    fn end_instance(&mut self, alloc: Global) -> Result<(), Refusal>
        ensures { Steps kind_reported (reading_seen self.new) result
            (Ok (end_instance (reading_seen self.old))) }
    {
        let instance = Instance {
            name: mem::replace(&mut self.hand.name, Text::new(alloc)),
            cell: mem::replace(&mut self.hand.cell, Text::new(alloc)),
            uses: mem::replace(&mut self.hand.uses, Uses::new(alloc)).into_list(),
        };
        let instances = mem::replace(&mut self.instances, Instances::new(alloc));
        self.instances = instances.with(alloc, instance)?;
        Ok(())
    }

    #[tactic(auto, unfolding(crate::specs::Reading::act))]
    fn act(&mut self, alloc: Global, action: Action, name: &[u8]) -> Result<(), Refusal>
        ensures { Steps kind_reported (reading_seen self.new) result
            (act action name.now (reading_seen self.old)) }
    {
        match action {
            Action::Nothing => Ok(()),
            Action::AddPort => self.add_port(alloc, name),
            Action::Declare(direction, range) => self.declare(alloc, direction, range, name),
            Action::Close => self.close(),
            Action::TakeCell => self.take_cell(alloc, name),
            Action::TakeInstance => self.take_instance(alloc, name),
            Action::TakePin => self.take_pin(alloc, name),
            Action::Refer => self.refer(name),
            Action::OpenIndex => self.open_index(),
            Action::Select(index) => self.select(index),
            Action::TakeConstant(value) => {
                self.hand.operand = Operand::Constant(value);
                Ok(())
            }
            Action::LeaveOpen => self.use_pin(alloc, None),
            Action::Connect => self.connect(alloc),
            Action::KeepLeft => {
                self.hand.left = self.hand.operand;
                Ok(())
            }
            Action::Join => self.join(),
            Action::EndInstance => self.end_instance(alloc),
        }
    }

    /// What the next token makes of what was read. The name is the token's where it is an identifier.
    #[tactic(auto, unfolding(crate::specs::Reading::lexeme_step))]
    pub(crate) fn step(&mut self, alloc: Global, lexeme: Lexeme, name: &[u8]) -> Result<(), Refusal>
        ensures { Steps kind_reported (reading_seen self.new) result
            (lexeme_step lexeme name.now (reading_seen self.old)) }
    {
        match row_of(self.place, lexeme) {
            Err(kind) => Err(Refusal::Kind(kind)),
            Ok(row) => {
                self.place = row.place;
                self.act(alloc, row.action, name)
            }
        }
    }

    /// What the next token of a text makes of what was read.
    pub(crate) fn token(&mut self, alloc: Global, bytes: &[u8], token: Token) -> Result<(), Refusal>
        requires within { token.end ≤ length bytes.now }
        requires order { token.start ≤ token.end }
        ensures { Steps kind_reported (reading_seen self.new) result
            (token_step bytes.now token (reading_seen self.old)) }
    {
        let text = &bytes[token.start..token.end];
        self.step(
            alloc,
            lexeme_of(token.kind, text),
            name_of(token.kind, text),
        )
    }
}
