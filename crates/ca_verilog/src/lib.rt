//! The gate netlist: what a text reads as, or its first faulty token.
#![tactic(auto)]

mod bus;
mod declaration_rows;
mod fault;
mod instance;
mod laws;
mod lexeme;
mod netlist;
mod pin_rows;
mod raw;
mod reading;
mod table;
mod text;

pub use fault::{VerilogFault, VerilogKind};
pub use laws::{
    first_faulty_token, grammar_of_the_table, module_is_refused_for_names_alone, number_of_digits,
    read_text_is_a_module,
};
pub use netlist::MOST_BITS;
pub use raw::{
    Places, RawBit, RawBus, RawBuses, RawInstance, RawInstances, RawJoin, RawJoins, RawNetlist,
    RawSpan, RawUse, RawUses,
};
pub use table::Direction;
pub use text::{MOST_INSTANCES, read_netlist};
