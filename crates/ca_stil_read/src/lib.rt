//! The reader of STIL texts of this project's form: the values that a text has, or the line of its first
//! faulty token.
#![tactic(auto)]

mod block;
mod chain;
mod due;
mod expect;
mod frame;
mod group;
mod groups;
mod laws;
mod line;
mod long;
mod name;
mod pair;
mod plan;
mod pool;
mod read;
mod signal;
mod stop;
mod token;
mod word;

pub use groups::{Groups, ScanGroups};
pub use laws::parts_are_of_the_form;
pub use pair::TextPair;
pub use read::{StilText, TextFault, read_text};
