//! Sets of different names in the order in which they were added, for readers of texts.
#![tactic(auto)]

mod name_set;

pub use name_set::NameSet;
