//! The core of a linked chip, on which the flat network is built, and the view: chip and core as tables, the
//! one picture of a chip that the simulator, the guide and the search have.
#![tactic(auto)]

mod constants;
mod ends;
mod laws;
mod links;
mod nets;
mod pins;
mod places;
mod readers;
mod view;

pub use constants::FixedNet;
pub use laws::core_is_chip;
pub use nets::{CoreNets, core_nets};
pub use view::View;
