//! Which vectors all pairs of a small chip give at the pins of its instances, and the defects that no pair
//! detects since none of their exposing rows is among them.
#![tactic(auto)]

mod every_vector;
mod find;
mod fixed;
mod given;
mod inside;
mod known;
mod lane_region;
mod lane_spread;
mod lane_stays;
mod lane_tried;
mod lane_vectors;
mod laws;
mod lists;
mod masks;
mod region;
mod regions;
mod rows;
mod spread;
mod stays;
mod supports;
mod sure;
mod tried;
mod values;
mod vectors;
mod wanted;

pub use every_vector::EveryVector;
pub use laws::{impossible_is_untestable, outside_is_untestable};
pub use vectors::MOST_VECTOR_BITS;
