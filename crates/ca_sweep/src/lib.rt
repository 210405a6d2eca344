//! Sweeps: the last values of the nets after an instance some of whose output pins are flipped, the first
//! observed output at which that is seen, and where a pair so detects a defect.
#![tactic(auto)]

mod cells;
mod clear;
mod codes;
mod faulty;
mod finder;
mod firsts;
mod flip_finder;
mod hand;
mod lane_find;
mod lane_goods;
mod lane_masks;
mod lane_run;
mod lane_sweep;
mod lane_values;
mod laned_finder;
mod lanes;
mod looks;
mod pinned;
mod row;
mod rows;
mod run;
mod seen;
mod segments;
mod spans;
mod sweep;
mod values;

pub use cells::{Tables, order_of, tables_of};
pub use clear::clear_instances;
pub use finder::Finder;
pub use flip_finder::FlipFinder;
pub use lane_sweep::LaneSweep;
pub use laned_finder::LanedFinder;
pub use seen::{Flips, Seen};
pub use spans::{DefectSpans, SpanFound};
pub use sweep::Sweep;
