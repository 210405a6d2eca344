//! Which bench is for which defect.

use ca_base::List;
use ca_flat::ChipDefect;

/// A defect, the bench that is for it, and its place in that bench's list.
#[derive(Clone, Copy, Debug)]
pub struct Station {
    pub part: usize,
    pub place: usize,
    pub defect: ChipDefect,
}

/// A station for each defect of a task, in order.
pub type Stations = List<Station>;
