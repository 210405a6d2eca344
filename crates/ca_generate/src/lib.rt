//! The work of test generation: a verdict for each defect of a chip, and the pairs of vectors that show it.
#![tactic(auto)]

mod bench;
mod fault;
mod generated;
mod laws;
mod marks;
mod ruled_out;
mod search_end;
mod watch;
mod work;

pub use bench::Bench;
pub use fault::{Aims, GenerateFault};
pub use generated::{Generated, generate, generate_knowing};
pub use laws::too_many_needs_exposable;
pub use ruled_out::rule_out;
pub use search_end::SearchEnd;
pub use watch::{Unwatched, Watch};
