//! How far long work is, reported while it goes on.

use ca_flow::Watch;
use std::io::{Stderr, Write};
use std::time::Instant;

// How many seconds a line stays at least.
const PAUSE: u64 = 1;

// As long as a line may be.
const BLANK: &[u8] = b"                                                            \r";

/// Writes how many defects, or pairs, have had their turn on one line of the standard error, at most once a
/// second, and clears it at the end. Where it isn't wanted, or the clock or the output fails, it writes
/// nothing.
#[derive(Drop)]
pub(crate) struct Progress {
    rt: HostRuntime,
    errors: Stderr,
    // when a line was written last, or the work begun
    before: Option<Instant>,
    is_shown: bool,
    unit: &'static str,
}

impl Progress {
    /// The work begins now. Nothing is written unless it is wanted.
    pub(crate) fn new(rt: HostRuntime, is_wanted: bool, unit: &'static str) -> Self {
        let before = if is_wanted {
            Instant::now(&rt).ok()
        } else {
            None
        };
        Progress {
            rt,
            errors: rt.stderr(),
            before,
            is_shown: false,
            unit,
        }
    }

    // Whether a line was written a second ago or more.
    fn is_due(&self) -> bool {
        match self.before {
            Some(before) => match before.elapsed(&self.rt) {
                Ok(gone) => gone.as_secs() >= PAUSE,
                Err(_) => false,
            },
            None => false,
        }
    }

    // Clears the line, if there is one.
    fn clear(&mut self) {
        if self.is_shown {
            let _cleared = self.errors.write_all(BLANK);
            self.is_shown = false;
        }
    }
}

impl Watch for Progress {
    fn reported(&mut self, done: usize, of: usize) {
        if done >= of {
            self.clear();
        } else if self.is_due() {
            let unit = self.unit;
            let _written = write!(self.errors, "{done} of {of} {unit}\r");
            self.is_shown = true;
            self.before = Instant::now(&self.rt).ok();
        }
    }
}
