//! What a tester has logged.

use ca_base::List;

/// At the strobe of this pair this observed output had the wrong value. Both are counted from 0.
#[derive(Clone, Copy, Debug, PartialEq, Eq, Hash)]
pub struct LogRecord {
    pub pair: u32,
    pub output: u32,
}

/// The places at which a chip failed, in the order in which they were logged.
pub type Log = List<LogRecord>;
