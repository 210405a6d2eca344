//! The standard output and the standard error. Nothing is said about what they hold.
ghost use Rattle.std.specs.Prelude.{◌≡◌, ◌<◌, ◌^◌, None};

use crate::sink::Sink;
use crate::store::{Failed, next};
use std::io::{Stderr, Stdout, Write};

/// The standard output or the standard error, with no buffer.
#[derive(Drop)]
pub struct StdSink {
    stream: Stream,
    faults: u64,
    ghost in_range: { faults < 2 ^ 64 },
}

#[derive(Drop)]
enum Stream {
    Output(Stdout),
    Errors(Stderr),
}

impl StdSink {
    /// The standard output.
    pub fn output(stdout: Stdout) -> Self
        ensures { ⟦<StdSink as Sink>⟧.faults result ≡ 0 }
    {
        StdSink {
            stream: Stream::Output(stdout),
            faults: 0,
        }
    }

    /// The standard error.
    pub fn errors(stderr: Stderr) -> Self
        ensures { ⟦<StdSink as Sink>⟧.faults result ≡ 0 }
    {
        StdSink {
            stream: Stream::Errors(stderr),
            faults: 0,
        }
    }
}

impl Sink for StdSink {
    ghost bytes = { λ _. None };

    ghost faults = { λ sink. sink.faults };

    ghost bounded = { λ sink. sink.in_range };

    fn write(&mut self, from: &[u8]) -> Result<usize, Failed> {
        let faults = self.faults;
        let written = match &mut self.stream {
            Stream::Output(stdout) => stdout.write(from),
            Stream::Errors(stderr) => stderr.write(from),
        };
        match written {
            Ok(n) if n > 0 || from.is_empty() => Ok(n),
            _ => {
                self.faults = next(faults);
                Err(Failed)
            }
        }
    }
}
