//! The command `cellaware`: does what its words ask for, and ends with the exit status.
#![tactic(auto)]

mod progress;

ghost use Rattle.std.specs.Prelude.{◌<◌, length, IsTrue};

use crate::progress::Progress;
use ca_flow::{Fault, answer, tell};
use ca_store::{FileStore, StdSink};
use std::env;
use std::io::ErrorKind;
use std::process::ExitCode;

// The word before a command whose progress is to be reported.
const PROGRESS: &str = "--progress";

// The word before a table and a command.
const STRENGTHS: &str = "strengths";

// The commands whose progress is counted in pairs; that of the others is in defects.
const GRADE: &str = "grade";

const DIAGNOSE: &str = "diagnose";

fn main(rt: HostRuntime) -> ExitCode {
    let mut errors = StdSink::errors(rt.stderr());
    let status = match gather(rt) {
        Ok(words) => {
            let is_watched = is_first(&words, PROGRESS);
            let command = if is_watched { &words[1..] } else { &words[..] };
            let mut store = FileStore::new(rt);
            let mut output = StdSink::output(rt.stdout());
            let unit = unit_of(after_table(command));
            let mut progress = Progress::new(rt, is_watched, unit);
            answer(
                rt.alloc(),
                command,
                &mut store,
                &mut output,
                &mut errors,
                &mut progress,
            )
        }
        Err(fault) => tell(&fault, &mut errors),
    };
    ExitCode::from(status)
}

// The words after those that name a strength table.
fn after_table(words: &[String]) -> &[String] {
    if words.len() >= 2 && is_first(words, STRENGTHS) {
        &words[2..]
    } else {
        words
    }
}

// What the progress of a command is counted in.
fn unit_of(command: &[String]) -> &'static str {
    if is_first(command, GRADE) || is_first(command, DIAGNOSE) {
        "pairs"
    } else {
        "defects"
    }
}

// Whether this word is the first.
fn is_first(words: &[String], word: &str) -> bool
    ensures { IsTrue result → 0 < length words.now }
{
    match words.first() {
        Some(first) => first.as_str() == word,
        None => false,
    }
}

// The words after the program's name. A word that isn't UTF-8 is in no command.
fn gather(rt: HostRuntime) -> Result<Vec<String>, Fault> {
    let mut words = match env::args(&rt) {
        Ok(words) => words,
        Err(error) if error.kind() == ErrorKind::OutOfMemory => return Err(Fault::NoMemory),
        Err(_) => return Err(Fault::BadWords),
    };
    let _program = words.next();
    words.collect(rt.alloc()).map_err(|_| Fault::NoMemory)
}
