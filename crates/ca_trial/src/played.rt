//! All case files that the words of a program name.

use crate::lines::data_file;
use crate::script::Script;
use crate::stop::Stop;
use crate::texts::push_number;
use crate::trial::Commands;
use ca_base::NoMemory;
use ca_lex::Text;
use ca_store::{StdSink, write_all};
use std::env;

/// Plays the case files that the program's words name, one after another, and prints their answers. The
/// answer is the exit status: 0, or 1 where a case file isn't played to its end or not all is printed.
pub fn play_files<C: Commands>(rt: HostRuntime, commands: &mut C) -> u8 {
    let Ok(mut words) = env::args(&rt) else {
        return 1;
    };
    let _program = words.next();
    let mut status = 0;
    for name in words {
        if !prints_file(rt, commands, &name) {
            status = 1;
        }
    }
    status
}

// Plays a case file and prints its answers. The answer is whether it was played to its end, and all printed.
fn prints_file<C: Commands>(rt: HostRuntime, commands: &mut C, name: &str) -> bool {
    let mut script = Script::new(rt);
    let is_whole = match play_file(rt, commands, name, &mut script) {
        Ok(()) => true,
        Err(broken) => {
            let _reported = report_broken(&mut script.answers, name, broken);
            false
        }
    };
    let mut output = StdSink::output(rt.stdout());
    let is_printed = write_all(&mut output, script.answers.as_bytes()).is_ok();
    drop(script);
    is_whole && is_printed
}

// Where a case file isn't played on, by its line counted from 1, and why. It is 0 where the file isn't read.
#[derive(Clone, Copy)]
struct Broken {
    line: usize,
    stop: Stop,
}

// Plays a case file.
fn play_file<C: Commands>(
    rt: HostRuntime,
    commands: &mut C,
    name: &str,
    script: &mut Script,
) -> Result<(), Broken> {
    let text = match data_file(rt, name) {
        Ok(text) => text,
        Err(stop) => return Err(Broken { line: 0, stop }),
    };
    match str::from_utf8(text.as_bytes()) {
        Ok(text) => play_text(commands, text, script),
        Err(_) => Err(Broken {
            line: 0,
            stop: Stop::Form,
        }),
    }
}

// Plays the text of a case file, whose last line has a line feed too.
fn play_text<C: Commands>(commands: &mut C, text: &str, script: &mut Script) -> Result<(), Broken> {
    let mut number = 0_usize;
    for line in text.split('\n') {
        number = number.saturating_add(1);
        if let Err(stop) = script.take(commands, line) {
            return Err(Broken { line: number, stop });
        }
    }
    match script.end() {
        Ok(()) => Ok(()),
        Err(stop) => Err(Broken { line: number, stop }),
    }
}

// Appends where a case file isn't played on.
fn report_broken(text: &mut Text, name: &str, broken: Broken) -> Result<(), NoMemory> {
    text.append(b"broken: ")?;
    text.append(name.as_bytes())?;
    text.append(b", line ")?;
    push_number(text, broken.line)?;
    match broken.stop {
        Stop::Form => text.append(b"\n"),
        Stop::NoMemory => text.append(b": out of memory\n"),
    }
}
