//! The lines of a case file that say what comes before a command.

use crate::setup::{FailedCall, Setup, Show};
use crate::stop::Stop;
use crate::texts::{push_copy, written};
use ca_lex::Text;
use ca_store::{FileStore, ReadFault, StoreCall, read_file};
use std::alloc::Global;

// The greatest number of bytes of a file that is read.
const MOST_BYTES: usize = 16_777_216;

// The greatest number of copies of a piece.
const MOST_COPIES: usize = 1_048_576;

// The greatest number of bytes that a text is filled up to.
const MOST_FILLED: usize = 268_435_456;

/// Adds what a line says to the text of the last file.
pub(crate) fn add_text(
    rt: HostRuntime,
    setup: &mut Setup,
    word: &str,
    rest: &str,
) -> Result<(), Stop> {
    let alloc = rt.alloc();
    match word {
        "|" => add_line(alloc, setup, rest),
        "from" => {
            let text = data_file(rt, rest)?;
            Ok(setup.append(text.as_bytes())?)
        }
        "repeat" => add_copies(alloc, setup, rest),
        _ => fill(alloc, setup, rest),
    }
}

/// The text of a file that lies beside the case files.
pub(crate) fn data_file(rt: HostRuntime, name: &str) -> Result<Text, Stop> {
    let mut store = FileStore::new(rt);
    let read = read_file(rt.alloc(), &mut store, name, MOST_BYTES);
    drop(store);
    match read {
        Ok(text) => Ok(text),
        Err(ReadFault::NoMemory) => Err(Stop::NoMemory),
        Err(_) => Err(Stop::Form),
    }
}

// A line, without its line feed where a backslash ends it.
fn add_line(alloc: Global, setup: &mut Setup, letters: &str) -> Result<(), Stop> {
    let line = written(alloc, letters)?;
    if line.is_broken {
        return Err(Stop::Form);
    }
    setup.append(line.text.as_bytes())?;
    if !line.is_open {
        setup.append(b"\n")?;
    }
    Ok(())
}

/// The bytes of a text that has a whole end.
pub(crate) fn whole_text(alloc: Global, letters: &str) -> Result<Text, Stop> {
    let line = written(alloc, letters)?;
    if line.is_broken || line.is_open {
        return Err(Stop::Form);
    }
    Ok(line.text)
}

// A number of at most this size.
fn number_of(word: &str, most: usize) -> Result<usize, Stop> {
    match word.parse::<usize>() {
        Ok(number) if number <= most => Ok(number),
        _ => Err(Stop::Form),
    }
}

// Copies of a piece, as many as the line says.
fn add_copies(alloc: Global, setup: &mut Setup, rest: &str) -> Result<(), Stop> {
    let (word, letters) = rest.split_once(' ').ok_or(Stop::Form)?;
    let count = number_of(word, MOST_COPIES)?;
    let piece = whole_text(alloc, letters)?;
    let mut copies = Text::new(alloc);
    for number in 0..count {
        push_copy(&mut copies, piece.as_bytes(), number)?;
    }
    Ok(setup.append(copies.as_bytes())?)
}

// Copies of a letter, up to as many bytes as the line says.
fn fill(alloc: Global, setup: &mut Setup, rest: &str) -> Result<(), Stop> {
    let (word, letters) = rest.split_once(' ').ok_or(Stop::Form)?;
    let size = number_of(word, MOST_FILLED)?;
    let piece = whole_text(alloc, letters)?;
    let [letter] = piece.as_bytes() else {
        return Err(Stop::Form);
    };
    Ok(setup.fill(size, *letter)?)
}

/// Sets a limit, a call that fails, or lines that are shown.
pub(crate) fn set(alloc: Global, setup: &mut Setup, word: &str, rest: &str) -> Result<(), Stop> {
    match word {
        "piece" => setup.limits.piece = number_of(rest, MOST_BYTES)?,
        "space" => setup.limits.space = number_of(rest, MOST_BYTES)?,
        "output" => setup.limits.output = number_of(rest, MOST_BYTES)?,
        "errors" => setup.limits.errors = number_of(rest, MOST_BYTES)?,
        "fails" => add_failure(setup, rest)?,
        "show" => add_show(alloc, setup, rest)?,
        _ => return Err(Stop::Form),
    }
    Ok(())
}

/// The kind of call of this name.
pub(crate) fn call_of(word: &str) -> Result<StoreCall, Stop> {
    match word {
        "open" => Ok(StoreCall::Open),
        "read" => Ok(StoreCall::Read),
        "create" => Ok(StoreCall::Create),
        "write" => Ok(StoreCall::Write),
        "close" => Ok(StoreCall::Close),
        _ => Err(Stop::Form),
    }
}

// A call that fails: its kind and its number.
fn add_failure(setup: &mut Setup, rest: &str) -> Result<(), Stop> {
    let (word, number) = rest.split_once(' ').ok_or(Stop::Form)?;
    let call = call_of(word)?;
    match number.parse::<u32>() {
        Ok(number) => Ok(setup.fails.push(FailedCall { call, number })?),
        Err(_) => Err(Stop::Form),
    }
}

// A file, and the numbers of the lines of it that are shown.
fn add_show(alloc: Global, setup: &mut Setup, rest: &str) -> Result<(), Stop> {
    let (name, numbers) = rest.split_once(' ').unwrap_or((rest, ""));
    let name = String::from_str(alloc, name)?;
    let lines = numbers_of(alloc, numbers)?;
    Ok(setup.shows.push(Show { name, lines })?)
}

// The numbers of a line, with a blank between two.
fn numbers_of(alloc: Global, line: &str) -> Result<Vec<usize>, Stop> {
    let mut numbers = Vec::new(alloc);
    for word in line.split_whitespace() {
        numbers.push(number_of(word, MOST_BYTES)?)?;
    }
    Ok(numbers)
}
