//! The lines of a case file that run commands.

use crate::answers::report;
use crate::failing::{report_cuts, report_failures};
use crate::lines::{call_of, whole_text};
use crate::setup::{Put, Setup};
use crate::stop::Stop;
use crate::trial::{Commands, left_by};
use ca_base::NoMemory;
use ca_lex::Text;
use std::alloc::Global;

/// The words of a command, with one blank between two.
pub(crate) fn words_of(alloc: Global, letters: &str) -> Result<Vec<String>, Stop> {
    let line = whole_text(alloc, letters)?;
    let Ok(line) = str::from_utf8(line.as_bytes()) else {
        return Err(Stop::Form);
    };
    let mut words = Vec::new(alloc);
    for word in line.split(' ') {
        words.push(String::from_str(alloc, word)?)?;
    }
    Ok(words)
}

/// Plays a line: the command as it stands, again with another text of a file, with a piece of it altered,
/// with each first part of it, or with each call of a kind failing once.
pub(crate) fn play<C: Commands>(
    alloc: Global,
    commands: &mut C,
    answers: &mut Text,
    setup: &Setup,
    words: &[String],
    word: &str,
    rest: &str,
) -> Result<(), Stop> {
    match word {
        "run" => Ok(run(alloc, commands, answers, setup, words, None)?),
        "again" => again(alloc, commands, answers, setup, words, rest),
        "alter" => alter(alloc, commands, answers, setup, words, rest),
        "cut" => cut(alloc, commands, answers, setup, words, rest),
        _ => {
            let call = call_of(rest)?;
            Ok(report_failures(alloc, commands, answers, setup, words, call)?)
        }
    }
}

// Runs the command and reports what it leaves.
fn run<C: Commands>(
    alloc: Global,
    commands: &mut C,
    answers: &mut Text,
    setup: &Setup,
    words: &[String],
    put: Option<Put<'_>>,
) -> Result<(), NoMemory> {
    let left = left_by(alloc, commands, setup, words, put, None)?;
    let reported = report(answers, setup, words, put, &left);
    drop(left);
    reported
}

// The command with another text of a file, which has one.
fn again<C: Commands>(
    alloc: Global,
    commands: &mut C,
    answers: &mut Text,
    setup: &Setup,
    words: &[String],
    rest: &str,
) -> Result<(), Stop> {
    let (name, letters) = rest.split_once(' ').unwrap_or((rest, ""));
    let text = whole_text(alloc, letters)?;
    if setup.text_of(name).is_none() {
        return Err(Stop::Form);
    }
    let put = Put {
        name,
        text: text.as_bytes(),
    };
    Ok(run(alloc, commands, answers, setup, words, Some(put))?)
}

// The command with one piece of a file, which occurs there once, in place of another.
fn alter<C: Commands>(
    alloc: Global,
    commands: &mut C,
    answers: &mut Text,
    setup: &Setup,
    words: &[String],
    rest: &str,
) -> Result<(), Stop> {
    let (name, change) = rest.split_once(' ').ok_or(Stop::Form)?;
    let (old, new) = change.split_once(" =>").ok_or(Stop::Form)?;
    let old = whole_text(alloc, old)?;
    let new = whole_text(alloc, new.strip_prefix(' ').unwrap_or(new))?;
    let Some(whole) = setup.text_of(name) else {
        return Err(Stop::Form);
    };
    let text = altered(alloc, whole, old.as_bytes(), new.as_bytes())?;
    let put = Put {
        name,
        text: text.as_bytes(),
    };
    Ok(run(alloc, commands, answers, setup, words, Some(put))?)
}

// A text with one piece in place of another, which occurs there once.
fn altered(alloc: Global, whole: &[u8], old: &[u8], new: &[u8]) -> Result<Text, Stop> {
    let (Ok(whole), Ok(old)) = (str::from_utf8(whole), str::from_utf8(old)) else {
        return Err(Stop::Form);
    };
    let (before, after) = whole.split_once(old).ok_or(Stop::Form)?;
    if old.is_empty() || after.contains(old) {
        return Err(Stop::Form);
    }
    let mut text = Text::from_bytes(alloc, before.as_bytes())?;
    text.append(new)?;
    text.append(after.as_bytes())?;
    Ok(text)
}

// The command with each first part of a file.
fn cut<C: Commands>(
    alloc: Global,
    commands: &mut C,
    answers: &mut Text,
    setup: &Setup,
    words: &[String],
    name: &str,
) -> Result<(), Stop> {
    match setup.text_of(name) {
        Some(text) => Ok(report_cuts(alloc, commands, answers, setup, words, Put { name, text })?),
        None => Err(Stop::Form),
    }
}
