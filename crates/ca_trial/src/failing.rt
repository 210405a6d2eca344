//! A command with each first part of a file, and with each call of a kind failing once.

use crate::setup::{FailedCall, Put, Setup};
use crate::texts::push_number;
use crate::trial::{Commands, Left, left_by};
use ca_base::NoMemory;
use ca_lex::Text;
use ca_store::StoreCall;
use std::alloc::Global;

// No kind of call is tried more often.
const MOST: u32 = 100_000;

// How many runs ended with each of the two statuses of texts that are read.
#[derive(Clone, Copy)]
struct Counts {
    accepted: usize,
    refused: usize,
}

/// Appends how many of the first parts of a text are accepted and refused. One that is
/// neither is reported by itself.
pub(crate) fn report_cuts<C: Commands>(
    alloc: Global,
    commands: &mut C,
    text: &mut Text,
    setup: &Setup,
    words: &[String],
    put: Put<'_>,
) -> Result<(), NoMemory> {
    let mut counts = Counts {
        accepted: 0,
        refused: 0,
    };
    for length in 0..put.text.len() {
        let part = Put {
            name: put.name,
            text: &put.text[..length],
        };
        let status = status_of(alloc, commands, setup, words, part)?;
        counts = count_status(text, counts, length, status)?;
    }
    push_number(text, counts.accepted)?;
    text.append(b" with status 0, ")?;
    push_number(text, counts.refused)?;
    text.append(b" with status 2\n")
}

// The status of the command with this text.
fn status_of<C: Commands>(
    alloc: Global,
    commands: &mut C,
    setup: &Setup,
    words: &[String],
    put: Put<'_>,
) -> Result<u8, NoMemory> {
    let left = left_by(alloc, commands, setup, words, Some(put), None)?;
    let status = left.status;
    drop(left);
    Ok(status)
}

// Counts a status.
fn count_status(
    text: &mut Text,
    counts: Counts,
    length: usize,
    status: u8,
) -> Result<Counts, NoMemory> {
    let Counts { accepted, refused } = counts;
    match status {
        0 => Ok(Counts {
            accepted: accepted.saturating_add(1),
            refused,
        }),
        2 => Ok(Counts {
            accepted,
            refused: refused.saturating_add(1),
        }),
        _ => {
            text.append(b"status ")?;
            push_number(text, usize::from(status))?;
            text.append(b" for this many bytes: ")?;
            push_number(text, length)?;
            text.push(b'\n')?;
            Ok(counts)
        }
    }
}

/// Appends how many runs there are in which a call of this kind fails, up to the first run that has fewer. In
/// each the file is named, nothing is printed, and the files are as they are to be; one that is not
/// so is reported by itself.
pub(crate) fn report_failures<C: Commands>(
    alloc: Global,
    commands: &mut C,
    text: &mut Text,
    setup: &Setup,
    words: &[String],
    call: StoreCall,
) -> Result<(), NoMemory> {
    let whole = left_by(alloc, commands, setup, words, None, None)?;
    let reported = report_runs(alloc, commands, text, setup, words, call, &whole);
    drop(whole);
    reported
}

// The same, beside what the command leaves where nothing fails.
fn report_runs<C: Commands>(
    alloc: Global,
    commands: &mut C,
    text: &mut Text,
    setup: &Setup,
    words: &[String],
    call: StoreCall,
    whole: &Left,
) -> Result<(), NoMemory> {
    for number in 1..MOST {
        let failed = FailedCall { call, number };
        if !has_failed(alloc, commands, text, setup, words, failed, whole)? {
            push_number(text, (number as usize).saturating_sub(1))?;
            return text.append(b" runs as promised\n");
        }
    }
    text.append(b"too many runs\n")
}

// Whether there is such a call. Where the run isn't as promised its number is reported.
fn has_failed<C: Commands>(
    alloc: Global,
    commands: &mut C,
    text: &mut Text,
    setup: &Setup,
    words: &[String],
    failed: FailedCall,
    whole: &Left,
) -> Result<bool, NoMemory> {
    let left = left_by(alloc, commands, setup, words, None, Some(failed))?;
    let has_failed = left.store.faults() > 0;
    let is_right = is_as_promised(setup, words, whole, &left);
    drop(left);
    if has_failed && !is_right {
        text.append(b"not as promised: ")?;
        push_number(text, failed.number as usize)?;
        text.push(b'\n')?;
    }
    Ok(has_failed)
}

// The name of the file in the line of the fault.
fn failed_file(left: &Left) -> Option<&str> {
    let reported = str::from_utf8(left.errors.bytes()).ok()?;
    let (_, name) = reported.split_once("cellaware: file fault: ")?;
    let (name, _) = name.split_once("\n")?;
    Some(name)
}

// Whether a run in which a call failed ended with the status for that, printed nothing, and left the files as
// it is to.
fn is_as_promised(setup: &Setup, words: &[String], whole: &Left, left: &Left) -> bool {
    if left.status != 4 || !left.output.bytes().is_empty() {
        return false;
    }
    match failed_file(left) {
        Some(name) => are_files_right(setup, words, name, whole, left),
        None => false,
    }
}

// Whether the files that the words name before the failed one are as where nothing fails, those after it as
// they were, and it itself is as it was or holds a first part of what it is to hold. The other files are as
// they were.
fn are_files_right(
    setup: &Setup,
    words: &[String],
    failed: &str,
    whole: &Left,
    left: &Left,
) -> bool {
    let mut is_met = false;
    for word in words {
        let is_failed = word.as_str() == failed;
        is_met = is_met || is_failed;
        if !is_file_right(setup, word, is_failed, is_met, whole, left) {
            return false;
        }
    }
    is_met && are_others_kept(setup, words, left)
}

// Whether one of these files is so.
fn is_file_right(
    setup: &Setup,
    name: &str,
    is_failed: bool,
    is_met: bool,
    whole: &Left,
    left: &Left,
) -> bool {
    let held = left.store.bytes(name);
    if is_failed && is_part(held, whole.store.bytes(name)) {
        return true;
    }
    if is_met {
        held == setup.text_of(name)
    } else {
        held == whole.store.bytes(name)
    }
}

// Whether a file holds a first part of this text.
fn is_part(held: Option<&[u8]>, whole: Option<&[u8]>) -> bool {
    match (held, whole) {
        (Some(held), Some(whole)) => whole.starts_with(held),
        _ => false,
    }
}

// Whether the files that no word names are as they were.
fn are_others_kept(setup: &Setup, words: &[String], left: &Left) -> bool {
    for file in &setup.files {
        let is_word = words.iter().any(|word| word.as_str() == file.name.as_str());
        if !is_word && left.store.bytes(&file.name) != setup.text_of(&file.name) {
            return false;
        }
    }
    true
}
