//! The answer of a command: its status, the lines of both outputs, and the files that it added or changed.

use crate::setup::{Put, Setup, Show};
use crate::texts::{push_number, show_line, show_lines};
use crate::trial::Left;
use ca_base::NoMemory;
use ca_lex::Text;

/// Appends the answer of a command.
pub(crate) fn report(
    text: &mut Text,
    setup: &Setup,
    words: &[String],
    put: Option<Put<'_>>,
    left: &Left,
) -> Result<(), NoMemory> {
    text.append(b"status ")?;
    push_number(text, usize::from(left.status))?;
    text.push(b'\n')?;
    show_lines(text, b"out ", left.output.bytes())?;
    show_lines(text, b"err ", left.errors.bytes())?;
    report_changed(text, setup, put, left)?;
    report_added(text, setup, words, put, left)
}

/// What a file holds before a command.
pub(crate) fn before<'a>(setup: &'a Setup, put: Option<Put<'a>>, name: &str) -> Option<&'a [u8]> {
    match put {
        Some(put) if put.name == name => Some(put.text),
        _ => setup.text_of(name),
    }
}

// Appends the names of the files that hold something else than before. A file with a second text is named
// once, since it is looked at where it occurs last.
fn report_changed(
    text: &mut Text,
    setup: &Setup,
    put: Option<Put<'_>>,
    left: &Left,
) -> Result<(), NoMemory> {
    for place in 0..setup.files.len() {
        let name = &setup.files[place].name;
        let is_last = !is_named(setup, place, name);
        if is_last && left.store.bytes(name) != before(setup, put, name) {
            report_file(text, setup, b"changed ", name, left)?;
        }
    }
    Ok(())
}

// Whether a file after this place has the name.
fn is_named(setup: &Setup, place: usize, name: &str) -> bool {
    for (other, file) in setup.files.iter().enumerate() {
        if other > place && file.name.as_str() == name {
            return true;
        }
    }
    false
}

// Appends the names of new files. A command names each file that it makes.
fn report_added(
    text: &mut Text,
    setup: &Setup,
    words: &[String],
    put: Option<Put<'_>>,
    left: &Left,
) -> Result<(), NoMemory> {
    for word in words {
        if before(setup, put, word).is_none() && left.store.bytes(word).is_some() {
            report_file(text, setup, b"added ", word, left)?;
        }
    }
    Ok(())
}

// Appends a file's name, and the lines of it that are to be shown.
fn report_file(
    text: &mut Text,
    setup: &Setup,
    what: &[u8],
    name: &str,
    left: &Left,
) -> Result<(), NoMemory> {
    text.append(what)?;
    text.append(name.as_bytes())?;
    text.push(b'\n')?;
    let Some(bytes) = left.store.bytes(name) else {
        return Ok(());
    };
    for show in &setup.shows {
        if show.name.as_str() == name {
            report_lines(text, show, bytes)?;
        }
    }
    Ok(())
}

// Appends the lines of a file that are to be shown.
fn report_lines(text: &mut Text, show: &Show, bytes: &[u8]) -> Result<(), NoMemory> {
    if show.lines.is_empty() {
        return show_lines(text, b"| ", bytes);
    }
    let mut count = 0_usize;
    for line in str::from_utf8(bytes).unwrap_or("").lines() {
        count = count.saturating_add(1);
        if show.lines.contains(&count) {
            show_line(text, b"| ", line.as_bytes())?;
        }
    }
    text.append(b"lines ")?;
    push_number(text, count)?;
    text.push(b'\n')
}
