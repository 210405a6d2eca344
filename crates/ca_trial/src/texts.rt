//! Texts as case files write them, and bytes as answers show them.

use ca_base::NoMemory;
use ca_lex::Text;
use itoa::Buffer;
use std::alloc::Global;

/// A text that a case file writes, and whether its last letter is a backslash by itself.
#[derive(Drop)]
pub(crate) struct Letters {
    pub(crate) text: Text,
    pub(crate) is_open: bool,
    pub(crate) is_broken: bool,
}

// What came before a letter.
#[derive(Clone, Copy)]
enum Place {
    Plain,
    Backslash,
    FirstDigit,
    SecondDigit(u8),
    Broken,
}

// The value of a digit of a number to the base 16.
fn digit(letter: u8) -> Option<u8> {
    match letter {
        b'0'..=b'9' => Some(letter - b'0'),
        b'a'..=b'f' => Some(letter - b'a' + 10),
        b'A'..=b'F' => Some(letter - b'A' + 10),
        _ => None,
    }
}

// The byte that a letter after a backslash stands for.
fn escape(letter: u8) -> Option<u8> {
    match letter {
        b'n' => Some(b'\n'),
        b'r' => Some(b'\r'),
        b't' => Some(b'\t'),
        b'\\' => Some(b'\\'),
        _ => None,
    }
}

// Takes the letter after a backslash.
fn take_escape(text: &mut Text, letter: u8) -> Result<Place, NoMemory> {
    if letter == b'x' {
        return Ok(Place::FirstDigit);
    }
    match escape(letter) {
        Some(byte) => {
            text.push(byte)?;
            Ok(Place::Plain)
        }
        None => Ok(Place::Broken),
    }
}

// Takes the second digit of a byte.
fn take_second(text: &mut Text, first: u8, letter: u8) -> Result<Place, NoMemory> {
    match digit(letter) {
        Some(second) => {
            text.push((first << 4) | second)?;
            Ok(Place::Plain)
        }
        None => Ok(Place::Broken),
    }
}

// Takes one more letter.
fn take_letter(text: &mut Text, place: Place, letter: u8) -> Result<Place, NoMemory> {
    match place {
        Place::Plain if letter == b'\\' => Ok(Place::Backslash),
        Place::Plain => {
            text.push(letter)?;
            Ok(Place::Plain)
        }
        Place::Backslash => take_escape(text, letter),
        Place::FirstDigit => match digit(letter) {
            Some(first) => Ok(Place::SecondDigit(first)),
            None => Ok(Place::Broken),
        },
        Place::SecondDigit(first) => take_second(text, first, letter),
        Place::Broken => Ok(Place::Broken),
    }
}

/// The bytes of a text in which `\n`, `\r`, `\t`, `\\` and `\xHH` stand for one byte each.
pub(crate) fn written(alloc: Global, letters: &str) -> Result<Letters, NoMemory> {
    let mut text = Text::new(alloc);
    let mut place = Place::Plain;
    for letter in letters.as_bytes() {
        place = take_letter(&mut text, place, *letter)?;
    }
    Ok(Letters {
        text,
        is_open: matches!(place, Place::Backslash),
        is_broken: matches!(
            place,
            Place::FirstDigit | Place::SecondDigit(_) | Place::Broken
        ),
    })
}

/// Appends a number.
pub(crate) fn push_number(text: &mut Text, number: usize) -> Result<(), NoMemory> {
    let mut buffer = Buffer::new();
    text.append(buffer.format(number).as_bytes())
}

/// Appends a piece in which `#` and a digit stand for the number and as many more.
pub(crate) fn push_copy(text: &mut Text, piece: &[u8], number: usize) -> Result<(), NoMemory> {
    let mut is_marked = false;
    for letter in piece {
        if is_marked {
            push_marked(text, *letter, number)?;
            is_marked = false;
        } else if *letter == b'#' {
            is_marked = true;
        } else {
            text.push(*letter)?;
        }
    }
    Ok(())
}

// Appends what `#` and this letter stand for.
fn push_marked(text: &mut Text, letter: u8, number: usize) -> Result<(), NoMemory> {
    match digit(letter) {
        Some(more) => push_number(text, number.saturating_add(usize::from(more))),
        None => {
            text.push(b'#')?;
            text.push(letter)
        }
    }
}

// The letter of a digit to the base 16.
fn letter_of(digit: u8) -> u8 {
    if digit < 10 {
        b'0'.saturating_add(digit)
    } else {
        b'a'.saturating_add(digit.saturating_sub(10))
    }
}

// Appends one byte as it is shown.
fn show_byte(text: &mut Text, byte: u8) -> Result<(), NoMemory> {
    match byte {
        b'\\' => text.append(b"\\\\"),
        32..=126 => text.push(byte),
        _ => {
            text.append(b"\\x")?;
            text.push(letter_of(byte >> 4))?;
            text.push(letter_of(byte & 15))
        }
    }
}

/// Appends the lines of these bytes, each after a mark. A last line that has no line feed ends with a
/// backslash.
pub(crate) fn show_lines(text: &mut Text, mark: &[u8], bytes: &[u8]) -> Result<(), NoMemory> {
    let mut is_begun = false;
    for byte in bytes {
        if !is_begun {
            text.append(mark)?;
        }
        is_begun = *byte != b'\n';
        if is_begun {
            show_byte(text, *byte)?;
        } else {
            text.push(b'\n')?;
        }
    }
    if is_begun {
        text.append(b"\\\n")?;
    }
    Ok(())
}

/// Appends one line after a mark.
pub(crate) fn show_line(text: &mut Text, mark: &[u8], line: &[u8]) -> Result<(), NoMemory> {
    text.append(mark)?;
    for byte in line {
        show_byte(text, *byte)?;
    }
    text.push(b'\n')
}
