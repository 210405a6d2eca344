//! Libraries: names in any case, names that are there, and a full one.

use crate::examples::{WEAK_NAND2, raw_of};
use crate::shapes::{DRIVEN, SOUND, shaped};
use ca_cell::{CellRule, Entry, Library, LibraryFault, MOST_CELLS, RawCell};
use ca_lex::Text;
use std::alloc::Global;
use std::process::Abort;

// Adds the entry of a subcircuit under a name.
fn add_raw(
    rt: &impl Abort,
    alloc: Global,
    library: &mut Library,
    name: &[u8],
    raw: RawCell,
) -> Result<(), LibraryFault> {
    assert!(rt; raw.is_raw());
    let entry = Entry::of(alloc, raw).expect(rt, "memory");
    library.add(Text::from_bytes(alloc, name).expect(rt, "memory"), entry)
}

// Names, and whether a library of a NAND and of a cell that breaks a rule has a cell of the name that keeps
// the rules.
static FOUND: [(&[u8], Option<bool>); 6] = [
    (b"NAND2", Some(true)),
    (b"nand2", Some(true)),
    (b"Nand2", Some(true)),
    (b"TG", Some(false)),
    (b"tg", Some(false)),
    (b"NAND3", None),
];

// A library of a NAND and of a cell that breaks a rule.
fn two_cells(rt: &impl Abort, alloc: Global) -> Library {
    let mut library = Library::new(alloc).expect(rt, "memory");
    add_raw(
        rt,
        alloc,
        &mut library,
        b"Nand2",
        raw_of(rt, alloc, &WEAK_NAND2),
    )
    .expect(rt, "room");
    add_raw(rt, alloc, &mut library, b"TG", shaped(rt, alloc, DRIVEN)).expect(rt, "room");
    library
}

// What is found under a name: whether a cell keeps the rules.
fn found(library: &Library, name: &[u8]) -> Option<bool> {
    match library.get(name) {
        Some(Entry::Sound(_)) => Some(true),
        Some(Entry::Refused(_, CellRule::InputDrivesChannel { .. })) => Some(false),
        Some(Entry::Refused(_, _)) | None => None,
    }
}

#[test]
fn names_are_found_in_any_case(rt: HostRuntime) {
    let library = two_cells(&rt, rt.alloc());
    assert_eq!(rt; library.len(), 2);
    for (name, expected) in &FOUND {
        assert_eq!(rt; found(&library, name), *expected, "{name:?}");
    }
    assert!(rt; library.get(b"NAND3").is_none());
    drop(library);
}

#[test]
fn a_name_in_another_case_is_there(rt: HostRuntime) {
    let alloc = rt.alloc();
    let mut library = two_cells(&rt, alloc);
    let fault = add_raw(
        &rt,
        alloc,
        &mut library,
        b"nAND2",
        raw_of(&rt, alloc, &WEAK_NAND2),
    );
    assert_eq!(rt; fault, Err(LibraryFault::DoubleName));
    assert_eq!(rt; library.len(), 2);
    drop(library);
}

// A library with the most cells that it may have.
fn full_library(rt: &impl Abort, alloc: Global) -> Library {
    let mut library = Library::new(alloc).expect(rt, "memory");
    for i in 0..MOST_CELLS {
        let name = [b'0' + (i / 32) as u8, b'0' + (i % 32) as u8];
        add_raw(rt, alloc, &mut library, &name, shaped(rt, alloc, SOUND)).expect(rt, "room");
    }
    library
}

#[test]
fn a_full_library_takes_no_more(rt: HostRuntime) {
    let alloc = rt.alloc();
    let mut library = full_library(&rt, alloc);
    let fault = add_raw(&rt, alloc, &mut library, b"A", shaped(&rt, alloc, SOUND));
    assert_eq!(rt; fault, Err(LibraryFault::TooManyCells { count: 1025 }));
    let fault = add_raw(&rt, alloc, &mut library, b"00", shaped(&rt, alloc, SOUND));
    assert_eq!(rt; fault, Err(LibraryFault::DoubleName));
    assert_eq!(rt; library.len(), 1024);
    drop(library);
}
