//! What the doubles in memory give and refuse.

ghost use Rattle.std.specs.Prelude.{◌≡◌, ◌<◌, IfOk};
ghost use Rattle.ca_store.specs.Store.{Nothing};
ghost use Rattle.ca_store.specs.MemStore.{opened_by};

use ca_base::NoMemory;
use ca_lex::Text;
use ca_store::{
    FailList, Failed, File, FileMap, MemSink, MemStore, ReadFault, Sink, Store, StoreCall,
    read_file, write_all, write_file,
};
use std::alloc::Global;
use std::process::Abort;
use std::test::Fail;

// The files `four`, of the bytes abcd, and `none`, of no bytes.
fn two_files(alloc: Global) -> Result<FileMap, NoMemory> {
    let mut files = FileMap::new(alloc);
    for (name, bytes) in [("four", "abcd"), ("none", "")] {
        let file = File {
            name: Text::from_bytes(alloc, name.as_bytes())?,
            bytes: Text::from_bytes(alloc, bytes.as_bytes())?,
        };
        if files.place_of(file.name.as_bytes()).is_none() {
            files.add(file)?;
        }
    }
    Ok(files)
}

// A call that fails, by its number, or none.
type Call = Option<(StoreCall, u32)>;

fn fails(alloc: Global, call: Call) -> Result<FailList, NoMemory> {
    let mut list = FailList::new(alloc);
    if let Some((call, number)) = call {
        list.push(call, number)?;
    }
    Ok(list)
}

// A store of the two files.
fn store_of(alloc: Global, call: Call, piece: usize, room: usize) -> Result<MemStore, NoMemory>
    requires { 0 < piece }
    ensures { IfOk result (λ store. opened_by store ≡ Nothing) }
{
    MemStore::new(alloc, two_files(alloc)?, piece, room, fails(alloc, call)?)
}

// Whether a file was read, or not, as it should be.
pub(crate) fn is_as_wanted(got: Result<Text, ReadFault>, want: Result<&str, ReadFault>) -> bool {
    match (got, want) {
        (Ok(text), Ok(bytes)) => text.is(bytes.as_bytes()),
        (Err(fault), Err(wanted)) => fault == wanted,
        (_, _) => false,
    }
}

// What a reading answers: the bytes, or the fault.
pub(crate) type Reported = Result<&'static str, ReadFault>;

pub(crate) const MISSING: Reported = Err(ReadFault::StoreFailed);

// A call that fails, the file, the bytes that a call of the store gives at most, and the limit; then what is
// answered, the count of faults, and what a second reading answers, which adds none.
static READ: [(Call, &str, usize, usize, Reported, u64, Reported); 15] = [
    (None, "four", 1, 4, Ok("abcd"), 0, Ok("abcd")),
    (None, "four", 3, 4, Ok("abcd"), 0, Ok("abcd")),
    (None, "four", 9, 5, Ok("abcd"), 0, Ok("abcd")),
    (None, "four", 1, 3, TOO_LONG, 0, TOO_LONG),
    (None, "four", 9, 3, TOO_LONG, 0, TOO_LONG),
    (None, "four", 3, 0, LONGER_THAN_0, 0, LONGER_THAN_0),
    (None, "none", 1, 0, Ok(""), 0, Ok("")),
    (None, "five", 1, 9, MISSING, 0, MISSING),
    (
        Some((StoreCall::Open, 1)),
        "four",
        3,
        9,
        MISSING,
        1,
        Ok("abcd"),
    ),
    (
        Some((StoreCall::Read, 1)),
        "four",
        3,
        9,
        MISSING,
        1,
        Ok("abcd"),
    ),
    (
        Some((StoreCall::Read, 2)),
        "four",
        3,
        9,
        MISSING,
        1,
        Ok("abcd"),
    ),
    (
        Some((StoreCall::Close, 1)),
        "four",
        3,
        9,
        MISSING,
        1,
        Ok("abcd"),
    ),
    (
        Some((StoreCall::Open, 3)),
        "four",
        3,
        9,
        Ok("abcd"),
        0,
        Ok("abcd"),
    ),
    (
        Some((StoreCall::Write, 1)),
        "four",
        3,
        9,
        Ok("abcd"),
        0,
        Ok("abcd"),
    ),
    (
        Some((StoreCall::Create, 1)),
        "four",
        3,
        9,
        Ok("abcd"),
        0,
        Ok("abcd"),
    ),
];

const TOO_LONG: Reported = Err(ReadFault::TooLong { taken: 4 });

const LONGER_THAN_0: Reported = Err(ReadFault::TooLong { taken: 1 });

#[test]
fn files_are_read_up_to_the_limit_and_listed_calls_fail_once(rt: HostRuntime) -> Result<(), Fail> {
    let alloc = rt.alloc();
    for (call, name, piece, limit, want, faults, again) in &READ {
        assert!(rt; *piece > 0 && *limit < usize::MAX);
        let mut store = store_of(alloc, *call, *piece, 0)?;
        let got = read_file(alloc, &mut store, name, *limit);
        assert!(rt;
            is_as_wanted(got, *want),
            "{call:?}: {name} by {piece} up to {limit}"
        );
        assert_eq!(rt;
            store.faults(),
            *faults,
            "{call:?}: {name} by {piece} up to {limit}"
        );
        let got = read_file(alloc, &mut store, name, *limit);
        assert!(rt; is_as_wanted(got, *again), "{call:?}: {name} again");
        assert_eq!(rt; store.faults(), *faults, "{call:?}: {name} again");
        drop(store);
    }
    Ok(())
}

// Whether the store has a file of this name with these bytes, or none.
fn holds(store: &MemStore, name: &str, held: Option<&str>) -> bool {
    match (store.bytes(name), held) {
        (Some(bytes), Some(text)) => bytes == text.as_bytes(),
        (None, None) => true,
        (_, _) => false,
    }
}

// Whether the writing of a file ends as it should, leaves the file as it should be, and counts where it
// fails.
fn writes_as_wanted(
    store: &mut MemStore,
    name: &str,
    bytes: &str,
    want: Result<(), Failed>,
    held: Option<&str>,
) -> bool
    requires { opened_by store.old ≡ Nothing }
    ensures { opened_by store.new ≡ Nothing }
{
    let before = store.faults();
    let got = write_file(store, name, bytes.as_bytes());
    got == want && holds(store, name, held) && (store.faults() == before) == want.is_ok()
}

// What a writing answers.
pub(crate) type Done = Result<(), Failed>;

// A call that fails, the file and its bytes, the bytes that a call of the store takes at most, and the room;
// then what is answered, and what the file holds. The file `none` holds no bytes all the while.
static WRITTEN: [(Call, &str, &str, usize, usize, Done, Option<&str>); 23] = [
    (None, "new", "hello", 1, 8, Ok(()), Some("hello")),
    (None, "new", "hello", 2, 8, Ok(()), Some("hello")),
    (None, "new", "hello", 9, 8, Ok(()), Some("hello")),
    (None, "new", "hello", 9, 7, Err(Failed), Some("hell")),
    (None, "new", "hello", 2, 6, Err(Failed), Some("hel")),
    (None, "new", "hello", 9, 3, Err(Failed), Some("")),
    (None, "new", "hello", 9, 2, Err(Failed), None),
    (None, "new", "", 1, 3, Ok(()), Some("")),
    (None, "new", "", 1, 2, Err(Failed), None),
    (None, "", "hi", 1, 2, Ok(()), Some("hi")),
    (None, "four", "hello", 9, 9, Ok(()), Some("hello")),
    (None, "four", "hello", 9, 4, Err(Failed), Some("")),
    (None, "four", "hello", 9, 3, Err(Failed), Some("abcd")),
    (
        Some((StoreCall::Create, 1)),
        "four",
        "hello",
        2,
        9,
        Err(Failed),
        Some("abcd"),
    ),
    (
        Some((StoreCall::Write, 1)),
        "four",
        "hello",
        2,
        9,
        Err(Failed),
        Some(""),
    ),
    (
        Some((StoreCall::Write, 2)),
        "four",
        "hello",
        2,
        9,
        Err(Failed),
        Some("he"),
    ),
    (
        Some((StoreCall::Write, 3)),
        "four",
        "hello",
        2,
        9,
        Err(Failed),
        Some("hell"),
    ),
    (
        Some((StoreCall::Close, 1)),
        "four",
        "hello",
        2,
        9,
        Err(Failed),
        Some("hello"),
    ),
    (
        Some((StoreCall::Create, 2)),
        "four",
        "hello",
        2,
        9,
        Ok(()),
        Some("hello"),
    ),
    (
        Some((StoreCall::Write, 4)),
        "four",
        "hello",
        2,
        9,
        Ok(()),
        Some("hello"),
    ),
    (
        Some((StoreCall::Close, 2)),
        "four",
        "hello",
        2,
        9,
        Ok(()),
        Some("hello"),
    ),
    (
        Some((StoreCall::Open, 1)),
        "four",
        "hello",
        2,
        9,
        Ok(()),
        Some("hello"),
    ),
    (
        Some((StoreCall::Read, 1)),
        "four",
        "hello",
        2,
        9,
        Ok(()),
        Some("hello"),
    ),
];

#[test]
fn files_are_written_as_far_as_room_and_listed_calls_let(rt: HostRuntime) -> Result<(), Fail> {
    let alloc = rt.alloc();
    for (call, name, bytes, piece, room, want, held) in &WRITTEN {
        assert!(rt; *piece > 0);
        let mut store = store_of(alloc, *call, *piece, *room)?;
        let is_wanted = writes_as_wanted(&mut store, name, bytes, *want, *held);
        assert!(rt;
            is_wanted,
            "{call:?}: {bytes} to {name} by {piece} into {room}"
        );
        assert_eq!(rt;
            store.bytes("none"),
            Some(b"".as_slice()),
            "{call:?}: {bytes}"
        );
        drop(store);
    }
    Ok(())
}

static CREATED: [(&str, Done); 9] = [
    ("a", Ok(())),
    ("b", Ok(())),
    ("a", Ok(())),
    ("four", Ok(())),
    ("c", Ok(())),
    ("d", Ok(())),
    ("e", Ok(())),
    ("f", Ok(())),
    ("a", Err(Failed)),
];

#[test]
fn eight_creates_succeed(rt: HostRuntime) -> Result<(), Fail> {
    let alloc = rt.alloc();
    let mut store = store_of(alloc, None, 3, 99)?;
    for (name, want) in &CREATED {
        let is_wanted = writes_as_wanted(&mut store, name, name, *want, Some(*name));
        assert!(rt; is_wanted, "{name}");
    }
    assert!(rt; holds(&store, "b", Some("b")));
    assert!(rt; holds(&store, "none", Some("")));
    assert!(rt; holds(&store, "g", None));
    drop(store);
    let files = two_files(alloc)?;
    assert_eq!(rt; files.as_slice().len(), 2);
    assert!(rt; files.get(1).name.is(b"none"));
    assert_eq!(rt; files.place_of(b"four"), Some(0));
    assert_eq!(rt; files.place_of(b"five"), None);
    drop(files);
    Ok(())
}

// Asserts what a store of three bytes a call and nine in all takes of a file.
fn try_writing(rt: &impl Abort, store: &mut MemStore) -> Result<(), Fail>
    requires { opened_by store.old ≡ Nothing }
{
    store.create("new")?;
    assert_eq!(rt; store.write(b"hello")?, 3);
    assert_eq!(rt; store.write(b"")?, 0);
    assert_eq!(rt; store.write(b"lo")?, 2);
    assert_eq!(rt; store.write(b"xyz")?, 1);
    assert_eq!(rt; store.write(b"")?, 0);
    assert_eq!(rt; store.write(b"yz"), Err(Failed));
    assert_eq!(rt; store.bytes("new"), Some(b"hellox".as_slice()));
    assert_eq!(rt; store.faults(), 1);
    Ok(())
}

#[test]
fn a_file_in_writing_takes_what_fits(rt: HostRuntime) -> Result<(), Fail> {
    let mut store = store_of(rt.alloc(), None, 3, 9)?;
    let written = try_writing(&rt, &mut store);
    drop(store);
    written
}

#[test]
fn a_sink_takes_what_fits(rt: HostRuntime) -> Result<(), Fail> {
    let alloc = rt.alloc();
    for (room, number, bytes, want, held, faults) in [
        (2, 9, "ab", Ok(()), "ab", 0),
        (2, 9, "abc", Err(Failed), "ab", 1),
        (0, 9, "", Ok(()), "", 0),
        (9, 1, "abc", Err(Failed), "", 1),
        (9, 2, "abc", Ok(()), "abc", 0),
    ] {
        let fail = fails(alloc, Some((StoreCall::Write, number)))?;
        let mut sink = MemSink::new(alloc, room, fail)?;
        let got = write_all(&mut sink, bytes.as_bytes());
        assert_eq!(rt; got, want, "{bytes} into {room}");
        assert_eq!(rt; sink.bytes(), held.as_bytes(), "{bytes} into {room}");
        assert_eq!(rt; sink.faults(), faults, "{bytes} into {room}");
        drop(sink);
    }
    Ok(())
}
