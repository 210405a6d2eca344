//! The little that can be tried of real files and streams.

use crate::stores::{Done, MISSING, Reported, is_as_wanted};
use ca_store::{Failed, FileStore, ReadFault, Sink, StdSink, read_file, write_file};
use std::fs;
use std::test::Fail;

// Real files: the name, the limit, what a reading answers, and the count of faults.
static REAL_READ: [(&str, usize, Reported, u64); 3] = [
    ("/dev/null", 0, Ok(""), 0),
    ("/dev/zero", 5, Err(ReadFault::TooLong { taken: 6 }), 0),
    ("no such file here", 9, MISSING, 1),
];

// The name, the bytes, what a writing answers, and the count of faults: a full disk and closed folders.
static REAL_WRITTEN: [(&str, &str, Done, u64); 6] = [
    ("/dev/full", "hello", Err(Failed), 1),
    ("/dev/full", "", Ok(()), 0),
    ("/dev/null", "hello", Ok(()), 0),
    ("/proc/no such file", "hello", Err(Failed), 1),
    ("no such folder/file", "", Err(Failed), 1),
    ("/dev", "", Err(Failed), 1),
];

#[test]
fn faults_of_real_files_count(rt: HostRuntime) {
    for (name, limit, want, faults) in &REAL_READ {
        assert!(rt; *limit < usize::MAX);
        let mut store = FileStore::new(rt);
        let got = read_file(rt.alloc(), &mut store, name, *limit);
        assert!(rt; is_as_wanted(got, *want), "{name}");
        assert_eq!(rt; store.faults(), *faults, "{name}");
        drop(store);
    }
    for (name, bytes, want, faults) in &REAL_WRITTEN {
        let mut store = FileStore::new(rt);
        let got = write_file(&mut store, name, bytes.as_bytes());
        assert_eq!(rt; got, *want, "{bytes} to {name}");
        assert_eq!(rt; store.faults(), *faults, "{bytes} to {name}");
        drop(store);
    }
    // Streams take a piece of no bytes.
    assert_eq!(rt; StdSink::output(rt.stdout()).write(b""), Ok(0));
    assert_eq!(rt; StdSink::errors(rt.stderr()).write(b""), Ok(0));
}

#[test]
fn real_files_are_written_and_read_back(rt: HostRuntime) -> Result<(), Fail> {
    let alloc = rt.alloc();
    for bytes in ["hello", "", "hi"] {
        let mut store = FileStore::new(rt);
        let done = write_file(&mut store, "written by a test", bytes.as_bytes());
        assert_eq!(rt; done, Ok(()), "{bytes}");
        let got = read_file(alloc, &mut store, "written by a test", 9);
        assert!(rt; is_as_wanted(got, Ok(bytes)), "{bytes}");
        assert_eq!(rt; store.faults(), 0, "{bytes}");
        drop(store);
    }
    fs::remove_file(&rt, "written by a test")?;
    Ok(())
}

// What a store that hasn't read the file answers to a writing.
fn written(rt: HostRuntime, name: &str, bytes: &[u8]) -> Done {
    let mut store = FileStore::new(rt);
    let done = write_file(&mut store, name, bytes);
    drop(store);
    done
}

// Neither under its own name nor by another path or link: it stays as it was. A store that hasn't read it
// may.
#[test]
fn a_file_that_was_read_is_not_created(rt: HostRuntime) -> Result<(), Fail> {
    let alloc = rt.alloc();
    assert_eq!(rt; written(rt, "read by a test", b"kept"), Ok(()));
    fs::hard_link(&rt, "read by a test", "link of a test")?;
    let names = ["read by a test", "./read by a test", "link of a test"];
    for name in names {
        let mut store = FileStore::new(rt);
        let got = read_file(alloc, &mut store, "read by a test", 9);
        assert!(rt; is_as_wanted(got, Ok("kept")), "{name}");
        let done = write_file(&mut store, name, b"lost");
        assert_eq!(rt; done, Err(Failed), "{name}");
        assert_eq!(rt; store.faults(), 1, "{name}");
        drop(store);
    }
    assert_eq!(rt; written(rt, "link of a test", b"new"), Ok(()));
    fs::remove_file(&rt, "link of a test")?;
    fs::remove_file(&rt, "read by a test")?;
    Ok(())
}
