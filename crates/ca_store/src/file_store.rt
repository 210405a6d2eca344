//! The files of the system. Nothing is said about what they hold.
ghost use Rattle.std.specs.Prelude.{◌≡◌, ◌<◌, ◌^◌, None};
ghost use Rattle.ca_store.specs.Store.{Nothing};
ghost use Rattle.ca_store.specs.FileStore.{unreported};

use crate::read_files::{FileIdentity, ReadFiles};
use crate::store::{Failed, Store, next};
use std::fs::{Metadata, OpenFile as _};
use std::io::{Error, ErrorKind, Read, Write};
use std::os::unix::fs::MetadataExt;
use std::rt::Files;
use std::{fs, io};

/// The files of the system, by their paths. Each error of the system counts, a missing file too, and so does
/// a write that takes nothing of a piece that is not empty. A file that the store has read is never created,
/// by whatever path or link: that is a failure, and the file stays as it was. The store opens at most eight
/// files for reading; a ninth is a failure.
#[derive(Drop)]
pub struct FileStore<R: Files> {
    rt: R,
    file: OpenFile<R::File>,
    read: ReadFiles,
    faults: u64,
    ghost in_range: { faults < 2 ^ 64 },
}

// The file that is open, if one is.
#[derive(Drop)]
enum OpenFile<F> {
    Closed,
    InReading(F),
    InWriting(F),
}

impl<R: Files> FileStore<R> {
    /// The store, with nothing open.
    pub fn new(rt: R) -> Self
        ensures faults { ⟦<FileStore<R> as Store>⟧.faults result ≡ 0 }
        ensures closed { ⟦<FileStore<R> as Store>⟧.opened result ≡ Nothing }
    {
        FileStore {
            rt,
            file: OpenFile::Closed,
            read: ReadFiles::new(),
            faults: 0,
        }
    }

    /// How many calls failed.
    pub fn faults(&self) -> u64
        ensures { result ≡ ⟦<FileStore<R> as Store>⟧.faults self.now }
    {
        self.faults
    }

    // Opens a file for reading, and keeps which file it is.
    fn open_known(&mut self, name: &str) -> io::Result<R::File>
        ensures file { self.new.file ≡ self.old.file }
        ensures faults { self.new.faults ≡ self.old.faults }
    {
        let file = fs::open(&self.rt, name)?;
        if let Some(identity) = identity_of(&file.metadata()?) {
            self.read
                .add(identity)
                .map_err(|_| Error::from(ErrorKind::QuotaExceeded))?;
        }
        Ok(file)
    }

    // Whether this is a path of a file that was read.
    fn has_read(&self, name: &str) -> bool {
        match fs::metadata(&self.rt, name) {
            Ok(found) => match identity_of(&found) {
                Some(identity) => self.read.has(identity),
                None => false,
            },
            Err(_) => false,
        }
    }
}

// Which file it is, if it is one that keeps what is written to it.
fn identity_of(file: &Metadata) -> Option<FileIdentity> {
    if file.is_file() {
        Some(FileIdentity {
            device: file.dev(),
            number: file.ino(),
        })
    } else {
        None
    }
}

impl<R: Files> Store for FileStore<R> {
    ghost files = { λ _. None };

    ghost opened = { λ store. unreported store.file };

    ghost faults = { λ store. store.faults };

    ghost bounded = { λ store. store.in_range };

    fn open(&mut self, name: &str) -> Result<(), Failed> {
        let faults = self.faults;
        match self.open_known(name) {
            Ok(file) => {
                self.file = OpenFile::InReading(file);
                Ok(())
            }
            Err(_) => {
                self.faults = next(faults);
                Err(Failed)
            }
        }
    }

    fn read(&mut self, into: &mut [u8]) -> Result<usize, Failed> {
        let faults = self.faults;
        let OpenFile::InReading(file) = &mut self.file else {
            unreachable!()
        };
        match file.read(into) {
            Ok(n) => Ok(n),
            Err(_) => {
                self.file = OpenFile::Closed;
                self.faults = next(faults);
                Err(Failed)
            }
        }
    }

    fn create(&mut self, name: &str) -> Result<(), Failed> {
        let faults = self.faults;
        if self.has_read(name) {
            self.faults = next(faults);
            return Err(Failed);
        }
        match fs::create(&self.rt, name) {
            Ok(file) => {
                self.file = OpenFile::InWriting(file);
                Ok(())
            }
            Err(_) => {
                self.faults = next(faults);
                Err(Failed)
            }
        }
    }

    fn write(&mut self, from: &[u8]) -> Result<usize, Failed> {
        let faults = self.faults;
        let OpenFile::InWriting(file) = &mut self.file else {
            unreachable!()
        };
        match file.write(from) {
            Ok(n) if n > 0 || from.is_empty() => Ok(n),
            _ => {
                self.file = OpenFile::Closed;
                self.faults = next(faults);
                Err(Failed)
            }
        }
    }

    // The system lets a file go with no answer, so this can't fail.
    fn close(&mut self) -> Result<(), Failed> {
        self.file = OpenFile::Closed;
        Ok(())
    }
}
