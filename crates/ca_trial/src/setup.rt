//! What comes before the commands of a case: the files of the store, the limits, and the calls that fail.

use ca_base::NoMemory;
use ca_lex::Text;
use ca_store::{FailList, File, FileMap, StoreCall};
use std::alloc::Global;

/// A file of the store.
#[derive(Drop)]
pub(crate) struct CaseFile {
    pub(crate) name: String,
    pub(crate) text: Text,
}

/// How many bytes a store gives or takes at once, how many bytes more it has room for, and how many bytes the
/// output and the error output take.
#[derive(Clone, Copy)]
pub(crate) struct Limits {
    pub(crate) piece: usize,
    pub(crate) space: usize,
    pub(crate) output: usize,
    pub(crate) errors: usize,
}

/// A call that fails, by its kind and its number among the calls of that kind.
#[derive(Clone, Copy)]
pub(crate) struct FailedCall {
    pub(crate) call: StoreCall,
    pub(crate) number: u32,
}

/// A text in place of that of a file, for one command.
#[derive(Clone, Copy)]
pub(crate) struct Put<'a> {
    pub(crate) name: &'a str,
    pub(crate) text: &'a [u8],
}

/// The lines of a file after a command that are shown: all of them where no number is given.
#[derive(Drop)]
pub(crate) struct Show {
    pub(crate) name: String,
    pub(crate) lines: Vec<usize>,
}

/// What comes before a command. Of two files with one name the later one counts.
#[derive(Drop)]
pub(crate) struct Setup {
    pub(crate) files: Vec<CaseFile>,
    pub(crate) limits: Limits,
    pub(crate) fails: Vec<FailedCall>,
    pub(crate) shows: Vec<Show>,
    // the files and the limits that all cases of the case file share
    head: usize,
    head_limits: Limits,
}

impl Setup {
    /// No files, and ample limits.
    pub(crate) fn new(alloc: Global) -> Self {
        let limits = Limits {
            piece: 60,
            space: 100_000,
            output: 10_000,
            errors: 1_000,
        };
        Setup {
            files: Vec::new(alloc),
            limits,
            fails: Vec::new(alloc),
            shows: Vec::new(alloc),
            head: 0,
            head_limits: limits,
        }
    }

    /// This is what all cases share.
    pub(crate) fn end_head(&mut self) {
        self.head = self.files.len();
        self.head_limits = self.limits;
    }

    /// What the cases share is here alone.
    pub(crate) fn begin_case(&mut self) {
        self.files.truncate(self.head);
        self.limits = self.head_limits;
        self.fails.clear();
        self.shows.clear();
    }

    /// Appends to the text of the last file.
    pub(crate) fn append(&mut self, bytes: &[u8]) -> Result<(), NoMemory> {
        match self.files.last_mut() {
            Some(file) => file.text.append(bytes),
            None => Ok(()),
        }
    }

    /// Appends copies of a letter to the text of the last file, until it has `size` bytes.
    pub(crate) fn fill(&mut self, size: usize, letter: u8) -> Result<(), NoMemory> {
        match self.files.last_mut() {
            Some(file) => fill_text(&mut file.text, size, letter),
            None => Ok(()),
        }
    }

    /// The text of the file of this name.
    pub(crate) fn text_of(&self, name: &str) -> Option<&[u8]> {
        for file in self.files.iter().rev() {
            if file.name.as_str() == name {
                return Some(file.text.as_bytes());
            }
        }
        None
    }

    /// The files, with one text in place of another, as a store takes them.
    pub(crate) fn file_map(
        &self,
        alloc: Global,
        put: Option<Put<'_>>,
    ) -> Result<FileMap, NoMemory> {
        let mut files = FileMap::new(alloc);
        if let Some(put) = put {
            add_file(alloc, &mut files, put.name, put.text)?;
        }
        for file in self.files.iter().rev() {
            add_file(alloc, &mut files, &file.name, file.text.as_bytes())?;
        }
        Ok(files)
    }

    /// The calls that fail, and one more.
    pub(crate) fn fail_list(
        &self,
        alloc: Global,
        more: Option<FailedCall>,
    ) -> Result<FailList, NoMemory> {
        let mut fails = FailList::new(alloc);
        if let Some(failed) = more {
            fails.push(failed.call, failed.number)?;
        }
        for failed in &self.fails {
            fails.push(failed.call, failed.number)?;
        }
        Ok(fails)
    }
}

// Appends copies of a letter, until there are `size` bytes.
fn fill_text(text: &mut Text, size: usize, letter: u8) -> Result<(), NoMemory> {
    for _ in text.len()..size {
        text.push(letter)?;
    }
    Ok(())
}

// One file more, if none has its name.
fn add_file(alloc: Global, files: &mut FileMap, name: &str, bytes: &[u8]) -> Result<(), NoMemory> {
    if files.place_of(name.as_bytes()).is_some() {
        return Ok(());
    }
    let file = File {
        name: Text::from_bytes(alloc, name.as_bytes())?,
        bytes: Text::from_bytes(alloc, bytes)?,
    };
    add_new(files, file)
}

// Adds a file, if none has its name.
fn add_new(files: &mut FileMap, file: File) -> Result<(), NoMemory> {
    if files.place_of(file.name.as_bytes()).is_none() {
        files.add(file)?;
    }
    Ok(())
}
