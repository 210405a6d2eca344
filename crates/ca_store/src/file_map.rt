//! Files by their names, in memory.
ghost use Rattle.std.specs.Prelude.{◌≡◌, ◌<◌, [], ◌∷◌, ◌++◌, length, slice_get, Some, IsNone, OnOk, OnErr};
ghost use Rattle.ca_store.specs.Memory.{place_named, HasDistinctNames};

use ca_base::NoMemory;
use ca_lex::Text;
use std::alloc::Global;
use std::marker::Model;

/// A name, and the bytes of the file of this name.
#[derive(Drop)]
pub struct File {
    pub name: Text,
    pub bytes: Text,
}

/// Files of distinct names, in the order of their adding.
#[derive(Drop)]
pub struct FileMap {
    files: Vec<File>,
}

impl Model for FileMap {
    ghost use Rattle.std.specs.Prelude.{List};
    ghost use Rattle.ca_store.specs.Memory.{HasDistinctNames};
    ghost use Rattle.ca_store.specs.declared.file_map.File.{File};

    ghost Value = { List File };

    ghost view = { λ map. map.files.items };

    ghost invariant = { λ map. HasDistinctNames map.files.items };
}

impl FileMap {
    /// The map of no files.
    pub fn new(alloc: Global) -> Self
        ensures { result ≡ [] }
    {
        FileMap {
            files: Vec::new(alloc),
        }
    }

    /// The files as a slice.
    pub fn as_slice(&self) -> &[File]
        ensures files { result.now ≡ self.now }
        ensures distinct { HasDistinctNames self.now }
    {
        &self.files
    }

    /// The file at a place, counted from 0.
    pub fn get(&self, place: usize) -> &File
        requires { place < length self.now }
        ensures { slice_get self.now place ≡ Some result.now }
    {
        &self.files[place]
    }

    /// The place of the file of a name, counted from 0.
    pub fn place_of(&self, name: &[u8]) -> Option<usize>
        ensures { result ≡ place_named self.now name.now }
    {
        self.files
            .iter()
            .position(|file| file.name.as_bytes() == name)
    }

    /// Adds a file at the end. A file that finds no memory is dropped.
    pub fn add(&mut self, file: File) -> Result<(), NoMemory>
        requires { IsNone (place_named self.old file.name) }

        ensures ok { OnOk result (self.new ≡ self.old ++ file ∷ []) }
        ensures err { OnErr result (self.new ≡ self.old) }
    {
        Ok(self.files.push(file)?)
    }
}
