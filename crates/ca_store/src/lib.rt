//! Stores of files and sinks of bytes: what they promise, doubles in memory that fail where they are told to,
//! and the real ones.
#![tactic(auto)]

mod fail_list;
mod file_map;
mod file_store;
mod mem_sink;
mod mem_store;
mod read_files;
mod reading;
mod shelf;
mod sink;
mod std_sink;
mod store;
mod writing;

pub use fail_list::{FailList, StoreCall};
pub use file_map::{File, FileMap};
pub use file_store::FileStore;
pub use mem_sink::MemSink;
pub use mem_store::MemStore;
pub use reading::{ReadFault, read_file};
pub use sink::{Sink, write_all};
pub use std_sink::StdSink;
pub use store::{Failed, Store};
pub use writing::write_file;
