//! Case files: tables of commands over files in memory, played, with the answers as a text.
#![tactic(auto)]

mod answers;
mod commands;
mod failing;
mod lines;
mod played;
mod script;
mod setup;
mod stop;
mod texts;
mod trial;

pub use played::play_files;
pub use trial::Commands;
