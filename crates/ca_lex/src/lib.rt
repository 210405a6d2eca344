//! Texts of bytes, lists of them, and what the readers share: the logical lines, words and lengths of a cell
//! netlist, tokens, and the laws of a reading up to its first fault.
#![tactic(auto)]

mod laws;
mod length;
mod lines;
mod names;
mod physical;
mod text;
mod token;
mod words;

pub use laws::{first_fault, length_grammar};
pub use length::{Length, read_length};
pub use lines::{Line, Lines, spice_lines};
pub use names::Names;
pub use physical::{first_line, line_len};
pub use text::Text;
pub use token::{Token, TokenKind};
pub use words::{fold, spice_words};
