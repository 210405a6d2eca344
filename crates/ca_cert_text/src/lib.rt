//! The text of a certificate: written, and read back or refused at its first line that isn't of the form.
#![tactic(auto)]

mod code;
mod cut;
mod fault;
mod laws;
mod line;
mod number;
mod read;
mod write;

pub use fault::CertFault;
pub use laws::{faulty_line_is_one, text_is_read};
pub use number::{GREATEST_BIT, MOST_BUDGET};
pub use read::read_certificate;
pub use write::write_certificate;
