//! The words of a command line, and the command that they spell.
#![tactic(auto)]

mod budget;
mod checks;
mod chip_words;
mod prefix;
mod words;

pub use budget::{MOST_BUDGET, budget_of, chip_number_of};
pub use words::{
    AtpgWords, BridgesWords, CellWords, CertifyWords, ChipWords, Command, DiagnoseWords,
    FlattenWords, GradeWords, MatrixWords, PairWords, ReplayWords, SimulateWords, VerifyWords,
    parse,
};
