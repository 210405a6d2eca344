//! What linking counts, as tables.
#![tactic(auto)]

#[cfg(test)]
mod linking;
