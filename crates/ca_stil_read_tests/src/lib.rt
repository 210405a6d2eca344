//! Tests of the reader of STIL texts, as a table.
#![tactic(auto)]

#[cfg(test)]
mod texts;
