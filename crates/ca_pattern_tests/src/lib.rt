//! Tests of patterns and verdicts as texts, as tables.
#![tactic(auto)]

#[cfg(test)]
mod reports;
#[cfg(test)]
mod stil;
