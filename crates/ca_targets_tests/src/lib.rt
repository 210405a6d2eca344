//! Tests of bridges as targets, as tables.
#![tactic(auto)]

#[cfg(test)]
mod chips;
#[cfg(test)]
mod targets;
