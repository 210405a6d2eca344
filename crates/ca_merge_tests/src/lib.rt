//! Tests of merging, as tables.
#![tactic(auto)]

#[cfg(test)]
mod chips;
#[cfg(test)]
mod merges;
