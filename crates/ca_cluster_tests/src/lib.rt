//! Tests of bridges and their clusters, as tables.
#![tactic(auto)]

#[cfg(test)]
mod chips;
#[cfg(test)]
mod clusters;
