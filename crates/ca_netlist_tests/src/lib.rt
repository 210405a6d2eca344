//! Tests of the readers of gate netlists, as tables.
#![tactic(auto)]

#[cfg(test)]
mod readings;
#[cfg(test)]
mod tokens;
