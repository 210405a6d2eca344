//! Tests of the simulator, over chips that are built from tables.
#![tactic(auto)]

#[cfg(test)]
mod chips;
#[cfg(test)]
mod waves;
