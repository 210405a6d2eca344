//! Tests of logs and of diagnosis. It has no code but its tests.
#![tactic(auto)]

#[cfg(test)]
mod inverter;
#[cfg(test)]
mod names;
