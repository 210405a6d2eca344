//! Tests of STIL texts of linked chips, read and graded. It has no code but its tests.
#![tactic(auto)]

#[cfg(test)]
mod inverter;
#[cfg(test)]
mod scan;
