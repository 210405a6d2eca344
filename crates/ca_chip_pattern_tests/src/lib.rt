//! The patterns of a linked chip with a scan chain. It has no code but its tests.
#![tactic(auto)]

#[cfg(test)]
mod patterns;
