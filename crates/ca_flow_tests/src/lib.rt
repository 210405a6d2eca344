//! What only the calls of `ca_flow` show of how a command ends. It has no code but its tests.
#![tactic(auto)]

#[cfg(test)]
mod ends;
