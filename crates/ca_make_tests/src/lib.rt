//! Tests of generated chips, as tables.
#![tactic(auto)]

#[cfg(test)]
mod texts;
