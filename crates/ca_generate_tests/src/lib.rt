//! Tests of test generation on linked chips, as tables.
#![tactic(auto)]

#[cfg(test)]
mod chips;
#[cfg(test)]
mod credits;
#[cfg(test)]
mod reported;
#[cfg(test)]
mod worked;
