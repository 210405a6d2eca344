//! Tests of the calls of linked chips, as tables.
#![tactic(auto)]

#[cfg(test)]
mod calls;
#[cfg(test)]
mod described;
#[cfg(test)]
mod texts;
