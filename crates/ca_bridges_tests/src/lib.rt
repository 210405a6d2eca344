//! Tests of bridges that are judged, as a table.
#![tactic(auto)]

#[cfg(test)]
mod chips;
#[cfg(test)]
mod judging;
