//! Tests of the lanes, over a netlist that is built by hand.
#![tactic(auto)]

#[cfg(test)]
mod lanes;
#[cfg(test)]
mod netlists;
#[cfg(test)]
mod readable;
