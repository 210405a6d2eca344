//! What the calls of the model answer on networks that were worked out by hand. It has no code but its tests.
#![tactic(auto)]

#[cfg(test)]
mod limits;
#[cfg(test)]
mod networks;
#[cfg(test)]
mod responses;
