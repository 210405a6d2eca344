//! What order files read as, and what runs end with, on a network that was worked out by hand. It has no code
//! but its tests.
#![tactic(auto)]

#[cfg(test)]
mod networks;
#[cfg(test)]
mod orders;
#[cfg(test)]
mod runs;
