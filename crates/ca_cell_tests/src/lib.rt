//! What the calls about cells answer for cells that were worked out by hand: their nodes and rules, their
//! defects, their waves and their matrices. It has no code but its tests.
#![tactic(auto)]

#[cfg(test)]
mod cells;
#[cfg(test)]
mod defects;
#[cfg(test)]
mod examples;
#[cfg(test)]
mod libraries;
#[cfg(test)]
mod matrices;
#[cfg(test)]
mod matrix_texts;
#[cfg(test)]
mod shapes;
#[cfg(test)]
mod waves;
