//! Tests of scan tables and chains, as tables.
#![tactic(auto)]

#[cfg(test)]
mod chains;
mod drafts;
#[cfg(test)]
mod tables;
