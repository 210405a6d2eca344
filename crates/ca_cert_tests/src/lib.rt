//! Tests of certificates, as tables: texts that read or don't, and claims on chips that were worked out by
//! hand.
#![tactic(auto)]

#[cfg(test)]
mod chips;
#[cfg(test)]
mod claims;
#[cfg(test)]
mod texts;
