//! What the calls about texts and stores answer in cases that were worked out by hand. It has no code but its
//! tests.
#![tactic(auto)]

#[cfg(test)]
mod lengths_and_lines;
#[cfg(test)]
mod library_texts;
#[cfg(test)]
mod real_files;
#[cfg(test)]
mod row_library;
#[cfg(test)]
mod spice_readings;
#[cfg(test)]
mod stores;
#[cfg(test)]
mod texts;
