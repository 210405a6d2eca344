//! Linking and tracing have one answer: the laws that the first broken rule, a link and its chains are one.
#![tactic(auto)]

mod laws;

pub use laws::{
    alike_have_one_ports, alike_have_one_trace, first_broken_is_one, links_are_alike,
    links_have_one_cell,
};
