//! Static cells and flips: what the nets after an instance end with, by the last values of its output nets
//! alone. There is no code.
#![tactic(auto)]

mod laws;

pub use laws::{
    detected_is_filled_in, detected_is_flipped, detected_is_forced, detected_where_forced,
    ends_by_last_is_limit, ends_by_last_is_steady, faulty_last_is_given, flipped_are_above,
    flipped_are_definite, flipped_are_ends, flipped_are_faulty, flipped_are_there,
    flipped_are_unique, good_lasts_are_of_waves, known_flipped_is_detected, known_lasts_are_good,
    last_end_is_one, lasts_are_of_lasts, swept_are_flipped, unflipped_is_undetected,
};
