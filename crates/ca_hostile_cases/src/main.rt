//! Plays the case files that its words name, and prints their answers.
#![tactic(auto)]

use ca_play::play;
use std::process::ExitCode;

fn main(rt: HostRuntime) -> ExitCode {
    ExitCode::from(play(rt))
}
