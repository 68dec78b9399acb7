//! Checks the debugging entries of a program.
#![tactic(auto)]

mod endings;
mod running;
#[cfg(test)]
mod tests;
mod words;

use crate::endings::{Outcome, outcome_of};
use crate::words::read_words;
use dw_io::Device;
use std::process::ExitCode;
use std::rt::{Env, Files};
use std::{fs, io};

/// Runs the program.
fn outcome<R: Env + Files + Print + AllocGlobal>(rt: &R) -> Outcome {
    let open = |name: &str| fs::open(rt, name).ok();
    let mut writer = Device::new(io::writer(rt));
    outcome_of(rt.alloc(), read_words(rt), open, &mut writer)
}

fn main(rt: HostRuntime) -> ExitCode {
    let (status, line) = outcome(&rt).ending();
    if !line.is_empty() {
        let _ = eprintln!(rt; "{line}");
    }
    ExitCode::from(status)
}
