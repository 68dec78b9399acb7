//! Finds the functions and the lines of the addresses of a program, whose debugging information it checks first.
#![tactic(auto)]

mod addresses;
mod answers;
mod counts;
mod endings;
mod faults;
mod json;
mod lines;
mod reporting;
mod request;
mod running;
mod stream;
#[cfg(test)]
mod tests;
mod words;

use crate::endings::Outcome;
use crate::running::outcome_of;
use crate::words::read_words;
use dw_io::Device;
use std::process::ExitCode;
use std::rt::{Env, Files};
use std::{fs, io};

/// Runs the program.
fn outcome<R: Env + Files + Input + Print + AllocGlobal>(rt: &R) -> Outcome {
    let open = |name: &str| fs::open(rt, name).ok();
    let mut input = Device::new(rt.reader());
    let mut writer = Device::new(io::writer(rt));
    outcome_of(rt.alloc(), read_words(rt), open, &mut input, &mut writer)
}

fn main(rt: HostRuntime) -> ExitCode {
    let (status, line) = outcome(&rt).ending();
    if !line.is_empty() {
        let _ = eprintln!(rt; "{line}");
    }
    ExitCode::from(status)
}
