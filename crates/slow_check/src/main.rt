//! Prints what the second reader says of each file that the arguments name: the line of its first fault, or `fine`.
#![tactic(auto)]

use slow_reader::check_file;
use std::rt::{Env, Files};
use std::{env, fs, io};

/// A line for a file.
fn report<R: Files + Print + AllocGlobal>(rt: &R, name: &str) -> io::Result<()> {
    let file = fs::read(rt, name)?;
    match check_file(file.as_slice()) {
        Ok(()) => println!(rt; "fine"),
        Err(fault) => println!(rt; "{fault}"),
    }
}

fn run<R: Env + Files + Print + AllocGlobal>(rt: &R) -> io::Result<()> {
    for name in env::args(rt)?.skip(1) {
        report(rt, name.as_str())?;
    }
    Ok(())
}

fn main(rt: HostRuntime) -> io::Result<()> {
    run(&rt)
}
