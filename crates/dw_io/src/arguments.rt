//! The arguments of a program after its name.

use std::env::FillError;
use std::rt::Env;
use std::{env, io};

/// Why the arguments have no texts.
#[derive(Clone, Copy, Debug, PartialEq, Eq)]
pub enum ArgumentFault {
    /// One of them is not UTF-8.
    NotText,
    /// An allocation failed.
    Memory,
}

/// The arguments from number 1 on. Number 0, the program's name, is never read: it may be any bytes.
#[derive(Drop)]
struct AfterName<'a, R> {
    rt: &'a R,
}

impl<R: Env> Env for AfterName<'_, R> {
    fn arg(&self, i: usize, buf: &mut [u8]) -> Result<usize, FillError> {
        match i.checked_add(1) {
            Some(number) => self.rt.arg(number, buf),
            None => Err(FillError::NotPresent),
        }
    }

    fn var(&self, name: &str, buf: &mut [u8]) -> Result<usize, FillError> {
        self.rt.var(name, buf)
    }

    fn var_at(&self, i: usize, buf: &mut [u8]) -> Result<usize, FillError> {
        self.rt.var_at(i, buf)
    }
}

/// The arguments after the program's name. Each of them must be UTF-8.
pub fn after_name<R: Env + AllocGlobal>(rt: &R) -> Result<Vec<String>, ArgumentFault> {
    let arguments = match env::args(&(AfterName { rt }, rt.alloc())) {
        Ok(arguments) => arguments,
        Err(error) => {
            return Err(match error.kind() {
                io::ErrorKind::OutOfMemory => ArgumentFault::Memory,
                _ => ArgumentFault::NotText,
            });
        }
    };
    let mut texts = Vec::new(rt.alloc());
    for argument in arguments {
        if texts.push(argument).is_err() {
            return Err(ArgumentFault::Memory);
        }
    }
    Ok(texts)
}
