//! How the program ends.

ghost use Rattle.std.specs.Prelude.{◌≡◌, Err};
ghost use Rattle.dwv_addr.specs.Endings.{ending_line, ending_status, exit_status, line_of, words_line, words_status};

use crate::request::Status;
use crate::words::WordsFault;
use dw_io::RunFault;

/// What becomes of the words of the command line.
#[derive(Clone, Copy, Debug, PartialEq, Eq)]
pub enum Outcome {
    /// They are no request.
    Refused(WordsFault),
    /// The file that they name can't be opened.
    Unopened,
    /// What their request gives.
    Ran(Result<Status, RunFault>),
}

/// The line for standard error.
fn line_of_fault(fault: RunFault) -> &'static str
    ensures { result.now ≡ line_of (Err fault) }
{
    match fault {
        RunFault::ReadFailed => "dwv-addr: reading failed",
        RunFault::WriteFailed => "dwv-addr: writing failed",
        RunFault::Memory => "dwv-addr: out of memory",
    }
}

/// The exit status for a result, and the line for standard error, empty if there is none.
pub fn ending(outcome: &Result<Status, RunFault>) -> (u8, &'static str)
    ensures status { result.0 ≡ exit_status outcome.now }
    ensures line { result.1.now ≡ line_of outcome.now }
{
    match outcome {
        Ok(Status::BadAddress) => (2, "dwv-addr: bad address"),
        Ok(status) => (status.code(), ""),
        Err(RunFault::Memory) => (4, line_of_fault(RunFault::Memory)),
        Err(fault) => (3, line_of_fault(*fault)),
    }
}

/// The exit status where words are no request, and the line for standard error.
fn refused(fault: WordsFault) -> (u8, &'static str)
    ensures status { result.0 ≡ words_status fault }
    ensures line { result.1.now ≡ words_line fault }
{
    match fault {
        WordsFault::BadUsage => (2, "dwv-addr: bad usage"),
        WordsFault::Memory => (4, "dwv-addr: out of memory"),
    }
}

impl Outcome {
    /// The exit status, and the line for standard error, empty if there is none.
    pub fn ending(&self) -> (u8, &'static str)
        ensures status { result.0 ≡ ending_status self.now }
        ensures line { result.1.now ≡ ending_line self.now }
    {
        match self {
            Outcome::Refused(fault) => refused(*fault),
            Outcome::Unopened => (3, "dwv-addr: cannot open file"),
            Outcome::Ran(outcome) => ending(outcome),
        }
    }
}
