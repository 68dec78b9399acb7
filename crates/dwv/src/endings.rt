//! How the program ends: by its words, by whether the file that they name is open, and by what its request gives.

ghost use Rattle.std.specs.Prelude.{◌≡◌, ◌<◌, Option, IfErr, IfOk, option_map};
ghost use Rattle.std.specs.Fn.{FnOnceReturnsAt};
ghost use Rattle.std.specs.String.{string_bytes};
ghost use Rattle.dwv.specs.Reports.{IsOutcomeOf, ending_line, ending_status, words_line, words_status};
ghost use Rattle.dwv.specs.declared.endings.Outcome.TheVariants.{Refused};

use crate::running::{ending, run};
use crate::words::WordsFault;
use dw_io::{Device, RunFault, Sink};
use dw_report::{Request, Status};
use std::alloc::Global;
use std::io::Read;

/// What becomes of the words of the command line.
#[derive(Clone, Copy, Debug, PartialEq, Eq)]
pub enum Outcome {
    /// They are no request.
    Refused(WordsFault),
    /// The file that they name can't be opened.
    Unopened,
    /// What their request gives.
    Ran(Result<Status, RunFault>),
}

/// The exit status where words are no request, and the line for standard error.
fn refused(fault: WordsFault) -> (u8, &'static str)
    ensures status { result.0 ≡ words_status fault }
    ensures line { result.1.now ≡ words_line fault }
{
    match fault {
        WordsFault::BadUsage => (2, "dwv: bad usage"),
        WordsFault::BadOffset => (2, "dwv: bad offset"),
        WordsFault::Memory => (4, "dwv: out of memory"),
    }
}

impl Outcome {
    /// The exit status, and the line for standard error, empty if there is none.
    pub fn ending(&self) -> (u8, &'static str)
        ensures status { result.0 ≡ ending_status self.now }
        ensures line { result.1.now ≡ ending_line self.now }
    {
        match self {
            Outcome::Refused(fault) => refused(*fault),
            Outcome::Unopened => (3, "dwv: cannot open file"),
            Outcome::Ran(outcome) => ending(outcome),
        }
    }
}

/// Handles a request for a file, which may not be open.
fn handled<R: Read + Drop, W: Sink>(
    alloc: Global,
    request: Request,
    file: Option<R>,
    writer: &mut W,
) -> Outcome
    requires { W.failures writer.old < u64.MAX }
    ensures { IsOutcomeOf W.contents request (option_map R.remaining file) writer.old writer.new result }
{
    let Some(file) = file else {
        return Outcome::Unopened;
    };
    let mut reader = Device::new(file);
    Outcome::Ran(run(alloc, request, &mut reader, writer))
}

/// Handles the words of the command line, with what opens a file by its name.
pub fn outcome_of<R: Read + Drop, W: Sink, F: FnOnce(&str) -> Option<R>>(
    alloc: Global,
    words: Result<(Request, String), WordsFault>,
    opened: F,
    writer: &mut W,
) -> Outcome
    requires callable { F.IsAlwaysCallable opened }
    requires writes { W.failures writer.old < u64.MAX }
    ensures refused { IfErr words (λ fault. (result ≡ Refused fault) × (writer.new ≡ writer.old)) }
    ensures answered { IfOk words (λ it. (file : Option R)
        × FnOnceReturnsAt F.FnOnce opened (string_bytes it.1) file
        × IsOutcomeOf W.contents it.0 (option_map R.remaining file) writer.old writer.new result) }
{
    let (request, name) = match words {
        Ok(request) => request,
        Err(fault) => return Outcome::Refused(fault),
    };
    let file = opened(name.as_str());
    handled(alloc, request, file, writer)
}
