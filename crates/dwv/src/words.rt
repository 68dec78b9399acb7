//! The words of the command line.

ghost use Rattle.std.specs.Prelude.{◌≡◌, ◌≢◌, List, ℕ, false, map, codes, IfOk, IsErrOf, SomeIff};
ghost use Rattle.std.specs.String.{string_bytes};
ghost use Rattle.clap.specs.Words.{app_of, found_of, kind_of, rows_of, rule_of};
ghost use Rattle.dw_report.specs.declared.request.Request.{Request as RequestOf};
ghost use Rattle.dwv.specs.Words.{AreRequest, IsBadOffset, HaveBadOffset, IsOffsetWord, IsRequest, offset_in};
ghost use Rattle.dwv.specs.Words.{command_line, json_option, required_word};
ghost use Rattle.dwv.specs.declared.words.WordsFault.TheVariants.{Memory};

use clap::error::ErrorKind;
use clap::{Arg, ArgAction, ArgMatches, Command, Error};
use dw_io::{ArgumentFault, after_name};
use dw_report::Request;
use std::alloc::{AllocError, Global};
use std::rt::Env;

/// Why words are no request.
#[derive(Clone, Copy, Debug, PartialEq, Eq)]
pub enum WordsFault {
    /// The words have none of the program's forms.
    BadUsage,
    /// The offset is not `0x` and 1 to 8 hexadecimal digits.
    BadOffset,
    /// An allocation failed.
    Memory,
}

impl From<AllocError> for WordsFault {
    ghost from_gives = { λ _ fault. fault ≡ Memory };

    fn from(_error: AllocError) -> WordsFault {
        WordsFault::Memory
    }
}

/// A word that must be given.
fn word<'a>(alloc: Global, name: &'a str) -> Arg<'a>
    ensures rule { rule_of result ≡ required_word name.entry.now }
    ensures local { result.global ≡ false }
{
    Arg::new(alloc, name).required(true).action(ArgAction::Set)
}

/// The option `--json`.
fn json<'a>(alloc: Global) -> Arg<'a>
    ensures rule { rule_of result ≡ json_option }
    ensures local { result.global ≡ false }
{
    Arg::new(alloc, "json")
        .long("json")
        .action(ArgAction::SetTrue)
}

/// The forms of the words.
fn forms<'a>(alloc: Global) -> Result<Command<'a>, AllocError>
    ensures { IfOk result (λ forms. app_of forms ≡ command_line) }
{
    let check = Command::new(alloc, "check")
        .arg(json(alloc))?
        .arg(word(alloc, "FILE"))?;
    let show = Command::new(alloc, "show").arg(word(alloc, "FILE"))?;
    let types = Command::new(alloc, "types").arg(word(alloc, "FILE"))?;
    let size = Command::new(alloc, "size")
        .arg(word(alloc, "FILE"))?
        .arg(word(alloc, "OFFSET"))?;
    Command::new(alloc, "dwv")
        .no_binary_name(true)
        .subcommand(check)?
        .subcommand(show)?
        .subcommand(types)?
        .subcommand(size)
}

/// The number of an offset: `0x` and 1 to 8 hexadecimal digits.
fn offset_of(text: &str) -> Option<u32>
    ensures { SomeIff result (IsOffsetWord text.now) (offset_in text.now) }
{
    let digits = text.strip_prefix("0x")?;
    // A plus would be read as a sign.
    if digits.len() > 8 || digits.starts_with('+') {
        return None;
    }
    u32::from_str_radix(digits, 16).ok()
}

/// Why words have none of the forms.
fn refusal(error: &Error) -> WordsFault
    ensures usage { result ≡ WordsFault.BadUsage → kind_of error.now ≡ ErrorKind.OutOfMemory → ⊥ }
    ensures memory { result ≡ WordsFault.Memory → kind_of error.now ≡ ErrorKind.OutOfMemory }
    ensures not_offset { result ≢ WordsFault.BadOffset }
{
    if matches!(error.kind(), ErrorKind::OutOfMemory) {
        return WordsFault::Memory;
    }
    WordsFault::BadUsage
}

/// The request that a command and its values are.
fn request_of(name: &str, matches: &ArgMatches<'_>) -> Result<Request, WordsFault>
    ensures ok { IfOk result (IsRequest name.now (rows_of (found_of matches.now))) }
    ensures bad_usage { IsErrOf result WordsFault.BadUsage
        → (request : RequestOf) → IsRequest name.now (rows_of (found_of matches.now)) request → ⊥ }
    ensures bad_offset { IsErrOf result WordsFault.BadOffset
        → IsBadOffset name.now (rows_of (found_of matches.now)) }
{
    match name {
        "check" => Ok(Request::Check {
            json: matches.get_flag("json"),
        }),
        "show" => Ok(Request::Show),
        "types" => Ok(Request::Types),
        "size" => {
            let Some(text) = matches.get_str("OFFSET") else {
                return Err(WordsFault::BadUsage);
            };
            match offset_of(text) {
                Some(offset) => Ok(Request::Size(offset)),
                None => Err(WordsFault::BadOffset),
            }
        }
        _ => Err(WordsFault::BadUsage),
    }
}

/// The request and the file's name that the words after the program's name give.
pub fn words(alloc: Global, words: &[String]) -> Result<(Request, String), WordsFault>
    ensures ok { IfOk result (λ found. AreRequest (map string_bytes words.now) found.0 (string_bytes found.1)) }
    ensures bad_usage { IsErrOf result WordsFault.BadUsage
        → (request : RequestOf) (file : List ℕ) → AreRequest (map string_bytes words.now) request file → ⊥ }
    ensures bad_offset { IsErrOf result WordsFault.BadOffset → HaveBadOffset (map string_bytes words.now) }
{
    let matches = match forms(alloc)?.try_get_matches_from(words) {
        Ok(matches) => matches,
        Err(error) => return Err(refusal(&error)),
    };
    let Some((name, of_name)) = matches.subcommand() else {
        return Err(WordsFault::BadUsage);
    };
    let Some(file) = of_name.get_str("FILE") else {
        return Err(WordsFault::BadUsage);
    };
    let request = match request_of(name, of_name) {
        Ok(request) => request,
        Err(fault) => return Err(fault),
    };
    Ok((request, String::from_str(alloc, file)?))
}

/// The request and the file's name that the words after the program's name give. Each of them must be UTF-8.
pub fn read_words<R: Env + AllocGlobal>(rt: &R) -> Result<(Request, String), WordsFault> {
    match after_name(rt) {
        Ok(given) => words(rt.alloc(), given.as_slice()),
        Err(ArgumentFault::NotText) => Err(WordsFault::BadUsage),
        Err(ArgumentFault::Memory) => Err(WordsFault::Memory),
    }
}
