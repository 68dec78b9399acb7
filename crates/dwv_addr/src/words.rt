//! The words of the command line.

ghost use Rattle.std.specs.Prelude.{◌≡◌, List, false, map, IfOk, IsErrOf};
ghost use Rattle.std.specs.String.{string_bytes};
ghost use Rattle.clap.specs.Words.{Text, app_of, found_of, kind_of, rows_of, rule_of};
ghost use Rattle.dwv_addr.specs.Addresses.{address_in};
ghost use Rattle.dwv_addr.specs.declared.request.Request.{Request as RequestOf};
ghost use Rattle.dwv_addr.specs.Words.{AreRequest, IsRequest, asked_in};
ghost use Rattle.dwv_addr.specs.Words.{command_line, json_option, more_words, required_word};
ghost use Rattle.dwv_addr.specs.declared.words.WordsFault.TheVariants.{Memory};

use crate::addresses::address_of;
use crate::request::Request;
use clap::error::ErrorKind;
use clap::{Arg, ArgAction, ArgMatches, Command, Error};
use dw_io::{ArgumentFault, after_name};
use std::alloc::{AllocError, Global};
use std::rt::Env;

/// Why words are no request.
#[derive(Clone, Copy, Debug, PartialEq, Eq)]
pub enum WordsFault {
    /// The words have none of the program's forms.
    BadUsage,
    /// An allocation failed.
    Memory,
}

impl From<AllocError> for WordsFault {
    ghost from_gives = { λ _ fault. fault ≡ Memory };

    fn from(_error: AllocError) -> WordsFault {
        WordsFault::Memory
    }
}

/// A request, the name of its file, and the address that each word in the place of addresses is, or that it is none.
#[derive(Drop)]
pub struct Given {
    pub request: Request,
    pub file: String,
    pub addresses: Vec<Option<u64>>,
}

/// A word that must be given.
fn word<'a>(alloc: Global, name: &'a str) -> Arg<'a>
    ensures rule { rule_of result ≡ required_word name.entry.now }
    ensures local { result.global ≡ false }
{
    Arg::new(alloc, name).required(true).action(ArgAction::Set)
}

/// Words that may be given.
fn more<'a>(alloc: Global, name: &'a str) -> Arg<'a>
    ensures rule { rule_of result ≡ more_words name.entry.now }
    ensures local { result.global ≡ false }
{
    Arg::new(alloc, name).action(ArgAction::Append)
}

/// The option `--json`.
fn json<'a>(alloc: Global) -> Arg<'a>
    ensures rule { rule_of result ≡ json_option }
    ensures local { result.global ≡ false }
{
    Arg::new(alloc, "json")
        .long("json")
        .action(ArgAction::SetTrue)
}

/// The forms of the words.
fn forms<'a>(alloc: Global) -> Result<Command<'a>, AllocError>
    ensures { IfOk result (λ forms. app_of forms ≡ command_line) }
{
    let check = Command::new(alloc, "check")
        .arg(json(alloc))?
        .arg(word(alloc, "FILE"))?;
    let find = Command::new(alloc, "find")
        .arg(json(alloc))?
        .arg(word(alloc, "FILE"))?
        .arg(more(alloc, "ADDRESS"))?;
    Command::new(alloc, "dwv-addr")
        .no_binary_name(true)
        .subcommand(check)?
        .subcommand(find)
}

/// Why words have none of the forms.
fn refusal(error: &Error) -> WordsFault
    ensures usage { result ≡ WordsFault.BadUsage → kind_of error.now ≡ ErrorKind.OutOfMemory → ⊥ }
    ensures memory { result ≡ WordsFault.Memory → kind_of error.now ≡ ErrorKind.OutOfMemory }
{
    if matches!(error.kind(), ErrorKind::OutOfMemory) {
        return WordsFault::Memory;
    }
    WordsFault::BadUsage
}

/// The request that a command and its values are.
fn request_of(name: &str, matches: &ArgMatches<'_>) -> Result<Request, WordsFault>
    ensures ok { IfOk result (IsRequest name.now (rows_of (found_of matches.now))) }
    ensures bad_usage { IsErrOf result WordsFault.BadUsage
        → (request : RequestOf) → IsRequest name.now (rows_of (found_of matches.now)) request → ⊥ }
{
    match name {
        "check" => Ok(Request::Check {
            json: matches.get_flag("json"),
        }),
        "find" => Ok(Request::Find {
            json: matches.get_flag("json"),
        }),
        _ => Err(WordsFault::BadUsage),
    }
}

/// The address that each text is, or that it is none.
fn addresses_of(alloc: Global, texts: &[&str]) -> Result<Vec<Option<u64>>, AllocError>
    ensures { IfOk result (λ found. found.items ≡ map address_in (map (λ text. text.now) texts.now)) }
{
    let mut found = Vec::new(alloc);
    for text in texts {
        found.push(address_of(text.as_bytes()))?;
    }
    Ok(found)
}

/// The address that each word in the place of addresses is, or that it is none.
fn asked_of(alloc: Global, matches: &ArgMatches<'_>) -> Result<Vec<Option<u64>>, AllocError>
    ensures { IfOk result (λ found. found.items ≡ map address_in (asked_in (rows_of (found_of matches.now)))) }
{
    match matches.get_strs("ADDRESS") {
        Some(texts) => addresses_of(alloc, texts),
        None => Ok(Vec::new(alloc)),
    }
}

/// The request, the file's name and the addresses that the words after the program's name give.
pub fn words(alloc: Global, words: &[String]) -> Result<Given, WordsFault>
    ensures ok { IfOk result (λ given. (asked : List Text)
        × AreRequest (map string_bytes words.now) given.request (string_bytes given.file) asked
        × (given.addresses.items ≡ map address_in asked)) }
    ensures bad_usage { IsErrOf result WordsFault.BadUsage
        → (request : RequestOf) (file : Text) (asked : List Text)
        → AreRequest (map string_bytes words.now) request file asked → ⊥ }
{
    let matches = match forms(alloc)?.try_get_matches_from(words) {
        Ok(matches) => matches,
        Err(error) => return Err(refusal(&error)),
    };
    let Some((name, of_name)) = matches.subcommand() else {
        return Err(WordsFault::BadUsage);
    };
    let Some(file) = of_name.get_str("FILE") else {
        return Err(WordsFault::BadUsage);
    };
    let request = match request_of(name, of_name) {
        Ok(request) => request,
        Err(fault) => return Err(fault),
    };
    let addresses = asked_of(alloc, of_name)?;
    let file = String::from_str(alloc, file)?;
    Ok(Given {
        request,
        file,
        addresses,
    })
}

/// The request, the file's name and the addresses that the words after the program's name give. Each of them must be
/// UTF-8.
pub fn read_words<R: Env + AllocGlobal>(rt: &R) -> Result<Given, WordsFault> {
    match after_name(rt) {
        Ok(given) => words(rt.alloc(), given.as_slice()),
        Err(ArgumentFault::NotText) => Err(WordsFault::BadUsage),
        Err(ArgumentFault::Memory) => Err(WordsFault::Memory),
    }
}
