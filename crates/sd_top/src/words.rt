//! The words of a command, as clap reads them. It sees no stream and no device.

ghost use Rattle.std.specs.Prelude.{◌≡◌, ◌≤◌, IfOk, IfSome, map, option_map, string_bytes, Some, None};
ghost use Rattle.std.specs.Option.{ForSome};
ghost use Rattle.std.specs.Str.{all_ascii_digits};
ghost use Rattle.clap.specs.Words.{app_of, first_of, found_of, rows_of};
ghost use Rattle.sd_top.specs.Words.{IsPlace, IsRead, asked_alone, asked_both, asked_by, asked_in, asked_of, command, generated, number_in};

use clap::error::ErrorKind;
use clap::{Arg, ArgMatches, Command};
use sd_base::Memory;
use std::alloc::{AllocError, Global};

/// The most transfers of a generated script.
const MOST_TRANSFERS: u64 = 2_000;

/// What a command asks for.
#[derive(Clone, Copy, Debug, PartialEq, Eq)]
pub enum Request {
    /// `replay`: the script of the source.
    Replay,
    /// `gen NUMBER COUNT`: the script of so many transfers that the number gives.
    Gen { number: u64, count: u32 },
}

/// What the words ask for; `None` where they are no command. They are one where clap takes them and they are `replay` without a number,
/// or `gen` with a NUMBER of at most 20 digits that fits 64 bits and a COUNT of at most 4 digits up to 2,000.
pub fn asked_of(alloc: Global, words: &[String]) -> Result<Option<Request>, Memory>
    ensures { IfOk result (λ what. what ≡ asked_of (map string_bytes words.now)) }
{
    match read(alloc, words)? {
        Some((what, _)) => Ok(Some(what)),
        None => Ok(None),
    }
}

/// The folder that the words name: PATH where they are a command with `--dir PATH`, else none.
pub fn place(alloc: Global, words: &[String]) -> Result<Option<String>, Memory>
    ensures { IfOk result (λ path. IsPlace (map string_bytes words.now) (option_map string_bytes path)) }
{
    let Some((_, found)) = read(alloc, words)? else {
        return Ok(None);
    };
    match first_word(&found, "dir") {
        Some(path) => Ok(Some(String::from_str(alloc, path)?)),
        None => Ok(None),
    }
}

// What the words ask for and what clap finds in them, where they are a command.
fn read<'a>(alloc: Global, words: &'a [String]) -> Result<Option<(Request, ArgMatches<'a>)>, Memory>
    ensures { IfOk result (λ found. IsRead (map string_bytes words.now) found) }
{
    match command(alloc)?.try_get_matches_from(words) {
        Ok(found) => match asked_in(&found) {
            Some(what) => Ok(Some((what, found))),
            None => Ok(None),
        },
        Err(error) => match error.kind() {
            ErrorKind::OutOfMemory => Err(Memory),
            _ => Ok(None),
        },
    }
}

// MODE, which has to be there, then NUMBER and COUNT, which may, and the option `--dir`.
fn command<'a>(alloc: Global) -> Result<Command<'a>, AllocError>
    ensures { IfOk result (λ made. app_of made ≡ command) }
{
    let mode = Arg::new(alloc, "MODE").required(true);
    let number = Arg::new(alloc, "NUMBER");
    let count = Arg::new(alloc, "COUNT");
    let dir = Arg::new(alloc, "dir").long("dir");
    let nameless = Command::new(alloc, "sdaries").no_binary_name(true);
    nameless.arg(mode)?.arg(number)?.arg(count)?.arg(dir)
}

// What is asked for by what clap found.
fn asked_in(found: &ArgMatches<'_>) -> Option<Request>
    ensures { result ≡ asked_in (rows_of (found_of found.now)) }
{
    asked_by(
        first_word(found, "MODE"),
        first_word(found, "NUMBER"),
        first_word(found, "COUNT"),
    )
}

// What is asked for by these words, of which some may be missing.
fn asked_by(mode: Option<&str>, number: Option<&str>, count: Option<&str>) -> Option<Request>
    ensures { result ≡ asked_by (option_map (λ word. word.now) mode.entry) (option_map (λ word. word.now) number.entry)
        (option_map (λ word. word.now) count.entry) }
{
    let mode = mode?;
    if mode == "replay" {
        asked_alone(number, count)
    } else if mode == "gen" {
        asked_both(number, count)
    } else {
        None
    }
}

// `replay` stands alone.
fn asked_alone(number: Option<&str>, count: Option<&str>) -> Option<Request>
    ensures { result ≡ asked_alone (option_map (λ word. word.now) number.entry) (option_map (λ word. word.now) count.entry) }
{
    match (number, count) {
        (None, None) => Some(Request::Replay),
        _ => None,
    }
}

// `gen` wants both numbers.
fn asked_both(number: Option<&str>, count: Option<&str>) -> Option<Request>
    ensures { result ≡ asked_both (option_map (λ word. word.now) number.entry) (option_map (λ word. word.now) count.entry) }
{
    let number = number_in(number?, 20, u64::MAX);
    let count = number_in(count?, 4, MOST_TRANSFERS);
    generated(number, count)
}

// The script that both numbers ask for, where they are there.
fn generated(number: Option<u64>, count: Option<u64>) -> Option<Request>
    requires { ForSome count (λ n. n ≤ 2000) }
    ensures { result ≡ generated number count }
{
    match (number, count) {
        (Some(number), Some(count)) => Some(Request::Gen {
            number,
            count: count as u32,
        }),
        _ => None,
    }
}

// The number of a word of decimal digits, at most so many, where it is at most this one.
fn number_in(word: &str, digits: usize, greatest: u64) -> Option<u64>
    ensures number { result ≡ number_in digits greatest word.now }
    ensures most { IfSome result (λ n. n ≤ greatest) }
{
    if word.is_empty() || word.len() > digits || !are_digits(word) {
        return None;
    }
    match word.parse::<u64>() {
        Ok(number) if number <= greatest => Some(number),
        _ => None,
    }
}

// Whether each byte is a decimal digit.
fn are_digits(word: &str) -> bool
    ensures { result ≡ all_ascii_digits word.now }
{
    let mut rest = word.as_bytes();
    while let [first, after @ ..] = rest {
        if !first.is_ascii_digit() {
            return false;
        }
        rest = after;
    }
    true
}

// The first word of the argument.
fn first_word<'a>(found: &ArgMatches<'a>, id: &str) -> Option<&'a str>
    ensures { option_map (λ word. word.now) result ≡ first_of id.now (rows_of (found_of found.now)) }
{
    found.get_str(id)
}
