//! The words of the command line, as they are read: by `clap`, and each but `run` over one file or through one service.

ghost use Rattle.std.specs.Prelude.{◌≡◌, ◌⊎◌, IfOk, IfErr, map, codes, string_bytes};
ghost use Rattle.clap.specs.Kinds.{IsAmong};
ghost use Rattle.clap.specs.Matches.{found_of};
ghost use Rattle.clap.specs.Simple.{subcommand_rows_of};
ghost use Rattle.clap.specs.Values.{kind_of};
ghost use Rattle.clap.specs.Walk.{first_of, rows_of};
ghost use Rattle.treasury_spelling.specs.Knowing.{kinds_in};
ghost use Rattle.treasury_spelling.specs.Words.{AreTaken, named, objections, place_kinds, place_objections};

use crate::known::known_words;
use crate::spelling::value_of;
use clap::error::ErrorKind;
use clap::{ArgMatches, Command, Error};
use std::alloc::Global;

/// Said where `--db` and `--at` are both given.
const BOTH: &str = "the argument '--db <FILE>' cannot be used with '--at <PORT>'";

/// Said where neither is.
const NEITHER: &str =
    "the following required arguments were not provided:\n  --db <FILE> or --at <PORT>";

/// What is wrong with the file and the service that values name: both are given, or neither.
fn place_fault(values: &ArgMatches<'_>) -> Option<ErrorKind>
    ensures { kinds_in result ≡ place_kinds (first_of (codes "db") (rows_of (found_of values.now)))
        (first_of (codes "at") (rows_of (found_of values.now))) }
{
    match value_of(values, "db") {
        Some(_) => match value_of(values, "at") {
            Some(_) => Some(ErrorKind::ArgumentConflict),
            None => None,
        },
        None => match value_of(values, "at") {
            Some(_) => None,
            None => Some(ErrorKind::MissingRequiredArgument),
        },
    }
}

/// What is wrong with the file and the service that a word names. `run` is over none.
fn fault_in(matches: &ArgMatches<'_>) -> Option<ErrorKind>
    ensures { kinds_in result ≡ place_objections (subcommand_rows_of matches.now) }
{
    match matches.subcommand() {
        Some((word, values)) => {
            if word == "run" {
                None
            } else {
                place_fault(values)
            }
        }
        None => None,
    }
}

/// The error of words that name no file and no service, or both.
fn place_error(known: &mut Command<'_>, kind: ErrorKind) -> Error
    ensures { (kind_of result ≡ ErrorKind.OutOfMemory) ⊎ (kind_of result ≡ kind) }
{
    let message = match kind {
        ErrorKind::ArgumentConflict => BOTH,
        _ => NEITHER,
    };
    match known.error(kind, message) {
        Ok(error) => error,
        Err(error) => Error::from(error),
    }
}

/// What words match, the program's name first, where they are taken.
pub fn read_words<'a>(alloc: Global, words: &'a [String]) -> Result<ArgMatches<'a>, Error>
    ensures taken { IfOk result (λ m. AreTaken (map string_bytes words.entry.now)) }
    ensures named { IfOk result (λ m. named (map string_bytes words.entry.now) ≡ subcommand_rows_of m) }
    ensures fails { IfErr result (λ error. (kind_of error ≡ ErrorKind.OutOfMemory)
        ⊎ IsAmong (kind_of error) (objections (map string_bytes words.entry.now))) }
{
    let mut known = match known_words(alloc) {
        Ok(known) => known,
        Err(error) => return Err(Error::from(error)),
    };
    let matches = match known.try_get_matches_from_mut(words) {
        Ok(matches) => matches,
        Err(error) => return Err(error),
    };
    match fault_in(&matches) {
        None => Ok(matches),
        Some(kind) => Err(place_error(&mut known, kind)),
    }
}
