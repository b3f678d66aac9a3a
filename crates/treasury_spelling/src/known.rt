//! The words that the program knows: those of the table of requests, and those that are no requests.

ghost use Rattle.std.specs.Prelude.{◌≡◌, ◌∷◌, [], codes, false, pos, map, IfOk};
ghost use Rattle.clap.specs.Walk.{rule_of};
ghost use Rattle.clap.specs.Simple.{app_of};
ghost use Rattle.clap.specs.declared.builder.command.Command.TheViews.{out-Command};
ghost use Rattle.treasury_spelling.specs.Known.{optional, number, flag, argument};
ghost use Rattle.treasury_spelling.specs.Known.{file_shape, placed_shape, request_shape};
ghost use Rattle.treasury_spelling.specs.Known.{serve_shape, run_shape, known};
ghost use Rattle.treasury_spelling.specs.Knowing.{IsLeaf, with_rules, with_shapes};

use crate::help::{self, Page};
use crate::spelling::if_left_out;
use clap::builder::ValueParser;
use clap::{Arg, ArgAction, Command};
use std::alloc::{AllocError, Global};
use treasury_requests::{Key, Word};

/// The version that `--version` shows.
const VERSION: &str = "0.13.0";

/// An option with a value, which may be given.
fn optional<'a>(alloc: Global, name: &'a str, value: &'a str, help: &'a str) -> Arg<'a>
    ensures rule { rule_of result ≡ optional name.entry.now }
    ensures local { result.global ≡ false }
{
    Arg::new(alloc, name)
        .long(name)
        .value_name(value)
        .help(help)
}

/// An option with a whole number of a range, which may be given.
fn number<'a>(
    alloc: Global,
    name: &'a str,
    value: &'a str,
    help: &'a str,
    least: i64,
    most: i64,
) -> Arg<'a>
    ensures rule { rule_of result ≡ number name.entry.now least most }
    ensures local { result.global ≡ false }
{
    optional(alloc, name, value, help).value_parser(ValueParser::signed(least, most))
}

/// A flag.
fn flag<'a>(alloc: Global, name: &'a str, help: &'a str) -> Arg<'a>
    ensures rule { rule_of result ≡ flag name.entry.now }
    ensures local { result.global ≡ false }
{
    Arg::new(alloc, name)
        .long(name)
        .action(ArgAction::SetTrue)
        .help(help)
}

/// The argument by which a word is given a key of its request.
fn argument<'a>(alloc: Global, word: Word, key: Key, is_needed: bool) -> Arg<'a>
    ensures rule { rule_of result ≡ argument word is_needed key }
    ensures local { result.global ≡ false }
{
    let name: &'a str = key.name();
    let (value, says): (&'a str, &'a str) = help::key_help(word, key);
    match key {
        Key::DryRun => flag(alloc, name, says),
        Key::Name | Key::Sample | Key::Journal => Arg::new(alloc, name)
            .value_name(value)
            .required(true)
            .help(says),
        _ => optional(alloc, name, value, says).required(
            is_needed && if_left_out(word, key).is_none(),
        ),
    }
}

/// A word with the arguments of these keys after its own.
fn with_keys<'a>(
    alloc: Global,
    command: Command<'a>,
    word: Word,
    keys: &[Key],
    is_needed: bool,
) -> Result<Command<'a>, AllocError>
    ensures app { IfOk result (λ new.
        app_of new ≡ with_rules (app_of command.entry) (map (argument word is_needed) keys.now)) }
    ensures local { IfOk result (λ new. (out-Command new).has_globals ≡ (out-Command command.entry).has_globals) }
{
    let mut command = command;
    for key in keys {
        command = command.arg(argument(alloc, word, *key, is_needed))?;
    }
    Ok(command)
}

/// A word over a database file, or through the service that has it. `place_fault` sees that one of the two is given.
fn placed<'a>(
    alloc: Global,
    name: &'a str,
    about: &'a str,
    below: &'a str,
) -> Result<Command<'a>, AllocError>
    ensures { IfOk result (IsLeaf (placed_shape name.entry.now [])) }
{
    Command::new(alloc, name)
        .about(about)
        .after_help(below)
        .arg(optional(alloc, "db", "FILE", help::DB_HELP))?
        .arg(number(alloc, "at", "PORT", help::AT_HELP, 1, 65535))
}

/// The word of a request, with its keys.
fn request_word<'a>(alloc: Global, page: &Page) -> Result<Command<'a>, AllocError>
    ensures { IfOk result (IsLeaf (request_shape page.now.word)) }
{
    let row = page.word.row();
    let command = placed(alloc, row.name, page.about, page.below)?;
    let command = with_keys(alloc, command, page.word, row.needed, true)?;
    with_keys(alloc, command, page.word, row.further, false)
}

/// With the words of requests after its own.
fn with_requests<'a>(
    alloc: Global,
    command: Command<'a>,
    pages: &[Page],
) -> Result<Command<'a>, AllocError>
    ensures { IfOk result (λ new.
        app_of new ≡ with_shapes (app_of command.entry) (map (λ page. request_shape page.word) pages.now)) }
{
    let mut command = command;
    for page in pages {
        command = command.subcommand(request_word(alloc, page)?)?;
    }
    Ok(command)
}

/// A word over a database file alone.
fn file_word<'a>(
    alloc: Global,
    name: &'a str,
    about: &'a str,
    below: &'a str,
) -> Result<Command<'a>, AllocError>
    ensures { IfOk result (IsLeaf (file_shape name.entry.now [])) }
{
    Command::new(alloc, name).about(about).after_help(below).arg(optional(
        alloc,
        "db",
        "FILE",
        "The database file",
    ).required(true))
}

/// The word `serve`.
fn serve<'a>(alloc: Global) -> Result<Command<'a>, AllocError>
    ensures { IfOk result (IsLeaf serve_shape) }
{
    file_word(alloc, "serve", help::ABOUT_SERVE, help::EXAMPLE_SERVE)?
        .arg(number(alloc, "port", "PORT", help::PORT_HELP, 0, 65535).required(true))?
        .arg(number(alloc, "requests", "N", help::REQUESTS_HELP, 0, 4294967295))
}

/// The word `run`, which is over no file.
fn run<'a>(alloc: Global) -> Result<Command<'a>, AllocError>
    ensures { IfOk result (IsLeaf run_shape) }
{
    Command::new(alloc, "run")
        .about(help::ABOUT_RUN)
        .after_help(help::EXAMPLE_RUN)
        .arg(flag(alloc, "explain", help::EXPLAIN_HELP))
}

/// The words that the program knows, in the order of a treasurer's year.
pub fn known_words<'a>(alloc: Global) -> Result<Command<'a>, AllocError>
    ensures { IfOk result (λ command. app_of command ≡ known) }
{
    let command = Command::new(alloc, "treasury")
        .version(VERSION)
        .about(help::ABOUT)
        .after_help(help::EXAMPLE)
        .arg_required_else_help(true)
        .subcommand_required(true)
        .subcommand(file_word(alloc, "init", help::ABOUT_INIT, help::EXAMPLE_INIT)?)?;
    with_requests(alloc, command, help::year())?
        .subcommand(serve(alloc)?)?
        .subcommand(run(alloc)?)
}
