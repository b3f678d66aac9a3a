//! The program `treasury`: a federation's books over a file, word by word, or its requests from standard input in
//! memory.
#![tactic(auto)]

mod laws;
mod words;

use sqlite::Wary;
use std::env::VarError;
use std::process::ExitCode;
use std::{env, io};

/// The value of a variable of the environment, unless it is empty.
fn variable(rt: &HostRuntime, name: &str) -> io::Result<Option<String>> {
    match env::var(rt, name) {
        Ok(value) if value.is_empty() => Ok(None),
        Ok(value) => Ok(Some(value)),
        Err(VarError::NotPresent) => Ok(None),
        Err(VarError::NotUnicode) => Err(io::Error::from(io::ErrorKind::InvalidData)),
        Err(VarError::OutOfMemory) => Err(io::Error::from(io::ErrorKind::OutOfMemory)),
    }
}

/// The option that a variable stands for, and its value, if one of the two is set and the other is not.
fn place_by_variable(rt: &HostRuntime) -> io::Result<Option<(&'static str, String)>> {
    let file = variable(rt, "TREASURY_DB")?;
    let port = variable(rt, "TREASURY_AT")?;
    Ok(match (file, port) {
        (Some(file), None) => Some(("--db", file)),
        (None, Some(port)) => Some(("--at", port)),
        _ => None,
    })
}

/// Whether a word is `--db` or `--at`, with its value or without.
fn names_place(word: &str) -> bool {
    match word.split_once('=') {
        Some((option, _)) => option == "--db" || option == "--at",
        None => word == "--db" || word == "--at",
    }
}

/// Whether a subcommand takes an option that names a treasury.
fn takes_place(subcommand: &str, option: &str) -> bool {
    match subcommand {
        "run" | "help" => false,
        "init" | "serve" => option == "--db",
        _ => !subcommand.starts_with('-'),
    }
}

/// Adds the option that a variable stands for, where the subcommand takes it and the words have neither.
fn add_place(rt: &HostRuntime, words: &mut Vec<String>) -> io::Result<()> {
    for word in words.iter() {
        if names_place(word) {
            return Ok(());
        }
    }
    let Some((option, value)) = place_by_variable(rt)? else {
        return Ok(());
    };
    if let Some(subcommand) = words.get(1) {
        if takes_place(subcommand, option) {
            // In one word, as the value may begin with a hyphen.
            words.insert(2, format!(in rt.alloc(); "{option}={value}")?)?;
        }
    }
    Ok(())
}

/// The words that the program was called with, its own name first, and those that a variable stands for.
fn words_given(rt: &HostRuntime) -> io::Result<Vec<String>> {
    let mut words = Vec::new(rt.alloc());
    for word in env::args(rt)? {
        words.push(word)?;
    }
    add_place(rt, &mut words)?;
    Ok(words)
}

/// Says why the words cannot be had.
fn say_unread(rt: &HostRuntime, error: io::Error) {
    if error.kind() == io::ErrorKind::InvalidData {
        let _ = eprintln!(rt; "treasury: an argument or a variable is not UTF-8");
    }
}

fn main(rt: HostRuntime) -> io::Result<ExitCode> {
    // Words that cannot be had are as none: the usage is shown.
    let words = match words_given(&rt) {
        Ok(words) => words,
        Err(error) => {
            say_unread(&rt, error);
            Vec::new(rt.alloc())
        }
    };
    let mut input = rt.reader();
    let mut output = io::writer(&rt);
    let ended = words::run_words(&rt, words.as_slice(), &mut input, &mut output, Wary);
    // What is left of a word's files is held until here.
    Ok(ExitCode::from(ended.status))
}
