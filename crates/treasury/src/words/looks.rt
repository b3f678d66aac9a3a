//! What more can be said of a word that is refused by 41 or 45, by a look at its files.

use clap::ArgMatches;
use money_core::Cause;
use treasury_files::{has_log, log_name, why_unread, why_unused};
use treasury_messages::{Message, MessageKind, Piece, hint, say, text_of};
use treasury_spelling::value_of;

/// Whether the sentence that was said speaks of an opening that failed, and not of a file in use.
fn is_of_opening(reason: &[u8]) -> bool {
    let unopened: &[u8] = b"the file cannot be ";
    let damaged: &[u8] = b"is damaged";
    reason.windows(unopened.len()).any(|part| part == unopened)
        || reason.windows(damaged.len()).any(|part| part == damaged)
}

/// Whether the sentence that was said speaks of a journal's file, and not of a reply.
fn is_of_journal(reason: &[u8]) -> bool {
    let unread: &[u8] = b"the journal's file cannot be read";
    reason.windows(unread.len()).any(|part| part == unread)
}

/// What a look at the files of a refused word says.
fn found_of(
    rt: &HostRuntime,
    values: &ArgMatches<'_>,
    answer: &[u8],
    reason: &[u8],
) -> Option<&'static [u8]> {
    if answer.starts_with(b"refused 45") && is_of_journal(reason) {
        let journal = value_of(values, "journal")?;
        return why_unread(rt, journal);
    }
    if answer.starts_with(b"refused 41") && is_of_opening(reason) {
        let path = value_of(values, "db")?;
        return why_unused(rt, path);
    }
    None
}

/// Whether a word is refused by what its file holds, or may be by what its log holds.
fn is_of_log(answer: &[u8], reason: &[u8]) -> bool {
    let beside: &[u8] = b"a log stands beside the file";
    answer.starts_with(b"refused 43") || reason.windows(beside.len()).any(|part| part == beside)
}

/// Says which file is the log, and what to do where it is another file's.
fn say_log(log: &[u8], out: &mut Vec<Message>) -> Result<(), Cause> {
    say(
        MessageKind::Hint,
        &[Piece::Words(b"its log: "), Piece::Text(log)],
        out,
    )?;
    hint(
        b"if the file is a copy that was put back, remove the log first",
        out,
    )
}

/// Says what there is to say of the log of a refused word's file, where one stands beside it.
fn say_looked(rt: &HostRuntime, values: &ArgMatches<'_>, out: &mut Vec<Message>) {
    let Some(path) = value_of(values, "db") else {
        return;
    };
    if has_log(rt, path) {
        if let Ok(log) = log_name(rt, path) {
            let _ = say_log(log.as_bytes(), out);
        }
    }
}

/// What a look at the files of a refused word says, where it says more than the reason: lines, or nothing.
pub fn looks_of(
    rt: &HostRuntime,
    values: &ArgMatches<'_>,
    answer: &[u8],
    reason: &[u8],
) -> Vec<u8> {
    let mut said = Vec::new(rt.alloc());
    if let Some(found) = found_of(rt, values, answer, reason) {
        let _ = hint(found, &mut said);
    }
    if is_of_log(answer, reason) {
        say_looked(rt, values, &mut said);
    }
    text_of(rt.alloc(), said.as_slice())
}
