//! The run over all lines of a reader.

ghost use Rattle.std.specs.Prelude.{◌≡◌, ◌==◌, ◌∷◌, ◌++◌, [], position};
ghost use Rattle.std.specs.Str.Lines.{strip_carriage_return};
ghost use Rattle.treasury_api.specs.Transcript.{is_blank_text, requests_among};
ghost use Rattle.treasury_api.specs.RunEnd.{HasNoLineFeed, Ends};
ghost use Rattle.treasury_api.specs.Served.{ServesRequests, Feeds, EndsWithLine, feed_place};

use crate::lines::machine::Machine;
use crate::lines::write::write_whole;
use crate::listener::Listener;
use journal_lines::is_blank;
use money_core::Cause;
use std::alloc::Global;
use std::io::{Read, Write};

/// The most bytes that a run reads.
pub const MAX_INPUT: usize = 64 * 1024 * 1024;

/// How many bytes are read at once.
const CHUNK: usize = 4096;

/// Whether the text is blanks alone, or empty.
pub fn is_blank_text(text: &[u8]) -> bool
    ensures { result ≡ is_blank_text text.now }
{
    text.iter().all(|byte| is_blank(*byte))
}

/// The line without the carriage return at its end.
fn without_carriage_return(line: &[u8]) -> &[u8]
    ensures { result.now ≡ strip_carriage_return line.now }
{
    match line.len() {
        0 => line,
        length if line[length - 1] == b'\r' => &line[..length - 1],
        _ => line,
    }
}

/// Answers the request on a line, if it has one.
fn serve_line<W: Write, M: Machine, L: Listener>(
    alloc: Global,
    line: &[u8],
    writer: &mut W,
    machine: &mut M,
    listener: &mut L,
) -> Result<(), Cause>
    ensures { ServesRequests result M.step (W.contents writer.old) (W.contents writer.new)
        machine.old (requests_among (line.now ∷ [])) machine.new }
{
    listener.begin_line();
    if is_blank_text(line) {
        return Ok(());
    }
    let text = machine.answer(alloc, line, listener);
    match write_whole(writer, text.as_slice()) {
        Ok(()) => {
            listener.end_line();
            Ok(())
        }
        Err(_) => Err(Cause::WriteFault),
    }
}

/// Where the first line feed stands, if there is one.
fn feed_place(bytes: &[u8]) -> Option<usize>
    ensures { result ≡ feed_place bytes.now }
{
    bytes.iter().position(|byte| *byte == b'\n')
}

/// Ends the line that was begun by these bytes, and answers its request, if it has one.
fn end_line<W: Write, M: Machine, L: Listener>(
    alloc: Global,
    bytes: &[u8],
    line: &mut Vec<u8>,
    writer: &mut W,
    machine: &mut M,
    listener: &mut L,
) -> Result<(), Cause>
    requires begun { HasNoLineFeed line.old.items }
    requires more { HasNoLineFeed bytes.now }
    ensures { EndsWithLine result M.step (W.contents writer.old) (W.contents writer.new)
        machine.old (line.old.items ++ bytes.now) line.new.items machine.new }
{
    match line.extend_from_slice(bytes) {
        Ok(()) => {}
        Err(_) => return Err(Cause::OutOfMemory),
    }
    match serve_line(
        alloc,
        without_carriage_return(line.as_slice()),
        writer,
        machine,
        listener,
    ) {
        Ok(()) => {
            line.clear();
            Ok(())
        }
        Err(cause) => Err(cause),
    }
}

/// Answers each line that these bytes end, and keeps what they begin of the next.
fn feed<W: Write, M: Machine, L: Listener>(
    alloc: Global,
    bytes: &[u8],
    line: &mut Vec<u8>,
    writer: &mut W,
    machine: &mut M,
    listener: &mut L,
) -> Result<(), Cause>
    requires { HasNoLineFeed line.old.items }
    ensures { Feeds result M.step (W.contents writer.old) (W.contents writer.new)
        machine.old (line.old.items ++ bytes.now) line.new.items machine.new }
{
    let mut rest = bytes;
    'feeding: loop {
        let place = match feed_place(rest) {
            Some(place) => place,
            None => break,
        };
        let (front, back) = rest.split_at(place);
        match end_line(alloc, front, line, writer, machine, listener) {
            Ok(()) => {}
            Err(cause) => return Err(cause),
        }
        rest = back.split_at(1).1;
    }
    match line.extend_from_slice(rest) {
        Ok(()) => Ok(()),
        Err(_) => Err(Cause::OutOfMemory),
    }
}

/// Answers each request that the reader gives, of at most `MAX_INPUT` bytes in all.
///
/// Each answer is one text that is written at once. 45 comes where a read fails, whatever its error, or where the input
/// goes on past the bound; 46 where a write fails or takes nothing. 40 comes where memory is refused: the lines before
/// that are answered, and nothing else has changed.
pub fn run_machine<R: Read, W: Write, M: Machine, L: Listener>(
    alloc: Global,
    reader: &mut R,
    writer: &mut W,
    machine: &mut M,
    listener: &mut L,
) -> Result<(), Cause>
    ensures { Ends result M.step MAX_INPUT
        R.remaining reader.old reader.new W.contents writer.old writer.new machine.old machine.new }
{
    let mut chunk = [0u8; CHUNK];
    let mut line = Vec::new(alloc);
    let mut left = MAX_INPUT;
    'reading: loop {
        // After the last byte that may be read, one more shows that the input goes on.
        let most = left.min(CHUNK).max(1);
        match reader.read(&mut chunk[..most]) {
            Ok(0) => break,
            Ok(count) => {
                if count > left {
                    return Err(Cause::ReadFault);
                }
                left -= count;
                match feed(alloc, &chunk[..count], &mut line, writer, machine, listener) {
                    Ok(()) => {}
                    Err(cause) => return Err(cause),
                }
            }
            Err(_) => return Err(Cause::ReadFault),
        }
    }
    match serve_line(alloc, line.as_slice(), writer, machine, listener) {
        Ok(()) => Ok(()),
        Err(cause) => Err(cause),
    }
}
