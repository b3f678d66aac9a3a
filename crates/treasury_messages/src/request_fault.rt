//! What is said of the fault of a text that is no request.

ghost use Rattle.std.specs.Prelude.{◌≡◌, ◌++◌, [], ◌∷◌, map, OnOk};
ghost use Rattle.treasury_requests.specs.Words.{key_name, word_name, all_words};
ghost use Rattle.treasury_messages.specs.Said.{says, naming};
ghost use Rattle.treasury_messages.specs.RequestFaults.{kind_text, place_values, other_said, keys_said, fault_said};

use crate::kind::MessageKind;
use crate::message::{Message, say};
use crate::piece::Piece;
use money_core::{Cause, Text};
use treasury_requests::{Key, Kind, RequestFault, Word, all_words};

/// How a day is written.
const FORM_OF_DAYS: &[u8] =
    b"a day is written 2024-12-31, 2024/12/31 or 2024.12.31, with four digits of the year";

/// What a value is.
fn kind_text(kind: Kind) -> &'static [u8]
    ensures { result.now ≡ kind_text kind }
{
    match kind {
        Kind::Null => b"null",
        Kind::Boolean => b"a truth value",
        Kind::Number => b"a number",
        Kind::String => b"a string",
        Kind::Array => b"an array",
        Kind::Object => b"an object",
    }
}

/// Adds keys, each after a blank.
fn add_keys(keys: &[Key], message: &mut Message) -> Result<(), Cause>
    ensures ok { OnOk result (message.new ≡ naming message.old (map key_name keys.now)) }
{
    for key in keys {
        message.add(&[Piece::Words(b" "), Piece::Text(key.name().as_bytes())])?;
    }
    Ok(())
}

/// Adds words of `do`, each after a blank.
fn add_words(words: &[Word], message: &mut Message) -> Result<(), Cause>
    ensures ok { OnOk result (message.new ≡ naming message.old (map word_name words.now)) }
{
    for word in words {
        message.add(&[Piece::Words(b" "), Piece::Text(word.row().name.as_bytes())])?;
    }
    Ok(())
}

/// Adds the keys that a request may have beside those that it has to have.
fn add_further(keys: &[Key], message: &mut Message) -> Result<(), Cause>
    ensures ok { OnOk result (message.new ≡ naming message.old (map key_name keys.now)) }
{
    if !keys.is_empty() {
        message.add(&[Piece::Words(b"; also:")])?;
    }
    add_keys(keys, message)
}

/// Says the keys of the request of a word.
#[tactic(auto, unfolding(crate::specs::RequestFaults::keys_said))]
fn say_keys(word: Word, out: &mut Vec<Message>) -> Result<(), Cause>
    ensures ok { OnOk result (out.new.items ≡ out.old.items ++ keys_said word ∷ []) }
{
    let mut message = Message::new(*out.allocator(), MessageKind::KeysOf);
    let row = word.row();
    message.add(&[
        Piece::Words(b"keys of "),
        Piece::Text(row.name.as_bytes()),
        Piece::Words(b": do"),
    ])?;
    add_keys(row.needed, &mut message)?;
    add_further(row.further, &mut message)?;
    message.say(out)
}

/// Says the words of `do` that ask for something.
fn say_known(out: &mut Vec<Message>) -> Result<(), Cause>
    ensures ok { OnOk result
        (out.new.items ≡ out.old.items ++ says MessageKind.KnownWords (map word_name all_words) ∷ []) }
{
    let mut message = Message::new(*out.allocator(), MessageKind::KnownWords);
    message.add(&[Piece::Words(b"known:")])?;
    add_words(all_words(), &mut message)?;
    message.say(out)
}

/// Adds a place: a byte, and the line in which it stands unless that is the first.
fn add_place(line: usize, byte: usize, message: &mut Message) -> Result<(), Cause>
    ensures ok { OnOk result (message.new ≡ naming message.old (place_values line byte)) }
{
    if line == 1 {
        message.add(&[Piece::Words(b"byte "), Piece::Number(byte)])
    } else {
        message.add(&[
            Piece::Words(b"byte "),
            Piece::Number(byte),
            Piece::Words(b" of line "),
            Piece::Number(line),
        ])
    }
}

/// Says that the text is no JSON from a place on.
fn say_json(line: usize, byte: usize, out: &mut Vec<Message>) -> Result<(), Cause>
    ensures ok { OnOk result
        (out.new.items ≡ out.old.items ++ says MessageKind.NotJson (place_values line byte) ∷ []) }
{
    let mut message = Message::new(*out.allocator(), MessageKind::NotJson);
    message.add(&[Piece::Words(b"no JSON from ")])?;
    add_place(line, byte, &mut message)?;
    message.add(&[Piece::Words(b" on")])?;
    message.say(out)
}

/// Says that the text ends too early, after a place.
fn say_cut_off(line: usize, byte: usize, out: &mut Vec<Message>) -> Result<(), Cause>
    ensures ok { OnOk result
        (out.new.items ≡ out.old.items ++ says MessageKind.CutOff (place_values line byte) ∷ []) }
{
    let mut message = Message::new(*out.allocator(), MessageKind::CutOff);
    message.add(&[Piece::Words(b"no JSON: it ends too early, after ")])?;
    add_place(line, byte, &mut message)?;
    message.say(out)
}

/// Says that a value has to be a string, and is something else.
fn say_odd(key: Key, kind: Kind, out: &mut Vec<Message>) -> Result<(), Cause>
    ensures ok { OnOk result
        (out.new.items ≡ out.old.items ++ says MessageKind.NotAString (key_name key ∷ kind_text kind ∷ []) ∷ []) }
{
    say(
        MessageKind::NotAString,
        &[
            Piece::Text(key.name().as_bytes()),
            Piece::Words(b": a string is needed, and not "),
            Piece::Text(kind_text(kind)),
        ],
        out,
    )
}

/// Says a key that a request may not have, if there is one.
fn say_other(other: &Option<Text>, out: &mut Vec<Message>) -> Result<(), Cause>
    ensures ok { OnOk result (out.new.items ≡ out.old.items ++ other_said other.now) }
{
    match other {
        Some(name) => say_named(MessageKind::UnknownKey, b"unknown key: ", name, out),
        None => Ok(()),
    }
}

/// Says a text of the request after words.
fn say_named(
    kind: MessageKind,
    words: &'static [u8],
    text: &Text,
    out: &mut Vec<Message>,
) -> Result<(), Cause>
    ensures ok { OnOk result (out.new.items ≡ out.old.items ++ says kind (text.now ∷ []) ∷ []) }
{
    say(
        kind,
        &[Piece::Words(words), Piece::Text(text.as_str().as_bytes())],
        out,
    )
}

/// Says words alone.
fn say_words(kind: MessageKind, words: &'static [u8], out: &mut Vec<Message>) -> Result<(), Cause>
    ensures ok { OnOk result (out.new.items ≡ out.old.items ++ says kind [] ∷ []) }
{
    say(kind, &[Piece::Words(words)], out)
}

/// Says that a key is missing.
fn say_missing(key: Key, out: &mut Vec<Message>) -> Result<(), Cause>
    ensures ok { OnOk result (out.new.items ≡ out.old.items ++ says MessageKind.MissingKey (key_name key ∷ []) ∷ []) }
{
    let name = key.name().as_bytes();
    say(
        MessageKind::MissingKey,
        &[Piece::Words(b"missing key: "), Piece::Text(name)],
        out,
    )
}

/// Says which keys the request of a word has, after one that it may not have, if there is one.
fn say_other_and_keys(word: Word, other: &Option<Text>, out: &mut Vec<Message>) -> Result<(), Cause>
    ensures ok { OnOk result (out.new.items ≡ out.old.items ++ (other_said other.now ++ keys_said word ∷ [])) }
{
    say_other(other, out)?;
    say_keys(word, out)
}

/// Says that of two keys that only go together one is there alone.
fn say_half(there: Key, missing: Key, out: &mut Vec<Message>) -> Result<(), Cause>
    ensures ok { OnOk result (out.new.items
        ≡ out.old.items ++ says MessageKind.Half (key_name there ∷ key_name missing ∷ []) ∷ []) }
{
    say(
        MessageKind::Half,
        &[
            Piece::Text(there.name().as_bytes()),
            Piece::Words(b" is there without "),
            Piece::Text(missing.name().as_bytes()),
            Piece::Words(b": a receipt has both or neither"),
        ],
        out,
    )
}

/// Says what stands at the key of a day, and is no date.
fn say_no_date(key: Key, text: &Text, out: &mut Vec<Message>) -> Result<(), Cause>
    ensures ok { OnOk result
        (out.new.items ≡ out.old.items ++ says MessageKind.NoDate (key_name key ∷ text.now ∷ []) ∷ []) }
{
    say(
        MessageKind::NoDate,
        &[
            Piece::Text(key.name().as_bytes()),
            Piece::Words(b": "),
            Piece::Text(text.as_str().as_bytes()),
        ],
        out,
    )
}

/// Says what a fault of a request is.
pub fn say_request_fault(fault: &RequestFault, out: &mut Vec<Message>) -> Result<(), Cause>
    ensures ok { OnOk result (out.new.items ≡ out.old.items ++ fault_said fault.now) }
{
    match fault {
        RequestFault::NotUtf8 { byte } => say(
            MessageKind::NotUtf8,
            &[
                Piece::Words(b"not UTF-8 from byte "),
                Piece::Number(*byte),
                Piece::Words(b" on"),
            ],
            out,
        ),
        RequestFault::NotJson {
            line,
            byte,
            is_cut_off: true,
        } => say_cut_off(*line, *byte, out),
        RequestFault::NotJson {
            line,
            byte,
            is_cut_off: false,
        } => say_json(*line, *byte, out),
        RequestFault::NotAnObject { kind } => say(
            MessageKind::NotAnObject,
            &[
                Piece::Words(b"a request is an object, and not "),
                Piece::Text(kind_text(*kind)),
            ],
            out,
        ),
        RequestFault::NoWord => say_missing(Key::Do, out),
        RequestFault::WordOfKind { kind } => say_odd(Key::Do, *kind, out),
        RequestFault::UnknownWord { text } => {
            say_named(MessageKind::UnknownWord, b"unknown do: ", text, out)?;
            say_known(out)
        }
        RequestFault::MissingKey { word, key, other } => {
            say_missing(*key, out)?;
            say_other_and_keys(*word, other, out)
        }
        RequestFault::OtherKeys { word, other } => say_other_and_keys(*word, other, out),
        RequestFault::ValueOfKind { key, kind } => say_odd(*key, *kind, out),
        RequestFault::NoDate { key, text } => {
            say_no_date(*key, text, out)?;
            say_words(MessageKind::FormOfDays, FORM_OF_DAYS, out)
        }
        RequestFault::Half {
            there,
            missing,
            other,
        } => {
            say_half(*there, *missing, out)?;
            say_other(other, out)
        }
        RequestFault::NoChoice { text } => {
            say_named(MessageKind::NoChoice, b"dry-run: ", text, out)?;
            say_words(MessageKind::FormOfChoices, b"dry-run is yes or no", out)
        }
        RequestFault::NoCount { text } => {
            say_named(MessageKind::NoCount, b"if-entries: ", text, out)?;
            say_words(
                MessageKind::FormOfCounts,
                b"if-entries is a number of 1 to 5 digits",
                out,
            )
        }
    }
}
