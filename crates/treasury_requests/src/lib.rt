//! Requests to a treasury, as they are written: the table of their words and keys, how a line, or whatever else gives
//! their keys, spells one, and why a line spells none.
#![tactic(auto)]

mod bytes;
mod fault;
mod fields;
mod given;
mod keys;
mod reading;
mod request;
mod words;

pub use bytes::Bytes;
pub use fault::{Kind, RequestFault, fault_of};
pub use fields::{Fields, lacks};
pub use given::{Given, key_named};
pub use reading::{read_command, read_line};
pub use request::{KeyValue, Request, Spelled, Terms, WrittenPart, request_by};
pub use words::{Key, Row, Word, WordKind, all_words, word_named};
