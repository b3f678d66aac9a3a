//! What standard error says, as data: messages that name values, the one printer of them, the sentence of each refusal,
//! and what is said of a text that is no request.
#![tactic(auto)]

mod kind;
mod message;
mod part;
mod piece;
mod printing;
mod request_fault;
mod sentences;
mod unasked;

pub use kind::MessageKind;
pub use message::{Done, Message, Messages, hint, say};
pub use piece::Piece;
pub use printing::push_messages;
pub use request_fault::say_request_fault;
pub use sentences::{say_sentence, say_sentence_at, sentence};
pub use unasked::{explain_request, sentence_text, text_of, unasked_text};
