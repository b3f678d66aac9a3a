//! Requests to a treasury and their answers: one at a time, by lines, and over HTTP.
#![tactic(auto)]

mod answering;
mod answers;
mod asking;
mod foreseeing;
mod laws;
mod lines;
mod listener;
mod plain;
mod report;
mod running;
mod telling;
mod web;

pub use answering::{answer, answer_ahead};
pub use answers::{MOST_PLAIN, answer_line};
pub use asking::Asked;
pub use http_request::Form;
pub use laws::{commands_law, lists_law, refusal_law, run_law, taken_law};
pub use lines::write_whole;
pub use listener::{Listener, NoListener};
pub use plain::plain_line;
pub use report::Report;
pub use running::{refuse, run_heard_lines, run_lines};
pub use telling::{Grounds, JOURNAL, NOTHING_ENTERED, said_beside};
pub use web::{calls_law, replies_law, serve_one};
