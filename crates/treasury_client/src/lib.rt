//! Commands through a running service: a request as it is sent, and a reply as it is printed.
#![tactic(auto)]

mod body;
mod call;
mod heard;
mod journal;
mod naming;
mod reply;

pub use body::body_of;
pub use call::{Form, call_of};
pub use heard::{Heard, hear_command, hear_report};
pub use journal::as_text;
