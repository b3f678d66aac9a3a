//! HTTP: one request is read from a connection, answered on a treasury, and its reply written.

mod answering;
mod branch;
mod laws;
mod object;
mod reply;
mod serving;
mod status;

pub use laws::{calls_law, replies_law};
pub use serving::serve_one;
