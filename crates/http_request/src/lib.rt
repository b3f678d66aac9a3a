//! One HTTP request to a treasury, read from a connection: what it calls for.
#![tactic(auto)]

mod accept;
mod body;
mod call;
mod fields;
mod foreign;
mod head;
mod length;
mod path;
mod query;
mod reading;
mod routes;

pub use call::{Call, Form, Received};
pub use reading::read_call;
