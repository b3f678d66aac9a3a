//! What a request calls for.

use money_core::{Items, Text};
use treasury_requests::{Given, Word};

/// In which form a reply is asked for.
#[derive(Clone, Copy, Debug, PartialEq, Eq)]
pub enum Form {
    /// Plain text, as where nothing is said of it.
    Text,
    /// JSON.
    Json,
}

/// A request that was read: what it calls for, and in which form it asks for its reply.
#[derive(Debug, Drop)]
pub struct Received {
    pub call: Call,
    pub form: Form,
}

/// What a request calls for, with the parts of its path as they stand, and of its query as they are decoded.
#[derive(Debug, Drop)]
pub enum Call {
    /// Nothing: it begins with no head within the limits, says the length of its body wrongly, or has a query for a
    /// report that gives something else than the report's keys, or one of them twice.
    Unreadable,
    /// Nothing, whatever it asks for: it names another machine, or a page of another origin has a browser send it.
    Foreign,
    /// Nothing: its method and its path have no route.
    Nowhere,
    /// What the body says of a `POST` to `/commands`, or of one to `/commands/{branch}`, for commands of that branch.
    Command {
        branch: Option<Text>,
        body: Items<u8>,
    },
    /// A report, by what a `GET` of its path and its query give at the keys of its request.
    Report {
        word: Word,
        given: Items<Given>,
    },
}
