//! What stands on the lines of a journal's text: which line is at fault and what it should have, what a transaction
//! leaves over, and amounts that may be meant otherwise. It needs no treasury.
#![tactic(auto)]

pub mod amounts;
pub mod exact;
pub mod hints;
mod limits;
pub mod lines;
pub mod listed;
mod nearly;
pub mod odd;
pub mod source;
