//! Texts as a terminal may show them, and lines that name them.
#![tactic(auto)]

mod shown;

pub use shown::{push_line, push_named, push_number, push_shown};
