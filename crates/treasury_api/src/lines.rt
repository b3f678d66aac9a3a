//! Requests by lines: what a reader gives is answered line by line, and the answers go to a writer.

mod machine;
mod run;
mod write;

pub use machine::Machine;
pub use run::{MAX_INPUT, is_blank_text, run_machine};
pub use write::write_whole;
