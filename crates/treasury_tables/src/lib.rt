//! The tables of a treasury, in SQLite: their statements and their rows.
#![tactic(auto)]

mod change;
mod create;
mod failing;
mod first_version;
mod load;
mod open;
mod row;
mod tables;
mod upgrading;
mod write;

pub use change::Change;
pub use create::create_tables;
pub use failing::cause_of;
pub use first_version::first_parts;
pub use load::load_parts;
pub use open::{format_rows, found_version, is_version, open_tables};
pub use write::write_all;
