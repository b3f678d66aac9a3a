//! The store of a treasury, in SQLite, and the treasury over it.
#![tactic(auto)]

mod changes;
mod judging;
mod laws;
mod numbers;
mod store;
mod treasury;

pub use judging::judge_first;
pub use laws::left_law;
pub use store::{Refused, Store};
pub use treasury::{Treasury, Unstarted};
pub use treasury_tables::{
    Change, create_tables, found_version, load_parts, open_tables, write_all,
};
