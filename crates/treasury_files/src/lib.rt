//! The database file of a treasury: looked at, tried on copies in memory, opened, made, closed, and what is left of it.
#![tactic(auto)]

mod beside;
mod file;
mod laws;
mod left;
mod looks;
mod opening;
mod others;
mod rehearsal;
mod shrinking;
mod tables;
mod waiting;
mod watch;

pub use beside::{has_log, log_name};
pub use file::{
    FileTreasury, UNCLOSED, Unopened, Unserved, close_treasury, leave_treasury, make_tables,
    open_treasury, read_journal,
};
pub use left::Left;
pub use looks::{why_unread, why_unused};
pub use waiting::{Turn, wait_for};
pub use watch::{Guarded, Noting, Sight, Watch};
