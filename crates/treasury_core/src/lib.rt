//! The machine of commands: what each command is answered, and what it adds to the state.
#![tactic(auto)]

mod choice;
mod close;
mod closing;
mod command;
mod decision;
mod dispatch;
mod enter;
mod file;
mod receive;

pub use choice::{Choice, is_revenue_or_expense};
pub use closing::closing_entry;
pub use command::{Answer, AskedPart, Close, Command, Dispatch, Receive};
pub use decision::{decide, foresee, lock_of};
pub use enter::{Stop, is_product_mark, new_of};
pub use file::records_in_file;
pub use receive::find_part;
pub use treasury_state::{
    Addition, Branch, BranchRow, ClaimRow, Delta, EntryRow, LegRow, MAX_BRANCHES, Part, PartRow,
    Parts, Receipt, Record, State, Transfer, TransferRow, UnitRow, apply, mark_of, open_amount,
    open_of,
};
