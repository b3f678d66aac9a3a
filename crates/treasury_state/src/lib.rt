//! The state of a federation: what it is, the rows that it is, and what additions make of it.
#![tactic(auto)]

mod account;
mod applying;
mod branch;
mod checking;
mod delta;
mod draft;
mod index;
mod key;
mod mark;
mod order;
mod product;
mod record;
mod rows;
mod state;
mod transfer;
mod transit;

pub use account::{has_transit, is_account_text, is_reserved_account};
pub use applying::apply;
pub use branch::{MAX_BRANCHES, is_branch_name, is_locked};
pub use checking::check;
pub use delta::{Addition, Delta};
pub use draft::{Draft, DraftBranch};
pub use index::{find_mark, push_marked, put_place};
pub use key::{is_id, is_key};
pub use mark::{hash_mark, mark_of, text_of};
pub use order::find_transfer;
pub use product::{close_mark, dispatch_record, receipt_record};
pub use record::Record;
pub use rows::{BranchRow, ClaimRow, EntryRow, LegRow, PartRow, Parts, TransferRow, UnitRow};
pub use state::{Branch, State, find_branch};
pub use transfer::{Part, Receipt, Transfer, left_of, rest_of, rest_part};
pub use transit::{open_amount, open_of};
