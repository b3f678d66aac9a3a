//! The entry of a transaction: its legs, with the amount that was left out and the conversion postings of its costs.
#![tactic(auto)]

mod balancing;
mod conversion;
mod entering;
mod law;
mod missing_amount;
mod value;

pub use balancing::legs;
pub use conversion::conversion_accounts;
pub use law::{entry_growth_law, entry_law, unmarked_law, written_law};
pub use value::{cost_fault_of, sum_of};
