//! What may have been meant otherwise by an import: notes on its new transactions.
#![tactic(auto)]

pub mod accounts;
pub mod dated;
pub mod days;
pub mod edited;
pub mod import;
pub mod marks;
pub mod other_branch;
pub mod places;
