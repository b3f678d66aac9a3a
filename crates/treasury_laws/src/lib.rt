//! What holds of every step and of every run: laws, called for their contracts.
#![tactic(auto)]

mod law;

pub use law::{
    accepted_closing_law, closed_law, closing_law, entered_law, good_law, growing_law,
    headline_law, joined_law, late_entry_law, lock_law, other_journal_law, own_journal_law,
    printed_journal_law, records_law, rows_law, sound_law, transit_law, unchanged_law,
};
