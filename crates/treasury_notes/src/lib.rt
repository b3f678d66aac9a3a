//! What standard error says beside an answer that is no refusal: notes, and what a dry run would enter.
#![tactic(auto)]

mod days;
pub mod dry_run;
mod named;
pub mod notes;
mod open_year;
mod report_notes;
mod samples;
