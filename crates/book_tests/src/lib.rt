//! Tests of `day_sums` and `book_core`, by their public calls.
#![tactic(auto)]

#[cfg(test)]
mod ledgers;
#[cfg(test)]
mod sums;
