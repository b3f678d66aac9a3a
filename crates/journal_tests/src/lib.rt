//! Tests of `journal_lines`, `journal_format` and `journal_balance`, by their public calls.
#![tactic(auto)]

#[cfg(test)]
mod balance;
#[cfg(test)]
mod lines;
#[cfg(test)]
mod printing;
#[cfg(test)]
mod reading;
