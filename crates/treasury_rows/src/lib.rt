//! From rows to the state that has them.
#![tactic(auto)]

mod build;
mod drafting;
mod judging;
mod keeping;
mod same_rows;

pub use build::Build;
