//! Running sums by day, of accounts in commodities, and spots by account and day.
#![tactic(auto)]

mod blocks;
mod days;
mod named_spots;
mod names;
mod parts;
mod period;
mod points;
mod row;
mod spots;
mod sums;

pub use money_core::{Cause, Day, Unit};
pub use named_spots::NamedSpots;
pub use period::Period;
pub use spots::Spot;
pub use sums::DaySums;
