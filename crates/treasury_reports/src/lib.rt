//! Reports over the state of a federation, each appended to a vector, as text or in JSON.
#![tactic(auto)]

mod accounts;
mod asked;
mod balance;
mod branch;
mod branches;
mod columns;
mod commodities;
mod journal;
mod listed;
mod names;
mod register;
mod rows;
mod transfers;
mod transit;

pub use accounts::accounts_report;
pub use asked::is_wanted;
pub use balance::{balance_report, balance_report_in};
pub use branches::branches_report;
pub use commodities::{commodities_report, samples_law};
pub use journal::{journal_report, journal_report_in};
pub use register::{register_report, register_report_in};
pub use rows::Layout;
pub use transfers::{transfers_law, transfers_report};
pub use transit::{transit_report, transit_report_in};
