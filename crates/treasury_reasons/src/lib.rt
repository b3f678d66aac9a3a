//! Why a request is refused: what standard error says of it, beside the answer on standard output.
#![tactic(auto)]

pub mod at_fault;
pub mod closing;
pub mod explain;
pub mod failure;
pub mod held;
pub mod lock;
pub mod named;
pub mod numbered;
pub mod reading;
pub mod taking;
pub mod touching;
pub mod transfers;
