//! The tables, a file for each: its statements, its row and its columns.

pub(crate) mod branch;
pub(crate) mod claim;
pub(crate) mod eight;
pub(crate) mod entry;
pub(crate) mod format;
pub(crate) mod leg;
pub(crate) mod receipt;
pub(crate) mod transfer;
pub(crate) mod unit;
