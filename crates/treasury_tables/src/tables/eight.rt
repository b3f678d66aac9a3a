//! Eight rows that are written by one statement.

use crate::change::Change;

/// Eight rows of one table, in the order of their changes, and the changes after them.
#[derive(Drop)]
pub struct Eight<'r, T> {
    pub a: &'r T,
    pub b: &'r T,
    pub c: &'r T,
    pub d: &'r T,
    pub e: &'r T,
    pub f: &'r T,
    pub g: &'r T,
    pub h: &'r T,
    pub rest: &'r [Change],
}
