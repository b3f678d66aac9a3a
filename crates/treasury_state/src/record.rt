//! What a branch keeps of a transaction.

use book_core::Entry;
use journal_format::Txn;
use money_core::{Cause, Copied, Text};

/// A transaction that was accepted.
#[derive(Debug, Drop)]
pub struct Record {
    /// By which the branch knows the transaction.
    pub mark: Text,
    /// The transaction, with that mark.
    pub txn: Txn,
    /// What it does to the book.
    pub entry: Entry,
}

impl Copied for Record {
    fn copy(&self) -> Result<Self, Cause> {
        let mark = self.mark.copy()?;
        let txn = self.txn.copy()?;
        let entry = self.entry.copy()?;
        Ok(Record { mark, txn, entry })
    }
}
