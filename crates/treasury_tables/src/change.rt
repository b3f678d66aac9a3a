//! Changes of the tables' rows.

use money_core::Text;
use treasury_state::{BranchRow, ClaimRow, EntryRow, LegRow, PartRow, TransferRow, UnitRow};

/// One row more, or one row that is changed.
#[derive(Debug, Drop)]
pub enum Change {
    Unit(UnitRow),
    Branch(BranchRow),
    Entry(EntryRow),
    Leg(LegRow),
    Claim(ClaimRow),
    Transfer(TransferRow),
    /// The branch of that number is locked through the day.
    Lock { branch: i64, day: i64 },
    /// A receipt of a part of a transfer.
    Part(PartRow),
    /// What was left of the transfer of that ID was received on the day, into the account.
    Receipt { id: Text, day: i64, payee: Text },
}
