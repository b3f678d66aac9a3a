//! Why a text, a request or a command is refused.

ghost use Rattle.std.specs.Prelude.{◌≡◌};
ghost use Rattle.money_core.specs.declared.cause.Cause.TheVariants.{OutOfMemory as MemoryIsOut};
ghost use Rattle.money_core.specs.Cause.{cause_number, cause_name};

use std::alloc::{AllocError, AllocFailed};

/// Why something is refused, in the order of the refusals' numbers.
#[derive(Clone, Copy, Debug, PartialEq, Eq)]
pub enum Cause {
    /// A line is not UTF-8, or holds an ASCII control character other than a tab.
    Utf8,
    /// A limit of the text is passed: of the text itself, of a line, or of a part of an entry.
    TooLong,
    /// The text up to the first blank or `;` is no date.
    Date,
    /// The code of a header is not closed.
    Header,
    /// A line that begins in its first column is of no known kind, or is `commodity` with nothing after it.
    Directive,
    /// An indented line, no comment, follows no header and no directive.
    StrayLine,
    /// No well-formed account name.
    Account,
    /// No well-formed amount or symbol, or a quantity over the limit.
    Amount,
    /// The symbol is not declared.
    UnknownCommodity,
    /// Further decimals than the commodity has, which are not zeros.
    Decimals,
    /// A `commodity` directive with another decimal mark or number of decimals, or another symbol on its format line.
    CommodityStyle,
    /// A negative cost, one out of its limits, or one in the amount's own commodity.
    Cost,
    /// The product of a unit cost has further decimals.
    CostNotExact,
    /// A balance assertion without an amount.
    Assignment,
    /// The account begins with `(` or `[`.
    Virtual,
    /// A transaction has a second mark.
    Marks,
    /// A transaction has a second posting without an amount.
    TwoBlanks,
    /// The values of a transaction do not sum to zero.
    Unbalanced,
    /// There is no branch of that name.
    UnknownBranch,
    /// The name is not a lower-case ASCII letter and 0 to 31 lower-case letters, digits or `-`.
    BranchName,
    /// The symbol is declared with another style.
    CommodityExists,
    /// A limit of a count is reached.
    Full,
    /// The mark or ID is held with another content.
    MarkClash,
    /// A mark of the product that is not held.
    ReservedMark,
    /// The account is `assets:transit` or below it.
    ReservedAccount,
    /// The day is on or before the branch's lock day.
    Locked,
    /// A leg or the turnover is over the limit, or a closing entry has too many postings.
    Limit,
    /// A balance assertion fails.
    ClaimFailed,
    /// A transfer to its own branch.
    SameBranch,
    /// There is no transfer of that ID.
    UnknownTransfer,
    /// The transfer goes to another branch.
    WrongBranch,
    /// The transfer was received with another content.
    AlreadyReceived,
    /// The receipt is before the day of dispatch.
    TooEarly,
    /// The lock day is before the one that is held.
    LockBack,
    /// There is no balance to close.
    NothingToClose,
    /// The account of a request is not well formed.
    BadAccount,
    /// The amount of a transfer is not positive.
    BadAmount,
    /// The ID, or the key of a receipt, is not well formed.
    BadId,
    /// A growth was refused.
    OutOfMemory,
    /// A call of the database failed for another cause than memory.
    Store,
    /// An earlier call answered 41.
    Closed,
    /// The tables are not there, or their rows are no state.
    Damaged,
    /// The request has none of the forms of a request.
    Request,
    /// A read failed, ended too early, or passed its bound.
    ReadFault,
    /// A write failed.
    WriteFault,
    /// The amount of a receipt is more than what is left, or in another commodity.
    TooMuch,
    /// The branch has another number of entries than the request expects.
    Changed,
}

impl Cause {
    /// The refusal's number.
    pub fn nr(self) -> u8
        ensures { result ≡ cause_number self }
    {
        match self {
            Cause::Utf8 => 1,
            Cause::TooLong => 2,
            Cause::Date => 3,
            Cause::Header => 4,
            Cause::Directive => 5,
            Cause::StrayLine => 6,
            Cause::Account => 7,
            Cause::Amount => 8,
            Cause::UnknownCommodity => 9,
            Cause::Decimals => 10,
            Cause::CommodityStyle => 11,
            Cause::Cost => 12,
            Cause::CostNotExact => 13,
            Cause::Assignment => 14,
            Cause::Virtual => 15,
            Cause::Marks => 16,
            Cause::TwoBlanks => 17,
            Cause::Unbalanced => 18,
            Cause::UnknownBranch => 20,
            Cause::BranchName => 21,
            Cause::CommodityExists => 22,
            Cause::Full => 23,
            Cause::MarkClash => 24,
            Cause::ReservedMark => 25,
            Cause::ReservedAccount => 26,
            Cause::Locked => 27,
            Cause::Limit => 28,
            Cause::ClaimFailed => 29,
            Cause::SameBranch => 30,
            Cause::UnknownTransfer => 31,
            Cause::WrongBranch => 32,
            Cause::AlreadyReceived => 33,
            Cause::TooEarly => 34,
            Cause::LockBack => 35,
            Cause::NothingToClose => 36,
            Cause::BadAccount => 37,
            Cause::BadAmount => 38,
            Cause::BadId => 39,
            Cause::OutOfMemory => 40,
            Cause::Store => 41,
            Cause::Closed => 42,
            Cause::Damaged => 43,
            Cause::Request => 44,
            Cause::ReadFault => 45,
            Cause::WriteFault => 46,
            Cause::TooMuch => 47,
            Cause::Changed => 48,
        }
    }

    /// The refusal's name.
    pub fn name(self) -> &'static str
        ensures { result.now ≡ cause_name self }
    {
        match self {
            Cause::Utf8 => "Utf8",
            Cause::TooLong => "TooLong",
            Cause::Date => "Date",
            Cause::Header => "Header",
            Cause::Directive => "Directive",
            Cause::StrayLine => "StrayLine",
            Cause::Account => "Account",
            Cause::Amount => "Amount",
            Cause::UnknownCommodity => "UnknownCommodity",
            Cause::Decimals => "Decimals",
            Cause::CommodityStyle => "CommodityStyle",
            Cause::Cost => "Cost",
            Cause::CostNotExact => "CostNotExact",
            Cause::Assignment => "Assignment",
            Cause::Virtual => "Virtual",
            Cause::Marks => "Marks",
            Cause::TwoBlanks => "TwoBlanks",
            Cause::Unbalanced => "Unbalanced",
            Cause::UnknownBranch => "UnknownBranch",
            Cause::BranchName => "BranchName",
            Cause::CommodityExists => "CommodityExists",
            Cause::Full => "Full",
            Cause::MarkClash => "MarkClash",
            Cause::ReservedMark => "ReservedMark",
            Cause::ReservedAccount => "ReservedAccount",
            Cause::Locked => "Locked",
            Cause::Limit => "Limit",
            Cause::ClaimFailed => "ClaimFailed",
            Cause::SameBranch => "SameBranch",
            Cause::UnknownTransfer => "UnknownTransfer",
            Cause::WrongBranch => "WrongBranch",
            Cause::AlreadyReceived => "AlreadyReceived",
            Cause::TooEarly => "TooEarly",
            Cause::LockBack => "LockBack",
            Cause::NothingToClose => "NothingToClose",
            Cause::BadAccount => "BadAccount",
            Cause::BadAmount => "BadAmount",
            Cause::BadId => "BadId",
            Cause::OutOfMemory => "OutOfMemory",
            Cause::Store => "Store",
            Cause::Closed => "Closed",
            Cause::Damaged => "Damaged",
            Cause::Request => "Request",
            Cause::ReadFault => "ReadFault",
            Cause::WriteFault => "WriteFault",
            Cause::TooMuch => "TooMuch",
            Cause::Changed => "Changed",
        }
    }
}

impl From<AllocError> for Cause {
    ghost from_gives = { λ _ cause. cause ≡ MemoryIsOut };

    fn from(_error: AllocError) -> Self {
        Cause::OutOfMemory
    }
}

impl<T: Drop> From<AllocFailed<T>> for Cause {
    ghost from_gives = { λ _ cause. cause ≡ MemoryIsOut };

    fn from(_error: AllocFailed<T>) -> Self {
        Cause::OutOfMemory
    }
}

/// A fault of a journal's text.
#[derive(Clone, Copy, Debug, PartialEq, Eq)]
pub struct Fault {
    /// The number of the line, from 1; 0 where memory was refused.
    pub line: usize,
    pub cause: Cause,
}
