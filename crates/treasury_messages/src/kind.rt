//! What messages are about.

ghost use Rattle.std.specs.Prelude.{◌≡◌};
ghost use Rattle.treasury_messages.specs.Said.{beginning};

/// What a message is about. Its words are those of its kind, whatever it names.
#[derive(Clone, Copy, Drop)]
pub enum MessageKind {
    /// Why something is refused: the sentence of the refusal, after its place if that is known.
    Sentence,
    /// From which byte on a request is not UTF-8.
    NotUtf8,
    /// From where on it is no JSON: the byte, and the line unless that is the first.
    NotJson,
    /// After which place it ends too early, likewise.
    CutOff,
    /// What its value is, which is no object.
    NotAnObject,
    /// A key that it has to have.
    MissingKey,
    /// A key that it may not have.
    UnknownKey,
    /// A word of `do`, and the keys that its request has or may have.
    KeysOf,
    /// A key at which something else stands than a string, and what.
    NotAString,
    /// The value of `do`, which asks for nothing.
    UnknownWord,
    /// The words that ask for something.
    KnownWords,
    /// A key that is there without another, and that other.
    Half,
    /// The key of a day, and its value, which is no date.
    NoDate,
    /// How a day is written.
    FormOfDays,
    /// The value of `dry-run`, which is neither `yes` nor `no`.
    NoChoice,
    /// What `dry-run` may be.
    FormOfChoices,
    /// The value of `if-entries`, which is no count.
    NoCount,
    /// What `if-entries` may be.
    FormOfCounts,
    /// What helps a person, and is not said by a clause.
    Hint,
    // Explanations
    /// A line of a text, after its number.
    SourceLine,
    /// A mark that another entry holds already.
    Mark,
    /// The header and the number of the entry that holds a mark.
    HeldEntry,
    /// The header and the line of the earlier transaction that holds a mark.
    HeldOnLine,
    /// The command that makes entries with such a mark.
    Maker,
    /// An account that may not stand there.
    Account,
    /// An account that may not get the balances of a closing.
    Into,
    /// A list of accounts to close.
    Accounts,
    /// The key of a part of a transfer.
    Part,
    /// Which commands alone post to an account.
    TransfersOnly,
    /// How many bytes a list of accounts has.
    LongList,
    /// The closing that the branch has of that day, by its header, and what it was asked for.
    HeldClosing,
    /// The names of all branches.
    Branches,
    /// A branch, and the day through which it is locked.
    LockedThrough,
    /// How a commodity is written already.
    HeldStyle,
    /// The most entries that a branch may have, the branch, and how many it has.
    CountOfEntries,
    /// How the declared commodities are written.
    Declared,
    /// The same, where a text is no amount.
    FormOfAmounts,
    /// The zero that a number alone may stand for.
    FormOfZero,
    /// The exact product of a unit cost.
    Product,
    /// An amount by which a transaction does not balance.
    LeftOver,
    /// The number and the header of an entry.
    Entry,
    /// The same of a new entry.
    NewEntryOf,
    /// The amount that is asserted.
    Asserted,
    /// The amount that is found there.
    Found,
    /// By how much the two differ.
    Difference,
    /// The place and the header of a new transaction that touches an account before an assertion.
    Touching,
    /// The same, and the number and the header of the held entry that has its day and its legs.
    TouchingLikeLegs,
    /// The same, and the number and the header of the held entry that has its header and its accounts.
    TouchingLikeHeader,
    /// How many more new transactions touch the account.
    MoreTouching,
    /// A transfer as it is held.
    HeldTransfer,
    /// What is left of a transfer.
    Left,
    /// A part of a transfer as it is held.
    HeldPart,
    /// What an amount of a request was read as.
    Asked,
    // Notes
    /// A branch that already holds some of an import: its name, how many, and of how many.
    OtherBranch,
    /// A place or an option, its day, a branch, and the newest day that the branch had, long before.
    FarAfter,
    /// A place or an option, its day, a branch, and the oldest day that the branch had, long after.
    FarBefore,
    /// A place or an option, an amount that may have been meant otherwise, and what it was read as.
    OddAmount,
    /// A new entry that has the day and the legs of a held one: its place and header, the number and header of that.
    EditedLegs,
    /// The same, where it has the accounts and not the amounts.
    EditedAccounts,
    /// The same, where it has the accounts and the amounts, and another day.
    EditedAmounts,
    /// Accounts of an import that no earlier entry of the branch has.
    NewAccounts,
    /// An option, its account, and the branch of which no earlier entry has it.
    NewAccountOption,
    /// A listed account, and the branch that does not have it.
    NoAccount,
    /// The place of a posting with a tag `date:`, and the day that it has here.
    DatedPosting,
    /// The day of a receipt, the transfer, and the day of its dispatch, long before.
    LateReceipt,
    /// A branch, the day of its last entry, and the later day through which it is locked.
    LockedEarly,
    /// The same of a closing.
    ClosedEarly,
    /// Entries of a branch that are later than the day of its closing.
    LaterEntries,
    /// A branch whose year is locked and not closed, the day, and the day after it.
    OpenYear,
    /// A branch that is locked or closed without an assertion of its balances.
    NoAssertion,
    /// A sample that declares three decimals, and the mark before them.
    ThreeDecimals,
    /// The place of a new transaction, and its comment that contains `bookid:` and is not a mark.
    NoMark,
    /// That a journal has no transaction.
    NothingImported,
    /// A branch, and an account of which no entry of it has a leg there or below.
    NoSuchAccount,
    /// A branch, and a tag that no entry of it has.
    NoSuchTag,
    /// A held transfer that has the branches, the day and the amount of a new one.
    LikeTransfer,
    /// How many more notes there are of the kind.
    MoreNotes,
    // Dry runs
    /// The place and the header of an entry that an import would make.
    NewEntry,
    /// How many more it would make.
    MoreNewEntries,
    /// A line of the entry that a closing or a transfer would make.
    EntryLine,
    /// The account of a transfer, and its balance before and after.
    Balances,
}

impl MessageKind {
    /// What stands at the beginning of a line of the kind.
    pub(crate) fn beginning(self) -> &'static [u8]
        ensures { result.now ≡ beginning self }
    {
        match self {
            MessageKind::Sentence => b"treasury: ",
            MessageKind::OtherBranch
            | MessageKind::FarAfter
            | MessageKind::FarBefore
            | MessageKind::OddAmount
            | MessageKind::EditedLegs
            | MessageKind::EditedAccounts
            | MessageKind::EditedAmounts
            | MessageKind::NewAccounts
            | MessageKind::NewAccountOption
            | MessageKind::NoAccount
            | MessageKind::DatedPosting
            | MessageKind::LateReceipt
            | MessageKind::LockedEarly
            | MessageKind::ClosedEarly
            | MessageKind::LaterEntries
            | MessageKind::OpenYear
            | MessageKind::NoAssertion
            | MessageKind::ThreeDecimals
            | MessageKind::NoMark
            | MessageKind::NothingImported
            | MessageKind::NoSuchAccount
            | MessageKind::NoSuchTag
            | MessageKind::LikeTransfer
            | MessageKind::MoreNotes => b"note: ",
            MessageKind::NewEntry | MessageKind::MoreNewEntries => b"new: ",
            _ => b"  ",
        }
    }
}
