//! What a treasury is asked: one variant for each word of `do`, and what it has at each key.

ghost use Rattle.std.specs.Prelude.{◌≡◌, ◌⊎◌, Some, None, Err, IfOk, IfErr, IfSome, option_map};
ghost use Rattle.treasury_requests.specs.Request.{word_of, given_of, is_report, branch_asked, HasDayNumbers};
ghost use Rattle.treasury_requests.specs.Request.{request_by, key_value_text, IsValueAt};

use crate::bytes::Bytes;
use crate::fields::{Fields, day, further, further_day, journal, needed, part};
use crate::words::{Key, Word, WordKind};
use money_core::{Cause, Day, Text};
use std::alloc::Global;

/// A part of a transfer, with its texts as they were written.
#[derive(Debug, Drop)]
pub struct WrittenPart {
    /// Its key, unique in the transfer.
    pub key: Text,
    pub amount: Text,
}

/// A request, with its texts as they were written and its days read.
#[derive(Debug, Drop)]
pub enum Request {
    /// A new branch of that name.
    Branch {
        name: Text,
    },
    /// A new commodity, in the style that the sample amount shows.
    Commodity {
        sample: Text,
    },
    /// The transactions of a journal's text, into the branch of that name.
    Import {
        branch: Text,
        journal: Bytes,
    },
    /// Money on its way from one branch to another, paid by the account of the first on that day.
    Dispatch {
        id: Text,
        from: Text,
        to: Text,
        day: Day,
        amount: Text,
        account: Text,
    },
    /// Money that has come to the branch on that day, into its account: all that is left, or a part.
    Receive {
        id: Text,
        branch: Text,
        day: Day,
        account: Text,
        part: Option<WrittenPart>,
    },
    /// A lock of the branch of that name through the day.
    Lock {
        branch: Text,
        day: Day,
    },
    /// The closing of the branch of that name at the day: of the accounts that are listed, joined by `;`, into that
    /// one, each where it is given.
    Close {
        branch: Text,
        day: Day,
        accounts: Option<Text>,
        into: Option<Text>,
    },
    /// The balances of the branch of that name through the day.
    Balance {
        branch: Text,
        day: Day,
    },
    /// The register of an account in the branch of that name: with a tag if one is wanted, and from a day on.
    Register {
        branch: Text,
        account: Text,
        tag: Option<Text>,
        from: Option<Day>,
    },
    /// What is on its way between branches through the day.
    Transit {
        day: Day,
    },
    /// The journal of the branch of that name.
    Journal {
        branch: Text,
    },
    /// The branches, with their locks.
    Branches,
    /// The commodities.
    Commodities,
    /// The accounts of the branch of that name.
    Accounts {
        branch: Text,
    },
    /// The transfers of which something is open through the day.
    Transfers {
        day: Day,
    },
}

/// What a request has at a key.
#[derive(Clone, Copy)]
pub enum KeyValue<'a> {
    Text(&'a Text),
    Day(Day),
    /// A journal, which may be no text.
    Journal(&'a Bytes),
}

/// On what terms a command is given. A report has none of its own.
#[derive(Clone, Copy, Debug, Drop)]
pub struct Terms {
    /// A dry run asks what the command would be answered, and changes nothing.
    pub is_dry_run: bool,
    /// How many entries its branch has to have, or the command is refused where it would change something.
    pub if_entries: Option<u32>,
}

/// What a line spells: a request, and on what terms.
#[derive(Debug, Drop)]
pub struct Spelled {
    pub request: Request,
    pub terms: Terms,
}

impl Request {
    /// Its word.
    pub fn word(&self) -> Word
        ensures { result ≡ word_of self.now }
    {
        match self {
            Request::Branch { .. } => Word::Branch,
            Request::Commodity { .. } => Word::Commodity,
            Request::Import { .. } => Word::Import,
            Request::Dispatch { .. } => Word::Dispatch,
            Request::Receive { .. } => Word::Receive,
            Request::Lock { .. } => Word::Lock,
            Request::Close { .. } => Word::Close,
            Request::Balance { .. } => Word::Balance,
            Request::Register { .. } => Word::Register,
            Request::Transit { .. } => Word::Transit,
            Request::Journal { .. } => Word::Journal,
            Request::Branches => Word::Branches,
            Request::Commodities => Word::Commodities,
            Request::Accounts { .. } => Word::Accounts,
            Request::Transfers { .. } => Word::Transfers,
        }
    }

    /// What it has at a key.
    pub fn given(&self, key: Key) -> Option<KeyValue<'_>>
        ensures text { option_map key_value_text result ≡ given_of self.now key }
        ensures form { HasDayNumbers self.now → IfSome result (IsValueAt key) }
    {
        match (self, key) {
            (Request::Branch { name }, Key::Name) => Some(KeyValue::Text(name)),
            (Request::Commodity { sample }, Key::Sample) => Some(KeyValue::Text(sample)),
            (Request::Import { branch, .. }, Key::Branch) => Some(KeyValue::Text(branch)),
            (Request::Import { journal, .. }, Key::Journal) => Some(KeyValue::Journal(journal)),
            (Request::Dispatch { id, .. }, Key::Id) => Some(KeyValue::Text(id)),
            (Request::Dispatch { from, .. }, Key::From) => Some(KeyValue::Text(from)),
            (Request::Dispatch { to, .. }, Key::To) => Some(KeyValue::Text(to)),
            (Request::Dispatch { day, .. }, Key::Day) => Some(KeyValue::Day(*day)),
            (Request::Dispatch { amount, .. }, Key::Amount) => Some(KeyValue::Text(amount)),
            (Request::Dispatch { account, .. }, Key::Account) => Some(KeyValue::Text(account)),
            (Request::Receive { id, .. }, Key::Id) => Some(KeyValue::Text(id)),
            (Request::Receive { branch, .. }, Key::Branch) => Some(KeyValue::Text(branch)),
            (Request::Receive { day, .. }, Key::Day) => Some(KeyValue::Day(*day)),
            (Request::Receive { account, .. }, Key::Account) => Some(KeyValue::Text(account)),
            (Request::Receive { part, .. }, Key::Part) => Some(KeyValue::Text(&part.as_ref()?.key)),
            (Request::Receive { part, .. }, Key::Amount) => Some(KeyValue::Text(
                &part.as_ref()?.amount,
            )),
            (Request::Lock { branch, .. }, Key::Branch) => Some(KeyValue::Text(branch)),
            (Request::Lock { day, .. }, Key::Day) => Some(KeyValue::Day(*day)),
            (Request::Close { branch, .. }, Key::Branch) => Some(KeyValue::Text(branch)),
            (Request::Close { day, .. }, Key::Day) => Some(KeyValue::Day(*day)),
            (Request::Close { accounts, .. }, Key::Accounts) => Some(KeyValue::Text(
                accounts.as_ref()?,
            )),
            (Request::Close { into, .. }, Key::Into) => Some(KeyValue::Text(into.as_ref()?)),
            (Request::Balance { branch, .. }, Key::Branch) => Some(KeyValue::Text(branch)),
            (Request::Balance { day, .. }, Key::Day) => Some(KeyValue::Day(*day)),
            (Request::Register { branch, .. }, Key::Branch) => Some(KeyValue::Text(branch)),
            (Request::Register { account, .. }, Key::Account) => Some(KeyValue::Text(account)),
            (Request::Register { tag, .. }, Key::Tag) => Some(KeyValue::Text(tag.as_ref()?)),
            (Request::Register { from, .. }, Key::From) => Some(KeyValue::Day((*from)?)),
            (Request::Transit { day }, Key::Day) => Some(KeyValue::Day(*day)),
            (Request::Journal { branch }, Key::Branch) => Some(KeyValue::Text(branch)),
            (Request::Accounts { branch }, Key::Branch) => Some(KeyValue::Text(branch)),
            (Request::Transfers { day }, Key::Day) => Some(KeyValue::Day(*day)),
            _ => None,
        }
    }

    /// The name of the branch on whose book it is a command: that which takes entries, or is locked.
    pub fn branch(&self) -> Option<&Text>
        ensures { option_map (λ name. name.now) result ≡ branch_asked self.now }
    {
        match self {
            Request::Import { branch, .. } => Some(branch),
            Request::Dispatch { from, .. } => Some(from),
            Request::Receive { branch, .. } => Some(branch),
            Request::Lock { branch, .. } => Some(branch),
            Request::Close { branch, .. } => Some(branch),
            _ => None,
        }
    }

    /// Whether a report is asked for, not a command.
    pub fn is_report(&self) -> bool
        ensures { result ≡ is_report self.now }
    {
        matches!(self.word().row().kind, WordKind::Report)
    }
}

/// The request of a word, by what is given at its keys.
///
/// 44 comes only where it lacks a key, where a day of it is no date, or where of a part only the key or the amount is
/// given; 40 comes where there is no memory.
pub fn request_by<F: Fields>(alloc: Global, word: Word, fields: &F) -> Result<Request, Cause>
    ensures ok { IfOk result (λ request. request_by word (F.given fields.now) ≡ Some request) }
    ensures days { IfOk result HasDayNumbers }
    ensures refused { result ≡ Err Cause.Request → request_by word (F.given fields.now) ≡ None }
    ensures causes { IfErr result (λ cause. (cause ≡ Cause.Request) ⊎ (cause ≡ Cause.OutOfMemory)) }
{
    match word {
        Word::Branch => Ok(Request::Branch {
            name: needed(alloc, fields, Key::Name)?,
        }),
        Word::Commodity => Ok(Request::Commodity {
            sample: needed(alloc, fields, Key::Sample)?,
        }),
        Word::Import => Ok(Request::Import {
            branch: needed(alloc, fields, Key::Branch)?,
            journal: journal(alloc, fields)?,
        }),
        Word::Dispatch => Ok(Request::Dispatch {
            id: needed(alloc, fields, Key::Id)?,
            from: needed(alloc, fields, Key::From)?,
            to: needed(alloc, fields, Key::To)?,
            day: day(fields)?,
            amount: needed(alloc, fields, Key::Amount)?,
            account: needed(alloc, fields, Key::Account)?,
        }),
        Word::Receive => Ok(Request::Receive {
            part: part(alloc, fields)?,
            id: needed(alloc, fields, Key::Id)?,
            branch: needed(alloc, fields, Key::Branch)?,
            day: day(fields)?,
            account: needed(alloc, fields, Key::Account)?,
        }),
        Word::Lock => Ok(Request::Lock {
            branch: needed(alloc, fields, Key::Branch)?,
            day: day(fields)?,
        }),
        Word::Close => Ok(Request::Close {
            branch: needed(alloc, fields, Key::Branch)?,
            day: day(fields)?,
            accounts: further(alloc, fields, Key::Accounts)?,
            into: further(alloc, fields, Key::Into)?,
        }),
        Word::Balance => Ok(Request::Balance {
            branch: needed(alloc, fields, Key::Branch)?,
            day: day(fields)?,
        }),
        Word::Register => Ok(Request::Register {
            branch: needed(alloc, fields, Key::Branch)?,
            account: needed(alloc, fields, Key::Account)?,
            tag: further(alloc, fields, Key::Tag)?,
            from: further_day(fields, Key::From)?,
        }),
        Word::Transit => Ok(Request::Transit { day: day(fields)? }),
        Word::Journal => Ok(Request::Journal {
            branch: needed(alloc, fields, Key::Branch)?,
        }),
        Word::Branches => Ok(Request::Branches),
        Word::Commodities => Ok(Request::Commodities),
        Word::Accounts => Ok(Request::Accounts {
            branch: needed(alloc, fields, Key::Branch)?,
        }),
        Word::Transfers => Ok(Request::Transfers { day: day(fields)? }),
    }
}
