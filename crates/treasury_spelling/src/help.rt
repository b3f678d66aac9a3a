//! What the help says, to the letter: of the program, of each word, and of each key of a request.

ghost use Rattle.std.specs.Prelude.{◌≡◌, map};
ghost use Rattle.treasury_spelling.specs.Known.{year};

use treasury_requests::{Key, Word};

/// What the program is for.
pub const ABOUT: &str = "Keeps the books of a federation of branches in a database file.";

/// How the program is called, and what it ends with.
pub const EXAMPLE: &str = r#"Example, a first day:
  treasury init --db books.db
  treasury branch --db books.db north
  treasury commodity --db books.db '1,000.00 EUR'
  treasury import --db books.db --branch north north.journal
  treasury balance --db books.db --branch north --day 2024-12-31

The answer is written to standard output: ok, repeated, refused with a number and a name, or a report. Standard error
says why a command was refused, and notes what may have been meant otherwise. DAY is a date such as 2024-12-31, FILE
the database.

Exit status 0: done, repeated or reported, also of run and serve where requests were refused. 1: refused, or cut off.
2: the arguments were not understood."#;

/// What the help says of a word: a line in the list of words, and what stands below its options.
#[derive(Clone, Copy, Debug, Drop)]
pub struct Page {
    pub word: Word,
    pub about: &'static str,
    pub below: &'static str,
}

/// The words of requests in the order of a treasurer's year, each with an example that works.
const YEAR: &[Page] = &[
    Page {
        word: Word::Branch,
        about: "Adds a branch with an empty book",
        below: "Example:\n  treasury branch --db books.db north",
    },
    Page {
        word: Word::Branches,
        about: "Reports the branches, with their locks and how many entries they have",
        below: "Example:\n  treasury branches --db books.db",
    },
    Page {
        word: Word::Commodity,
        about: "Adds a commodity in the style of a sample amount",
        below: r#"Examples:
  treasury commodity --db books.db '1,000.00 EUR'
  treasury commodity --db books.db '$1,000.00'"#,
    },
    Page {
        word: Word::Commodities,
        about: "Reports the commodities, by their samples",
        below: "Example:\n  treasury commodities --db books.db",
    },
    Page {
        word: Word::Import,
        about: "Enters a journal's new transactions into a branch's book",
        below: r#"Examples:
  treasury import --db books.db --branch north north.journal
  hledger -f bank.csv print -c '1,000.00 EUR' > bank.journal
  treasury import --db books.db --branch north bank.journal

A transaction that the branch has already is a repeat: it is counted and not entered again, so a journal may grow.
One without a mark is known by its whole text: once edited, it is a new transaction.
One with a mark, a comment line '; bookid:MARK' below its header, is known by the mark: with another text it is
refused. MARK is 1 to 100 letters, digits or -._: (with anything else the line is an ordinary comment)."#,
    },
    Page {
        word: Word::Accounts,
        about: "Reports the accounts of a branch's entries",
        below: "Example:\n  treasury accounts --db books.db --branch north",
    },
    Page {
        word: Word::Balance,
        about: "Reports a branch's balances through a day",
        below: r#"Examples:
  treasury balance --db books.db --branch north
  treasury balance --db books.db --branch north --day 2024-12-31"#,
    },
    Page {
        word: Word::Register,
        about: "Reports an account's postings with running sums",
        below: r#"Examples:
  treasury register --db books.db --branch north --account assets:bank
  treasury register --db books.db --branch north --account expenses --tag project=hall
  treasury register --db books.db --branch north --account assets:cash --from 2024-03-01

The account's subaccounts are included."#,
    },
    Page {
        word: Word::Dispatch,
        about: "Sends money from one branch to another",
        below: r#"Example:
  treasury dispatch --db books.db --id t7 --from north --to south --day 2024-03-01 --amount '50.00 EUR' --account assets:bank"#,
    },
    Page {
        word: Word::Receive,
        about: "Receives the money of a transfer in a branch",
        below: r#"Examples:
  treasury receive --db books.db --id t7 --branch south --day 2024-03-03 --account assets:bank
  treasury receive --db books.db --id t8 --branch south --day 2024-03-03 --account assets:cash --part first --amount '20.00 EUR'

Without a part everything that is left is received, and the transfer is settled. A transfer that comes in parts has a key
for each of them: the same key with the same day, account and amount again is a repeat."#,
    },
    Page {
        word: Word::Transfers,
        about: "Reports the transfers of which something is open through a day",
        below: r#"Examples:
  treasury transfers --db books.db --day 2024-12-31
  treasury transfers --db books.db --day 9999-12-31

Each line has the day of dispatch, the amount, what is open of it, the branches and the ID. On 9999-12-31 that is what
may still be received."#,
    },
    Page {
        word: Word::Transit,
        about: "Reports what is on its way between branches through a day",
        below: "Example:\n  treasury transit --db books.db --day 2024-12-31",
    },
    Page {
        word: Word::Lock,
        about: "Locks a branch through a day: no new entries on that day or before",
        below: r#"Example:
  treasury lock --db books.db --branch north --day 2024-01-31

A lock cannot be undone, and never goes back. A branch that is to be closed at that day is closed first: the closing
locks it as well."#,
    },
    Page {
        word: Word::Close,
        about: "Closes a branch's revenues and expenses, or other accounts, and locks it",
        below: r#"Examples:
  cp books.db before-closing.db
  treasury close --db books.db --branch north --day 2024-06-30 --accounts 'income:fair;expenses:fair' --into equity:fair
  treasury close --db books.db --branch north --day 2024-12-31

A closing cannot be undone: its entry stays, and the branch is locked through that day for good. A copy of FILE from
before is the only way back. A branch is closed once at a day: do not close a list at the end of a year that is still
to be closed. Accounts are compared letter by letter; one that the branch does not have closes nothing."#,
    },
    Page {
        word: Word::Journal,
        about: "Reports a branch's book as a journal in hledger's format",
        below: "Example:\n  treasury journal --db books.db --branch north > north.book.journal",
    },
];

/// What it says of the words that are no requests.
pub const ABOUT_INIT: &str = "Makes the tables of a new treasury in FILE";

pub const EXAMPLE_INIT: &str = "Example:\n  treasury init --db books.db";

pub const ABOUT_SERVE: &str =
    "Answers requests over HTTP on 127.0.0.1, one connection after another";

pub const EXAMPLE_SERVE: &str = r#"Example:
  treasury serve --db books.db --port 8080

Standard output says `listening` once connections can be made, and standard error the address: with PORT 0 the system
chooses one. After N connections it ends. FILE is in use until then. Routes:
  POST /commands             its body is a request, one JSON object, as a line of `run`
  POST /commands/BRANCH      the same, but only a command of the branch
  GET /accounts/BRANCH       the accounts of the branch's entries
  GET /balance/BRANCH/DAY    the branch's balances through the day
  GET /branches              the branches, with their locks and how many entries they have
  GET /commodities           the commodities, by their samples
  GET /journal/BRANCH        the branch's journal
  GET /register/BRANCH?account=ACCOUNT&tag=TAG&from=DAY
                             the postings of the account and its subaccounts, with running sums; `&tag=TAG` and
                             `&from=DAY` may be left out
  GET /transfers/DAY         the transfers of which something is open through the day
  GET /transit/DAY           what is on its way between branches through the day"#;

pub const ABOUT_RUN: &str = "Answers the requests on standard input, in memory alone";

pub const EXAMPLE_RUN: &str = r#"Each line is a request, one JSON object. Requests:
  {"do":"branch","name":NAME}                    a new branch
  {"do":"commodity","sample":AMOUNT}             a new commodity, in the style of the amount
  {"do":"import","branch":NAME,"journal":TEXT}   a journal's new transactions, into the branch
  {"do":"dispatch","id":ID,"from":NAME,"to":NAME,"day":DAY,"amount":AMOUNT,"account":ACCOUNT}
                                                 money sent from the branch's account
  {"do":"receive","id":ID,"branch":NAME,"day":DAY,"account":ACCOUNT}
                                                 money received into the branch's account, everything that is left;
                                                 with "part":KEY,"amount":AMOUNT a part of it, under that key
  {"do":"lock","branch":NAME,"day":DAY}          no new entries through the day
  {"do":"close","branch":NAME,"day":DAY}         revenues and expenses to zero through the day, and a lock;
                                                 with "accounts":"ACCOUNT;ACCOUNT" these and their subaccounts instead,
                                                 with "into":ACCOUNT into that account
With "dry-run":"yes" such a request is answered as it would be now, and nothing is entered; "no" is as without it.
With "if-entries":N an import, dispatch, receive, lock or close that would change something is refused with 48 if its
branch has another number of entries; a dry run over HTTP tells how many it has.

Reports:
  {"do":"branches"}                              the branches, with their locks and how many entries they have
  {"do":"commodities"}                           the commodities, by their samples
  {"do":"accounts","branch":NAME}                the accounts of the branch's entries
  {"do":"balance","branch":NAME,"day":DAY}       the branch's balances through the day
  {"do":"register","branch":NAME,"account":ACCOUNT}
                                                 the postings of the account and its subaccounts, with running sums;
                                                 with "tag":TAG or "tag":"TAG=VALUE" of transactions that have it,
                                                 with "from":DAY from that day on, and the sums go on from before
  {"do":"transfers","day":DAY}                   the transfers of which something is open through the day, with IDs
  {"do":"transit","day":DAY}                     what is on its way between branches through the day
  {"do":"journal","branch":NAME}                 the branch's journal

Each is answered by a line that begins with ok, repeated or refused; a report stands above its ok.
Everything is kept in memory, and is gone when the input ends.

Example:
  $ treasury run
  {"do":"branch","name":"north"}
  ok
  {"do":"branch","name":"North"}
  refused 21 BranchName"#;

/// What it says of the values that are no keys of a request.
pub const DB_HELP: &str = "The database file; or --at";

pub const AT_HELP: &str = "The port of the service that has the file, in place of --db: 1 to 65535";

pub const PORT_HELP: &str = "The port, 0 to 65535; 0 has the system choose one";

pub const REQUESTS_HELP: &str =
    "How many connections to answer, at most 4294967295, which is the default";

pub const EXPLAIN_HELP: &str =
    "Explains refusals, and notes what may be a slip, on standard error below the line's number";

/// The words of requests in the order of a treasurer's year, with what the help says of each.
pub fn year() -> &'static [Page]
    ensures { map (λ page. page.word) result.now ≡ year }
{
    YEAR
}

/// What the help calls the value of a key, and what it says of it. A flag has no value.
pub fn key_help<'a>(word: Word, key: Key) -> (&'a str, &'a str) {
    match (key, word) {
        (Key::Do, _) => ("", ""),
        (Key::Name, _) => (
            "NAME",
            "A lower-case letter, then at most 31 lower-case letters, digits or -",
        ),
        (Key::Sample, _) => (
            "SAMPLE",
            "An amount that shows the style; the last . or , in it is the decimal mark, and cannot be changed later",
        ),
        (Key::Branch, _) => ("NAME", "The branch"),
        (Key::Journal, _) => (
            "JOURNAL",
            "The journal's file, at most 1 MiB; /dev/stdin for standard input",
        ),
        (Key::Id, _) => (
            "ID",
            "The transfer: 1 to 64 letters, digits or -._ (one that begins with - as --id=-t7)",
        ),
        (Key::From, Word::Register) => (
            "DAY",
            "The first day that is shown, such as 2024-03-01; the sums go on from before",
        ),
        (Key::From, _) => ("NAME", "The branch that pays"),
        (Key::To, _) => ("NAME", "The branch that is paid"),
        (Key::Day, Word::Balance) => (
            "DAY",
            "The last day that counts, such as 2024-12-31 (otherwise every day)",
        ),
        (Key::Day, _) => ("DAY", "The day, such as 2024-12-31"),
        (Key::Amount, Word::Receive) => ("AMOUNT", "The amount of the part"),
        (Key::Amount, _) => ("AMOUNT", "The amount that is sent"),
        (Key::Account, Word::Dispatch) => ("ACCOUNT", "The account that pays"),
        (Key::Account, Word::Receive) => ("ACCOUNT", "The account that is paid"),
        (Key::Account, _) => ("ACCOUNT", "The account, including its subaccounts"),
        (Key::Part, _) => (
            "KEY",
            "A part and its key: 1 to 32 letters, digits or -._; without it everything that is left",
        ),
        (Key::Accounts, _) => (
            "LIST",
            "The accounts to close, with their subaccounts, joined by `;` (otherwise revenues and expenses)",
        ),
        (Key::Into, _) => (
            "ACCOUNT",
            "The account that gets their balances (otherwise equity:retained earnings)",
        ),
        (Key::Tag, _) => (
            "TAG",
            "Only transactions that have the tag: NAME, or NAME=VALUE",
        ),
        (Key::DryRun, _) => (
            "",
            "Answers what the command would be answered; nothing is entered",
        ),
        (Key::IfEntries, _) => (
            "N",
            "Refused with 48 if the branch has another number of entries and the command would change something",
        ),
    }
}
