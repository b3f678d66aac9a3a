//! The table of requests: the words of `do`, and the keys that a request of each has beside it.

ghost use Rattle.std.specs.Prelude.{◌≡◌, Some, find, map};
ghost use Rattle.treasury_requests.specs.Words.{key_name, word_name, needed, further, paths, word_kind};
ghost use Rattle.treasury_requests.specs.Words.{is_word_named, all_words, is_day_key};

/// What a request asks for: a value of `do`.
#[derive(Clone, Copy, Debug, Drop)]
pub enum Word {
    Branch,
    Commodity,
    Import,
    Dispatch,
    Receive,
    Lock,
    Close,
    Balance,
    Register,
    Transit,
    Journal,
    Branches,
    Commodities,
    Accounts,
    Transfers,
}

/// A key of a request.
#[derive(Clone, Copy, Debug, Drop)]
pub enum Key {
    Do,
    Name,
    Sample,
    Branch,
    Journal,
    Id,
    From,
    To,
    Day,
    Amount,
    Account,
    Part,
    Accounts,
    Into,
    Tag,
    DryRun,
    IfEntries,
}

/// What a word is.
#[derive(Clone, Copy, Debug, Drop)]
pub enum WordKind {
    /// A command, on the book of the branch that a key names, if it is one on a book.
    Command { of: Option<Key> },
    /// A report.
    Report,
}

/// A row of the table of words.
#[derive(Clone, Copy, Debug, Drop)]
pub struct Row {
    /// The word as it is written.
    pub name: &'static str,
    /// The keys that its request has to have beside `do`.
    pub needed: &'static [Key],
    /// The keys that it may have beside those.
    pub further: &'static [Key],
    /// Over HTTP a report has these paths: behind its name, the values of these keys. Its query gives the other keys. A
    /// command has none of its own.
    pub paths: &'static [&'static [Key]],
    pub kind: WordKind,
}

/// Each word, commands first.
const ALL_WORDS: &[Word] = &[
    Word::Branch,
    Word::Commodity,
    Word::Import,
    Word::Dispatch,
    Word::Receive,
    Word::Lock,
    Word::Close,
    Word::Balance,
    Word::Register,
    Word::Transit,
    Word::Journal,
    Word::Branches,
    Word::Commodities,
    Word::Accounts,
    Word::Transfers,
];

impl Key {
    /// The key as it is written.
    pub fn name(self) -> &'static str
        ensures { result.now ≡ key_name self }
    {
        match self {
            Key::Do => "do",
            Key::Name => "name",
            Key::Sample => "sample",
            Key::Branch => "branch",
            Key::Journal => "journal",
            Key::Id => "id",
            Key::From => "from",
            Key::To => "to",
            Key::Day => "day",
            Key::Amount => "amount",
            Key::Account => "account",
            Key::Part => "part",
            Key::Accounts => "accounts",
            Key::Into => "into",
            Key::Tag => "tag",
            Key::DryRun => "dry-run",
            Key::IfEntries => "if-entries",
        }
    }
}

impl Word {
    /// Its row of the table.
    pub fn row(self) -> &'static Row
        ensures name { result.now.name.now ≡ word_name self }
        ensures needed { result.now.needed.now ≡ needed self }
        ensures further { result.now.further.now ≡ further self }
        ensures paths { map (λ path. path.now) result.now.paths.now ≡ paths self }
        ensures kind { result.now.kind ≡ word_kind self }
    {
        match self {
            Word::Branch => &Row {
                name: "branch",
                needed: &[Key::Name],
                further: &[Key::DryRun],
                paths: &[],
                kind: WordKind::Command { of: None },
            },
            Word::Commodity => &Row {
                name: "commodity",
                needed: &[Key::Sample],
                further: &[Key::DryRun],
                paths: &[],
                kind: WordKind::Command { of: None },
            },
            Word::Import => &Row {
                name: "import",
                needed: &[Key::Branch, Key::Journal],
                further: &[Key::DryRun, Key::IfEntries],
                paths: &[],
                kind: WordKind::Command {
                    of: Some(Key::Branch),
                },
            },
            Word::Dispatch => &Row {
                name: "dispatch",
                needed: &[
                    Key::Id,
                    Key::From,
                    Key::To,
                    Key::Day,
                    Key::Amount,
                    Key::Account,
                ],
                further: &[Key::DryRun, Key::IfEntries],
                paths: &[],
                kind: WordKind::Command {
                    of: Some(Key::From),
                },
            },
            Word::Receive => &Row {
                name: "receive",
                needed: &[Key::Id, Key::Branch, Key::Day, Key::Account],
                further: &[Key::Part, Key::Amount, Key::DryRun, Key::IfEntries],
                paths: &[],
                kind: WordKind::Command {
                    of: Some(Key::Branch),
                },
            },
            Word::Lock => &Row {
                name: "lock",
                needed: &[Key::Branch, Key::Day],
                further: &[Key::DryRun, Key::IfEntries],
                paths: &[],
                kind: WordKind::Command {
                    of: Some(Key::Branch),
                },
            },
            Word::Close => &Row {
                name: "close",
                needed: &[Key::Branch, Key::Day],
                further: &[Key::Accounts, Key::Into, Key::DryRun, Key::IfEntries],
                paths: &[],
                kind: WordKind::Command {
                    of: Some(Key::Branch),
                },
            },
            Word::Balance => &Row {
                name: "balance",
                needed: &[Key::Branch, Key::Day],
                further: &[],
                paths: &[&[Key::Branch, Key::Day]],
                kind: WordKind::Report,
            },
            Word::Register => &Row {
                name: "register",
                needed: &[Key::Branch, Key::Account],
                further: &[Key::Tag, Key::From],
                paths: &[&[Key::Branch]],
                kind: WordKind::Report,
            },
            Word::Transit => &Row {
                name: "transit",
                needed: &[Key::Day],
                further: &[],
                paths: &[&[Key::Day]],
                kind: WordKind::Report,
            },
            Word::Journal => &Row {
                name: "journal",
                needed: &[Key::Branch],
                further: &[],
                paths: &[&[Key::Branch]],
                kind: WordKind::Report,
            },
            Word::Branches => &Row {
                name: "branches",
                needed: &[],
                further: &[],
                paths: &[&[]],
                kind: WordKind::Report,
            },
            Word::Commodities => &Row {
                name: "commodities",
                needed: &[],
                further: &[],
                paths: &[&[]],
                kind: WordKind::Report,
            },
            Word::Accounts => &Row {
                name: "accounts",
                needed: &[Key::Branch],
                further: &[],
                paths: &[&[Key::Branch]],
                kind: WordKind::Report,
            },
            Word::Transfers => &Row {
                name: "transfers",
                needed: &[Key::Day],
                further: &[],
                paths: &[&[Key::Day]],
                kind: WordKind::Report,
            },
        }
    }

    /// Whether what its request has at a key is a day.
    pub fn has_day_at(self, key: Key) -> bool
        ensures { result ≡ is_day_key self key }
    {
        matches!((self, key), (_, Key::Day) | (Word::Register, Key::From))
    }
}

/// Each word, commands first.
pub fn all_words() -> &'static [Word]
    ensures { result.now ≡ all_words }
{
    ALL_WORDS
}

/// The word that a text is.
pub fn word_named(text: &str) -> Option<Word>
    ensures { result ≡ find (is_word_named text.now) all_words }
{
    all_words()
        .iter()
        .copied()
        .find(|word| word.row().name == text)
}
