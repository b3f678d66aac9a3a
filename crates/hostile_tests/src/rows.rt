//! Worked rows: what is sent, what it is answered, and what it is answered once it was done.

use std::alloc::Global;
use std::process::Abort;

/// A request, its answer, and its answer once it was done.
pub type Sent = (&'static str, &'static str, &'static str);

/// Two branches, two commodities, an entry, and a report on it.
pub const ENTRY: &[Sent] = &[
    (r#"{"do":"branch","name":"north"}"#, "ok\n", "repeated\n"),
    (r#"{"do":"branch","name":"south"}"#, "ok\n", "repeated\n"),
    (
        r#"{"do":"commodity","sample":"1,000.00 EUR"}"#,
        "ok\n",
        "repeated\n",
    ),
    (
        r#"{"do":"commodity","sample":"$1,000.00"}"#,
        "ok\n",
        "repeated\n",
    ),
    (
        r#"{"do":"import","branch":"north","journal":"2024-01-05 hall\n    expenses:hall  120.00 EUR\n    assets:bank  -120.00 EUR\n"}"#,
        "ok 1 new, 0 repeated\n",
        "ok 0 new, 1 repeated\n",
    ),
    (
        r#"{"do":"balance","branch":"north","day":"2024-01-31"}"#,
        "         -120.00 EUR  assets:bank\n          120.00 EUR  expenses:hall\nok\n",
        "         -120.00 EUR  assets:bank\n          120.00 EUR  expenses:hall\nok\n",
    ),
];

/// A transfer and its receipt.
pub const TRANSFER: &[Sent] = &[
    (r#"{"do":"branch","name":"north"}"#, "ok\n", "repeated\n"),
    (r#"{"do":"branch","name":"south"}"#, "ok\n", "repeated\n"),
    (
        r#"{"do":"commodity","sample":"1,000.00 EUR"}"#,
        "ok\n",
        "repeated\n",
    ),
    (
        r#"{"do":"dispatch","id":"t7","from":"north","to":"south","day":"2024-03-01","amount":"50.00 EUR","account":"assets:bank"}"#,
        "ok\n",
        "repeated\n",
    ),
    (
        r#"{"do":"dispatch","id":"t7","from":"north","to":"south","day":"2024-03-01","amount":"51.00 EUR","account":"assets:bank"}"#,
        "refused 24 MarkClash\n",
        "refused 24 MarkClash\n",
    ),
    (
        r#"{"do":"receive","id":"t7","branch":"north","day":"2024-03-03","account":"assets:bank"}"#,
        "refused 32 WrongBranch\n",
        "refused 32 WrongBranch\n",
    ),
    (
        r#"{"do":"receive","id":"t7","branch":"south","day":"2024-03-03","account":"assets:bank"}"#,
        "ok\n",
        "repeated\n",
    ),
    (
        r#"{"do":"receive","id":"t7","branch":"south","day":"2024-03-04","account":"assets:bank"}"#,
        "refused 33 AlreadyReceived\n",
        "refused 33 AlreadyReceived\n",
    ),
    (
        r#"{"do":"receive","id":"t8","branch":"south","day":"2024-03-03","account":"assets:bank"}"#,
        "refused 31 UnknownTransfer\n",
        "refused 31 UnknownTransfer\n",
    ),
    (
        r#"{"do":"transit","day":"2024-03-02"}"#,
        "           50.00 EUR  north to south\nok\n",
        "           50.00 EUR  north to south\nok\n",
    ),
    (
        r#"{"do":"transit","day":"2024-03-03"}"#,
        "            0.00 EUR  north to south\nok\n",
        "            0.00 EUR  north to south\nok\n",
    ),
];

/// A closing, with what it locks.
pub const CLOSING: &[Sent] = &[
    (r#"{"do":"branch","name":"north"}"#, "ok\n", "repeated\n"),
    (r#"{"do":"branch","name":"south"}"#, "ok\n", "repeated\n"),
    (
        r#"{"do":"commodity","sample":"1,000.00 EUR"}"#,
        "ok\n",
        "repeated\n",
    ),
    (
        r#"{"do":"commodity","sample":"$1,000.00"}"#,
        "ok\n",
        "repeated\n",
    ),
    (
        r#"{"do":"import","branch":"north","journal":"2024-06-01 food\n    expenses:food  30.00 EUR\n    assets:bank\n\n2024-06-02 trip\n    Expenses:Trip  $7.00\n    assets:bank\n\n2024-06-03 dues\n    income:dues  -100.00 EUR\n    assets:bank\n"}"#,
        "ok 3 new, 0 repeated\n",
        "ok 0 new, 3 repeated\n",
    ),
    (
        r#"{"do":"close","branch":"north","day":"2024-12-31"}"#,
        "ok\n",
        "repeated\n",
    ),
    (
        r#"{"do":"close","branch":"south","day":"2024-12-31"}"#,
        "refused 36 NothingToClose\n",
        "refused 36 NothingToClose\n",
    ),
    (
        r#"{"do":"import","branch":"north","journal":"2024-12-31 late\n    expenses:food  1.00 EUR\n    assets:bank\n"}"#,
        "refused 27 Locked\n",
        "refused 27 Locked\n",
    ),
    (
        r#"{"do":"balance","branch":"north","day":"2024-12-31"}"#,
        "           70.00 EUR  assets:bank\n              $-7.00  assets:bank\n          -70.00 EUR  equity:retained earnings\n               $7.00  equity:retained earnings\nok\n",
        "           70.00 EUR  assets:bank\n              $-7.00  assets:bank\n          -70.00 EUR  equity:retained earnings\n               $7.00  equity:retained earnings\nok\n",
    ),
];

/// The requests of these, each on its line.
pub fn requests(rt: &impl Abort, alloc: Global, row: &[Sent]) -> String {
    let mut text = String::new(alloc);
    for (request, _, _) in row {
        text.push_str(*request).expect(rt, "memory");
        text.push('\n').expect(rt, "memory");
    }
    text
}
