//! One sentence for each refusal (docs/RULES.md, "Refusals", where they stand word for word).

ghost use Rattle.std.specs.Prelude.{◌≡◌, ◌++◌, [], ◌∷◌, OnOk, OnErr};
ghost use Rattle.treasury_messages.specs.Sentence.{sentence_of, sentence_said, sentence_said_at};

use crate::kind::MessageKind;
use crate::message::{Message, say};
use crate::piece::Piece;
use money_core::Cause;

/// When the refusal comes.
#[tactic(auto, unfolding(crate::specs::Sentence::sentence_of))]
pub fn sentence(cause: Cause) -> &'static str
    ensures { result.now ≡ sentence_of cause }
{
    match cause {
        Cause::Utf8 =>
            "a line is not UTF-8, or holds an ASCII control character (0 to 31, 127) other than tab",
        Cause::TooLong => "the text, a line or a part of an entry exceeds its limit",
        Cause::Date => "the text up to the first blank or `;` is not a date",
        Cause::Header => "the code of a header lacks its closing parenthesis",
        Cause::Directive =>
            "a line that begins in the first column is of no known kind, or is `commodity` with nothing after it",
        Cause::StrayLine =>
            "an indented line that is not a comment follows neither a header nor a directive",
        Cause::Account => "the account name is missing or not well formed",
        Cause::Amount =>
            "an amount or a symbol is missing or not well formed, or the quantity exceeds its limit",
        Cause::UnknownCommodity => "the symbol is not declared",
        Cause::Decimals => "an amount has more decimals than its commodity, and they are not zeros",
        Cause::CommodityStyle =>
            "a `commodity` directive differs from the declared commodity in its decimal mark or number of decimals, or its `format` line has another symbol",
        Cause::Cost =>
            "a cost is negative, exceeds its limits, or is in the amount's own commodity",
        Cause::CostNotExact =>
            "the product of a unit cost has more decimals than the cost's commodity",
        Cause::Assignment => "an assertion has no amount before it",
        Cause::Virtual => "the account begins with `(` or `[`",
        Cause::Marks => "a transaction has a second mark",
        Cause::TwoBlanks => "a transaction has a second posting without an amount",
        Cause::Unbalanced => "the values of a transaction do not sum to zero",
        Cause::UnknownBranch => "there is no branch of that name",
        Cause::BranchName => "the name is not well formed",
        Cause::CommodityExists => "the symbol is already declared with another style",
        Cause::Full => "a count has reached its limit",
        Cause::MarkClash => "the mark or the ID is already held with other content",
        Cause::ReservedMark =>
            "the mark is one of the treasury's own, and the branch does not hold it",
        Cause::ReservedAccount =>
            "an account is `assets:transit` or below it; in a list of accounts to close, `assets` too",
        Cause::Locked => "the day is on or before the lock day",
        Cause::Limit =>
            "a leg or the turnover exceeds its limit, a closing entry has more than 1,000 postings, or a list of accounts to close exceeds 880 bytes",
        Cause::ClaimFailed => "a balance assertion fails",
        Cause::SameBranch => "the transfer goes to its own branch",
        Cause::UnknownTransfer => "there is no transfer with that ID",
        Cause::WrongBranch => "the transfer goes to another branch",
        Cause::AlreadyReceived =>
            "the transfer or its part was received before with another day, account or amount; or nothing is left and no part is given",
        Cause::TooEarly => "the receipt is dated before the dispatch",
        Cause::LockBack => "the branch is locked through a later day",
        Cause::NothingToClose => "no selected account has a balance",
        Cause::BadAccount =>
            "an account of the request is not well formed, or the target of a closing is selected",
        Cause::BadAmount => "the amount of a dispatch or of a part is not positive",
        Cause::BadId => "the ID or the key of a part is not well formed",
        Cause::OutOfMemory => "out of memory",
        Cause::Store => "a call to the database failed, though not for lack of memory",
        Cause::Closed => "an earlier request was answered 41",
        Cause::Damaged => "the tables are missing, or their rows are not those of a treasury",
        Cause::Request => "the request has none of the known forms",
        Cause::ReadFault => "a read failed, ended too early, or exceeded its limit",
        Cause::WriteFault => "a write failed",
        Cause::TooMuch => "the amount of a part is more than what is left, or in another commodity",
        Cause::Changed => "the branch has another number of entries than `if-entries` says",
    }
}

/// Says the sentence of a refusal, after others. Where memory is refused, nothing is said.
pub fn say_sentence(cause: Cause, out: &mut Vec<Message>) -> Result<(), Cause>
    ensures ok { OnOk result (out.new.items ≡ out.old.items ++ sentence_said cause ∷ []) }
    ensures err { OnErr result (out.new.items ≡ out.old.items) }
{
    say(
        MessageKind::Sentence,
        &[Piece::Text(sentence(cause).as_bytes())],
        out,
    )
}

/// Says the sentence of a refusal with the file and the line that it comes from, after others.
pub fn say_sentence_at(
    source: &str,
    line: usize,
    cause: Cause,
    out: &mut Vec<Message>,
) -> Result<(), Cause>
    ensures ok { OnOk result (out.new.items ≡ out.old.items ++ sentence_said_at source.now line cause ∷ []) }
{
    let text = sentence(cause).as_bytes();
    say(
        MessageKind::Sentence,
        &[Piece::Origin(source, line), Piece::Text(text)],
        out,
    )
}
