//! Marks of transactions.

ghost use Rattle.std.specs.Prelude.{◌≡◌, IfOk};
ghost use Rattle.std.specs.Result.{IsOkUnless};
ghost use Rattle.journal_format.specs.CanonicalText.{body_text};
ghost use Rattle.journal_format.specs.Printable.{IsPrintable};
ghost use Rattle.treasury_state.specs.Mark.{hash_mark, transaction_mark};

use journal_format::{Txn, body};
use money_core::{Cause, Copied, Styles, Text};
use sha2::{Digest, Sha256};
use std::alloc::Global;

/// The number of bytes that the canonical text of most transactions stays under.
const USUAL_TEXT: usize = 128;

/// The number of bytes of the mark of an unmarked transaction, but for the digits of its number after the third.
const USUAL_MARK: usize = 70;

/// The canonical text of a transaction, without its mark.
pub fn text_of(alloc: Global, txn: &Txn, styles: &Styles) -> Result<Vec<u8>, Cause>
    requires { IsPrintable styles.now txn.now }
    ensures value { IfOk result (λ text. text.items ≡ body_text styles.now txn.now) }
    ensures memory { IsOkUnless result Cause.OutOfMemory }
{
    let mut text = Vec::new(alloc);
    text.reserve(USUAL_TEXT)?;
    body(alloc, txn, styles, &mut text)?;
    Ok(text)
}

/// The mark of the n-th unmarked transaction of a file that has that canonical text.
#[tactic(auto, unfolding(crate::specs::Mark::hash_mark))]
pub fn hash_mark(alloc: Global, text: &[u8], n: usize) -> Result<Text, Cause>
    ensures value { IfOk result (λ mark. mark ≡ hash_mark text.now n) }
    ensures memory { IsOkUnless result Cause.OutOfMemory }
{
    let hash = hex::encode(alloc, Sha256::digest(text))?;
    let mut mark = String::with_capacity(alloc, USUAL_MARK)?;
    write!(mark, "h-{hash}-{n}")?;
    Ok(Text::from_string(mark))
}

/// The mark of a transaction, which has to be one that can be printed: its own, or, for the n-th unmarked one of a file
/// with the same canonical text, `h-`, the SHA-256 of that text in hexadecimal, `-` and n.
///
/// Where memory is refused, it answers 40.
pub fn mark_of(alloc: Global, txn: &Txn, n: usize, styles: &Styles) -> Result<Text, Cause>
    requires { IsPrintable styles.now txn.now }
    ensures value { IfOk result (λ mark. mark ≡ transaction_mark styles.now txn.now n txn.now.mark) }
    ensures memory { IsOkUnless result Cause.OutOfMemory }
{
    match &txn.mark {
        Some(mark) => mark.copy(),
        None => {
            let text = text_of(alloc, txn, styles)?;
            hash_mark(alloc, &text, n)
        }
    }
}
