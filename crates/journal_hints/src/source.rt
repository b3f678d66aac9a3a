//! What the transaction at the line of a fault has.

ghost use Rattle.std.specs.Prelude.{◌≡◌, ◌⊎◌, ◌++◌, true, List, IfOk, IfErr, IfSome, OnOk};
ghost use Rattle.std.specs.List.{list_all};
ghost use Rattle.money_core.specs.declared.cause.Fault.{Fault as FirstFault};
ghost use Rattle.journal_format.specs.declared.txn.Located.{Located as Placed};
ghost use Rattle.journal_format.specs.Fault.{IsFirstFault};
ghost use Rattle.journal_format.specs.Pieces.{Reads};
ghost use Rattle.journal_format.specs.Printable.{IsPrintable, is_posting};
ghost use Rattle.journal_hints.specs.LeftOver.{transaction_on, left_said, left_over_said};

use journal_balance::sum_of;
use journal_format::{Located, Posting, Txn, read_journal};
use money_core::{Cause, Styles, Unit};
use std::alloc::Global;
use treasury_messages::Piece::{Amount, Words};
use treasury_messages::{Done, MessageKind, Messages, say};

/// Says what is left over in a commodity, where that is not 0.
fn say_left(styles: &Styles, unit: Unit, left: i128, out: &mut Messages) -> Done
    ensures { OnOk result (out.new.items ≡ out.old.items ++ left_said styles.now unit left) }
{
    if left == 0 {
        return Ok(());
    }
    let pieces = [Words(b"left over: "), Amount(styles, unit, left)];
    say(MessageKind::LeftOver, &pieces, out)
}

/// Says what the values of postings leave over, commodity by commodity.
pub(crate) fn say_rest(styles: &Styles, postings: &[Posting], out: &mut Messages) -> Done
    requires { list_all (is_posting styles.now) postings.now ≡ true }
    ensures { OnOk result (out.new.items ≡ out.old.items ++ left_over_said styles.now postings.now) }
{
    for number in 0..styles.len() {
        let unit = Unit(number as u16);
        let sum = sum_of(postings, unit, styles);
        say_left(styles, unit, sum, out)?;
    }
    Ok(())
}

/// The transaction whose header stands on that line.
fn on_line(list: Vec<Located>, line: usize) -> Option<Txn>
    ensures { result ≡ transaction_on line list.items }
{
    for located in list {
        if located.line == line {
            return Some(located.txn);
        }
    }
    None
}

/// The transaction of a text whose header stands on that line.
pub fn transaction_at(
    alloc: Global,
    styles: &Styles,
    text: &[u8],
    line: usize,
) -> Result<Option<Txn>, Cause>
    ensures value { (list : List Placed) → Reads styles.now text.now list
        → IfOk result (λ txn. txn ≡ transaction_on line list) }
    ensures printable { IfOk result (λ txn. IfSome txn (IsPrintable styles.now)) }
    ensures err { IfErr result (λ cause. (cause ≡ Cause.OutOfMemory)
        ⊎ ((first : FirstFault) × IsFirstFault styles.now text.now first × (cause ≡ first.cause))) }
{
    match read_journal(alloc, text, styles) {
        Ok(list) => Ok(on_line(list, line)),
        Err(fault) => Err(fault.cause),
    }
}
