//! Which transaction of a journal is refused by 24 to 27, and for what.

ghost use Rattle.std.specs.Prelude.{◌≡◌, ◌++◌, ◌∷◌, [], List, Some, find, slice_get, IfOk, IfSome, IsSomeAnd, OnOk};
ghost use Rattle.std.specs.Option.{option_map};
ghost use Rattle.money_core.specs.declared.cause.Cause.{Cause as Reason};
ghost use Rattle.book_core.specs.declared.refusal.Refusal.TheVariants.{Plain};
ghost use Rattle.journal_format.specs.declared.txn.Located.{Located as Placed};
ghost use Rattle.journal_format.specs.Pieces.{Reads};
ghost use Rattle.treasury_state.specs.Good.{IsGoodBranch};
ghost use Rattle.treasury_state.specs.Index.{IsIndexOf, IsKept, mark_place};
ghost use Rattle.treasury_state.specs.Seen.{branch_of};
ghost use Rattle.treasury_state.specs.Transfer.{is_transit};
ghost use Rattle.treasury_core.specs.Step.{records_in_file, refused_in, StopsAt};
ghost use Rattle.treasury_messages.specs.Said.{says};
ghost use Rattle.treasury_reasons.specs.Refused.{is_of_transaction, record_said, earlier_said, holder_said, maker_of};
ghost use Rattle.treasury_reasons.specs.Refused.{transit_said, cause_said, stopped_said};

use crate::lock::say_lock;
use crate::named::say_named;
use crate::reading::{Read, cause_in, read_rows};
use crate::taking::taken;
use book_core::{Ledger, Leg};
use journal_format::Located;
use journal_hints::lines::say_source;
use journal_lines::is_reserved;
use money_core::{Cause, Styles};
use std::alloc::Global;
use treasury_core::{Branch, Record, State};
use treasury_messages::Piece::{Header, Number, Text, Words};
use treasury_messages::{Done, MessageKind, Messages, say, say_sentence, say_sentence_at};
use treasury_requests::Request;

/// Whether an import is refused so by one of its transactions, as they are taken in turn.
pub fn is_of_transaction(cause: Cause) -> bool
    ensures { result ≡ is_of_transaction cause }
{
    matches!(
        cause,
        Cause::MarkClash | Cause::ReservedMark | Cause::ReservedAccount | Cause::Locked
    )
}

/// Whether the leg is on an account on which only transfers post.
fn is_transit(leg: &Leg) -> bool
    ensures { result ≡ is_transit leg.now }
{
    is_reserved(leg.account.as_str().as_bytes())
}

/// The first leg on such an account.
fn find_transit(legs: &[Leg]) -> Option<&Leg>
    ensures { option_map (λ l. l.now) result ≡ find is_transit legs.now }
{
    for leg in legs {
        if is_transit(leg) {
            return Some(leg);
        }
    }
    None
}

/// Says the account of the first leg on which only transfers post, if there is one.
fn say_transit(legs: &[Leg], out: &mut Messages) -> Done
    ensures { OnOk result (out.new.items ≡ out.old.items ++ transit_said (find is_transit legs.now)) }
{
    let Some(leg) = find_transit(legs) else {
        return Ok(());
    };
    let name = leg.account.as_str();
    say_named(MessageKind::Account, b"account: ", name, out)?;
    let pieces = [Words(b"only treasury dispatch and treasury receive post there")];
    say(MessageKind::TransfersOnly, &pieces, out)
}

/// Says the record at that place, which holds a mark, if there is one.
fn say_record(records: &[Record], place: usize, out: &mut Messages) -> Done
    ensures { OnOk result (out.new.items ≡ out.old.items ++ record_said place (slice_get records.now place)) }
{
    if place >= records.len() {
        return Ok(());
    }
    let (txn, number) = (&records[place].txn, Number(place + 1));
    let pieces = [Words(b"held: "), Header(txn), Words(b", entry "), number];
    say(MessageKind::HeldEntry, &pieces, out)
}

/// Says an earlier transaction of a text, which holds a mark, if there is one.
fn say_earlier(earlier: Option<&Located>, out: &mut Messages) -> Done
    ensures { OnOk result (out.new.items
        ≡ out.old.items ++ earlier_said (option_map (λ x. x.now) earlier.entry)) }
{
    match earlier {
        Some(earlier) => {
            let pieces = [
                Words(b"held: "),
                Header(&earlier.txn),
                Words(b", on line "),
                Number(earlier.line),
            ];
            say(MessageKind::HeldOnLine, &pieces, out)
        }
        None => Ok(()),
    }
}

/// Says what holds a mark: the record at a place of the branch, or else the transaction at a place of the text.
fn say_holder(
    records: &[Record],
    file: &[Located],
    held: Option<usize>,
    earlier: Option<usize>,
    out: &mut Messages,
) -> Done
    ensures { OnOk result (out.new.items ≡ out.old.items ++ holder_said records.now file.now held earlier) }
{
    match (held, earlier) {
        (Some(place), _) => say_record(records, place, out),
        (None, Some(place)) => say_earlier(file.get(place), out),
        (None, None) => Ok(()),
    }
}

/// Says the mark of a transaction, and what holds it.
fn say_clash<L: Ledger>(branch: &Branch<L>, read: &Read, mark: &str, out: &mut Messages) -> Done
    requires index { IsIndexOf branch.now.index branch.now.records }
    requires first { IsIndexOf read.now.first read.now.rows }
    ensures { OnOk result (out.new.items ≡ out.old.items ++ says MessageKind.Mark (mark.now ∷ [])
        ∷ holder_said branch.now.records read.now.file.items (mark_place branch.now.records mark.now)
        (mark_place read.now.rows mark.now)) }
{
    let (records, file) = (branch.records.items(), read.file.as_slice());
    let held = branch.index.get(mark).copied();
    let earlier = read.place_of(mark);
    say_named(MessageKind::Mark, b"mark: ", mark, out)?;
    say_holder(records, file, held, earlier, out)
}

/// The command that makes entries with that mark.
fn maker_of(mark: &str) -> &'static [u8]
    ensures { result.now ≡ maker_of mark.now }
{
    if mark.starts_with("out:") {
        b"treasury dispatch"
    } else if mark.starts_with("in:") {
        b"treasury receive"
    } else {
        b"treasury close"
    }
}

/// Says for what a transaction of a text is refused, whose record that is.
fn say_cause<L: Ledger>(
    state: &State<L>,
    request: &Request,
    branch: &Branch<L>,
    read: &Read,
    cause: Cause,
    row: &Record,
    out: &mut Messages,
) -> Done
    requires index { IsIndexOf branch.now.index branch.now.records }
    requires first { IsIndexOf read.now.first read.now.rows }
    ensures { OnOk result (out.new.items ≡ out.old.items ++ cause_said state.now request.now branch.now.records
        read.now.file.items read.now.rows cause row.now) }
{
    let mark = row.mark.as_str();
    match cause {
        Cause::MarkClash => say_clash(branch, read, mark, out),
        Cause::ReservedMark => {
            say_named(MessageKind::Mark, b"mark: ", mark, out)?;
            let pieces = [
                Words(b"only "),
                Text(maker_of(mark)),
                Words(b" makes such an entry; a journal cannot"),
            ];
            say(MessageKind::Maker, &pieces, out)
        }
        Cause::ReservedAccount => say_transit(row.entry.legs.items(), out),
        _ => say_lock(state, request, out),
    }
}

/// A text that was read, and the place of the transaction at which a branch stops to take it.
#[derive(Drop)]
pub struct Stopped {
    pub read: Read,
    /// From 0.
    pub place: usize,
}

/// What is said of the transaction at which a branch stops.
pub fn explain_stop<L: Ledger>(
    alloc: Global,
    state: &State<L>,
    request: &Request,
    branch: &Branch<L>,
    source: &str,
    text: &[u8],
    stopped: &Stopped,
    cause: Cause,
) -> Result<Messages, Cause>
    requires index { IsIndexOf branch.now.index branch.now.records }
    requires first { IsIndexOf stopped.now.read.first stopped.now.read.rows }
    ensures { IfOk result (λ said. said.items ≡ stopped_said state.now request.now source.now text.now
        branch.now.records stopped.now.read.file.items stopped.now.read.rows cause stopped.now.place) }
{
    let read = &stopped.read;
    let mut said = Vec::new(alloc);
    let (Some(located), Some(row)) = (
        read.file.get(stopped.place),
        read.rows.items().get(stopped.place),
    ) else {
        say_sentence(cause, &mut said)?;
        return Ok(said);
    };
    say_sentence_at(source, located.line, cause, &mut said)?;
    say_source(text, located.line, &mut said)?;
    say_cause(state, request, branch, read, cause, row, &mut said)?;
    Ok(said)
}

/// Where a branch stops to take the transactions of a text, if it does.
pub fn find_stop<L: Ledger>(
    alloc: Global,
    styles: &Styles,
    branch: &Branch<L>,
    text: &[u8],
) -> Result<Option<Stopped>, Cause>
    requires kept { IsKept L.book branch.now }
    requires good { IsGoodBranch styles.now (branch_of branch.now) }
    ensures found { (list : List Placed) (cause : Reason) → Reads styles.now text.now list
        → refused_in styles.now branch.now.locked branch.now.records (records_in_file styles.now list)
        ≡ Some (Plain cause)
        → IfOk result (λ stopped. IsSomeAnd stopped (λ s. (s.read.file.items ≡ list)
        × (s.read.rows ≡ records_in_file styles.now list)
        × StopsAt styles.now branch.now.locked branch.now.records s.read.rows s.place (Plain cause))) }
    ensures first { IfOk result (λ stopped. IfSome stopped (λ s. IsIndexOf s.read.first s.read.rows)) }
{
    let read = read_rows(alloc, styles, text)?;
    match taken(alloc, styles, branch, &read.rows) {
        Ok(_) => Ok(None),
        Err(stop) => match cause_in(stop.refusal) {
            Cause::OutOfMemory => Err(Cause::OutOfMemory),
            _ => Ok(Some(Stopped {
                read,
                place: stop.place,
            })),
        },
    }
}
