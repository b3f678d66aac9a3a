//! The transactions of a journal's text, and the records that a command makes of them.

ghost use Rattle.std.specs.Prelude.{◌≡◌, List, IfOk};
ghost use Rattle.std.specs.HashMap.{get_by_text};
ghost use Rattle.std.specs.List.{AllByRecursion};
ghost use Rattle.journal_format.specs.declared.txn.Located.{Located as Placed};
ghost use Rattle.journal_format.specs.Pieces.{Reads};
ghost use Rattle.treasury_state.specs.Good.{IsGoodRecord};
ghost use Rattle.treasury_state.specs.Index.{IsIndexOf};
ghost use Rattle.treasury_reasons.specs.Reading.{IsRead, line_by, line_of};
ghost use Rattle.treasury_reasons.specs.Refused.{cause_in};

use book_core::Refusal;
use journal_format::{Located, read_journal};
use money_core::{Cause, Items, Styles};
use std::alloc::Global;
use std::collections::HashMap;
use treasury_core::{Record, records_in_file};
use treasury_state::put_place;

/// A text that was read.
#[derive(Drop)]
pub struct Read {
    /// Its transactions, with the lines of their headers.
    pub file: Vec<Located>,
    /// The records that a command makes of them, in order.
    pub rows: Items<Record>,
    /// The first place of each mark among these.
    pub first: HashMap<String, usize>,
}

/// The cause of a refusal.
pub fn cause_in(refusal: Refusal) -> Cause
    ensures { result ≡ cause_in refusal }
{
    match refusal {
        Refusal::Plain(cause) => cause,
        Refusal::Text(fault) => fault.cause,
        Refusal::ClaimFailed(_) => Cause::ClaimFailed,
    }
}

/// The first place of each mark among records.
fn places_of(alloc: Global, rows: &[Record]) -> Result<HashMap<String, usize>, Cause>
    ensures { IfOk result (λ places. IsIndexOf places rows.now) }
{
    let mut places = HashMap::new(alloc);
    for (place, row) in rows.iter().enumerate() {
        put_place(alloc, &mut places, row.mark.as_str(), place)?;
    }
    Ok(places)
}

/// The transactions of a text and their records. Where the text has a fault, its cause is answered.
pub fn read_rows(alloc: Global, styles: &Styles, text: &[u8]) -> Result<Read, Cause>
    ensures value { IfOk result (λ read. IsRead styles.now text.now read) }
    ensures only { (list : List Placed) → Reads styles.now text.now list
        → IfOk result (λ read. read.file.items ≡ list) }
    ensures good { IfOk result (λ read. AllByRecursion (IsGoodRecord styles.now) read.rows) }
{
    let file = match read_journal(alloc, text, styles) {
        Ok(file) => file,
        Err(fault) => return Err(fault.cause),
    };
    let rows = match records_in_file(alloc, styles, file.as_slice()) {
        Ok(rows) => rows,
        Err(refusal) => return Err(cause_in(refusal)),
    };
    let first = places_of(alloc, rows.items())?;
    Ok(Read { file, rows, first })
}

impl Read {
    /// The first place of a mark.
    pub fn place_of(&self, mark: &str) -> Option<usize>
        ensures { result ≡ get_by_text self.now.first mark.now }
    {
        self.first.get(mark).copied()
    }

    /// The line of the header of the first transaction that goes by a mark.
    pub fn line_by(&self, mark: &str) -> Option<usize>
        requires { IsIndexOf self.now.first self.now.rows }
        ensures { result ≡ line_by self.now.file.items self.now.rows mark.now }
    {
        match self.file.get(self.place_of(mark)?) {
            Some(located) => Some(located.line),
            None => None,
        }
    }

    /// The line of the header of a record's transaction; 0 where none has its mark.
    pub fn line_of(&self, row: &Record) -> usize
        requires { IsIndexOf self.now.first self.now.rows }
        ensures { result ≡ line_of self.now.file.items self.now.rows row.now }
    {
        self.line_by(row.mark.as_str()).unwrap_or(0)
    }
}
