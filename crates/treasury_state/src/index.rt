//! Indexes: from marks to records, from names to branches.

ghost use Rattle.std.specs.Prelude.{◌≡◌, ℕ, List, [], ◌∷◌, ◌++◌, OnOk, option_copied, cond, Some, None};
ghost use Rattle.std.specs.Option.{option_or};
ghost use Rattle.std.specs.Str.{bytes_eq};
ghost use Rattle.std.specs.HashMap.{get_by_text};
ghost use Rattle.std.specs.Result.{IsOkUnless};
ghost use Rattle.treasury_state.specs.Mark.{held};
ghost use Rattle.treasury_state.specs.Index.{IsIndexOf};

use crate::record::Record;
use money_core::{Cause, Items};
use std::alloc::Global;
use std::collections::HashMap;

/// The record with that mark: one look-up, whatever the number of records.
pub fn find_mark<'a>(
    index: &HashMap<String, usize>,
    records: &'a [Record],
    mark: &str,
) -> Option<&'a Record>
    requires { IsIndexOf index.now records.now }
    ensures { option_copied result ≡ held records.now mark.now }
{
    match index.get(mark) {
        None => None,
        Some(place) => records.get(*place),
    }
}

/// Puts a text with that place into an index, where it is not there yet.
pub fn put_place(
    alloc: Global,
    index: &mut HashMap<String, usize>,
    text: &str,
    place: usize,
) -> Result<(), Cause>
    ensures put { OnOk result ((other : List ℕ)
        → get_by_text index.new other
        ≡ option_or (get_by_text index.old other) (cond (bytes_eq text.now other) (Some place) None)) }
    ensures memory { IsOkUnless result Cause.OutOfMemory }
{
    if index.contains_key(text) {
        return Ok(());
    }
    let Ok(key) = String::from_str(alloc, text) else {
        return Err(Cause::OutOfMemory);
    };
    let Ok(_old) = index.insert(key, place) else {
        return Err(Cause::OutOfMemory);
    };
    Ok(())
}

/// Puts the record last, and its mark into the index.
pub fn push_marked(
    alloc: Global,
    records: &mut Items<Record>,
    index: &mut HashMap<String, usize>,
    row: Record,
) -> Result<(), Cause>
    requires { IsIndexOf index.old records.old }
    ensures ok { OnOk result (records.new ≡ records.old ++ row ∷ []) }
    ensures found { OnOk result (IsIndexOf index.new records.new) }
    ensures memory { IsOkUnless result Cause.OutOfMemory }
{
    let place = records.items().len();
    match put_place(alloc, index, row.mark.as_str(), place) {
        Ok(()) => records.push(row),
        Err(cause) => Err(cause),
    }
}
