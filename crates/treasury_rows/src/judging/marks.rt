//! Marks that stand once.

ghost use Rattle.std.specs.Prelude.{MatchOption, IfOk};
ghost use Rattle.std.specs.Result.{IsOkUnless};
ghost use Rattle.treasury_state.specs.Mark.{HaveOwnMarks};
ghost use Rattle.treasury_state.specs.Index.{IsIndexOf};

use money_core::Cause;
use std::alloc::Global;
use std::collections::HashMap;
use treasury_state::{Record, put_place};

/// The places of the records' marks, or none where a mark stands twice.
pub(super) fn own_index(
    alloc: Global,
    rows: &[Record],
) -> Result<Option<HashMap<String, usize>>, Cause>
    ensures value { IfOk result (λ o.
        MatchOption o (HaveOwnMarks rows.now → ⊥) (λ index. HaveOwnMarks rows.now × IsIndexOf index rows.now)) }
    ensures memory { IsOkUnless result Cause.OutOfMemory }
{
    let mut index = HashMap::new(alloc);
    for (place, row) in rows.iter().enumerate() {
        let mark = row.mark.as_str();
        if index.contains_key(mark) {
            return Ok(None);
        }
        put_place(alloc, &mut index, mark, place)?;
    }
    Ok(Some(index))
}
