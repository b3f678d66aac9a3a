//! A state out of its rows.

ghost use Rattle.std.specs.Prelude.{◌≡◌, ◌⊎◌, IfOk, IfErr};
ghost use Rattle.treasury_state.specs.Federation.{Federation};
ghost use Rattle.treasury_state.specs.Good.{IsGoodState};
ghost use Rattle.treasury_state.specs.Rows.{rows};

use crate::drafting::drafted;
use crate::judging::judge;
use crate::keeping::kept;
use crate::same_rows::has_rows;
use book_core::Ledger;
use money_core::Cause;
use std::alloc::Global;
use treasury_state::{Parts, State};

/// What can be built from rows.
pub trait Build: Sized {
    /// The value that has these rows.
    fn build(alloc: Global, parts: Parts) -> Result<Self, Cause>;
}

impl<L: Ledger> Build for State<L> {
    /// The state that has these rows: they are read, the rows of what they spell are compared with them, and it is
    /// judged.
    ///
    /// It answers 43 where they are no good state's, and 40 for want of memory. It costs what the rows have, and each
    /// book is filled once. The rows are given up before it is judged.
    fn build(alloc: Global, parts: Parts) -> Result<Self, Cause>
        ensures built { IfOk result (λ f. rows f ≡ parts) }
        ensures err { IfErr result (λ e. (e ≡ Cause.OutOfMemory)
            ⊎ ((e ≡ Cause.Damaged) × ((f : Federation) → IsGoodState f → rows f ≡ parts → ⊥))) }
    {
        let draft = drafted(alloc, &parts)?;
        if !has_rows(&draft, &parts) {
            return Err(Cause::Damaged);
        }
        drop(parts);
        let Some(judged) = judge(alloc, &draft)? else {
            return Err(Cause::Damaged);
        };
        kept(alloc, draft, judged)
    }
}
