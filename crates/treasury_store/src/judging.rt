//! Whether tables of version 1 are the rows of a state. They are read as they stand, and nothing is written.

ghost use Rattle.std.specs.Prelude.{◌≡◌, ◌⊎◌, false, Err, OnOk, IfErr};
ghost use Rattle.sqlite.specs.Held.{state};
ghost use Rattle.treasury_state.specs.Federation.{Federation};
ghost use Rattle.treasury_state.specs.Good.{IsGoodState};
ghost use Rattle.treasury_state.specs.Rows.{rows};
ghost use Rattle.treasury_tables.specs.Kept.{IsFaithful};
ghost use Rattle.treasury_tables.specs.Rows.{Tables, HoldsFirst};
ghost use Rattle.treasury_tables.specs.Order.{InOrder};
ghost use Rattle.treasury_tables.specs.Judging.{ReadsFirst};

use book_core::DayLedger;
use money_core::Cause;
use sqlite::{Alter, Connection};
use std::alloc::Global;
use treasury_core::State;
use treasury_rows::Build;
use treasury_tables::{cause_of, first_parts, format_rows, is_version};

/// Whether tables of version 1, with their row of `format`, are the rows of a state: 43 where they are not, and 40 or
/// 41 where that cannot be told. Nothing is written.
pub fn judge_first<S: Alter>(alloc: Global, conn: &mut Connection<S>) -> Result<(), Cause>
    requires { conn.old.in_transaction ≡ false }
    ensures ok { OnOk result (IsFaithful S.Store conn.new → (t : Tables) → InOrder t
        → HoldsFirst (state S.Store conn.old).now t → (f : Federation) × IsGoodState f × (rows f ≡ t)) }
    ensures damaged { result ≡ Err Cause.Damaged → IsFaithful S.Store conn.new → (f : Federation)
        → IsGoodState f → HoldsFirst (state S.Store conn.old).now (rows f) → ⊥ }
    ensures causes { IfErr result
        (λ e. (e ≡ Cause.OutOfMemory) ⊎ ((e ≡ Cause.Store) ⊎ (e ≡ Cause.Damaged))) }
    ensures reads { ReadsFirst S.Store conn.old conn.new }
{
    let versions = match format_rows(conn) {
        Ok(versions) => versions,
        Err(error) => return Err(cause_of(conn, error)),
    };
    if !is_version(&versions, 1) {
        return Err(Cause::Damaged);
    }
    let parts = match first_parts(alloc, conn) {
        Ok(parts) => parts,
        Err(error) => return Err(cause_of(conn, error)),
    };
    let built: Result<State<DayLedger>, Cause> = State::build(alloc, parts);
    match built {
        Ok(state) => {
            state.is_good();
            Ok(())
        }
        Err(cause) => Err(cause),
    }
}
