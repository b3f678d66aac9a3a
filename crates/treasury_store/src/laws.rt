//! What a connection leaves of the tables.

ghost use Rattle.std.specs.Prelude.{IsTrue};
ghost use Rattle.sqlite.specs.Held.{Held, state};
ghost use Rattle.treasury_core.specs.declared.command.Command.{Command};
ghost use Rattle.treasury_tables.specs.Rows.{Tables};
ghost use Rattle.treasury_tables.specs.Kept.{KeepsTables};
ghost use Rattle.treasury_store.specs.Store.{TablesAreWhileOpen};
ghost use Rattle.treasury_store.specs.Treasury.{Treasury, SurvivesCommand};
ghost use Rattle.treasury_store.specs.Left.{LeavesNoMore, LeavesRows, LeavesSame, LeavesStep};

use sqlite::Alter;

/// A law of connections: while one is open, whatever is left of it are the rows that it shows. A call that keeps our
/// tables leaves nothing that could not be left before it. So a call that commits nothing leaves these rows, and a
/// command leaves the rows of the state before it or those of the state after it. Costs nothing.
pub fn left_law<S: Alter>()
    ensures rows { (h : Held S) (t : Tables) → TablesAreWhileOpen S.Store h t → IsTrue (state S.Store h).is_open
        → LeavesRows S.Store h t }
    ensures within { (old new : Held S) → KeepsTables S.Store old new → LeavesNoMore S.Store old new }
    ensures same { (old new : Held S) → KeepsTables S.Store old new → LeavesSame S.Store old new }
    ensures command { (old new : Treasury S) (c : Command) → SurvivesCommand S.Store old new c
        → LeavesStep S.Store old new c }
{}
