//! That no command takes anything back.

ghost use Rattle.std.specs.Prelude.{List};
ghost use Rattle.treasury_state.specs.Federation.{Federation};
ghost use Rattle.treasury_core.specs.Run.{Turn, state_after};
ghost use Rattle.treasury_files.specs.Counts.{Keeps, counts_of};

use treasury_laws::joined_law;

/// A law of counts: a run of the machine of commands leaves no count smaller. So a log of a file's own, which has what
/// commands added to the state of the file, takes nothing back. Costs nothing.
pub fn counts_law()
    ensures { (f : Federation) (turns : List Turn) → Keeps (counts_of f) (counts_of (state_after f turns)) }
{
    joined_law();
}
