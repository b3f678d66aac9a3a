//! What transcripts mean, in the words of the machine of commands.

ghost use Rattle.std.specs.Prelude.{◌≡◌, List, ℕ, Result, Ok};
ghost use Rattle.book_core.specs.declared.refusal.Refusal.{Refusal as Refused};
ghost use Rattle.journal_format.specs.declared.txn.Located.{Located};
ghost use Rattle.journal_format.specs.Pieces.{Reads};
ghost use Rattle.treasury_state.specs.Federation.{Federation};
ghost use Rattle.treasury_core.specs.declared.command.Answer.{Answer};
ghost use Rattle.treasury_core.specs.declared.command.Answer.TheVariants.{Entered};
ghost use Rattle.treasury_core.specs.declared.command.Command.{Command};
ghost use Rattle.treasury_core.specs.declared.command.Command.TheVariants.{Enter};
ghost use Rattle.treasury_core.specs.Step.{reply, step};
ghost use Rattle.treasury_core.specs.Run.{IsRun as IsCommandRun, state_after};
ghost use Rattle.treasury_requests.specs.declared.request.Request.{Request};
ghost use Rattle.treasury_requests.specs.declared.request.Request.TheVariants.{Import};
ghost use Rattle.treasury_reasons.specs.Uneven.{IsReadImport};
ghost use Rattle.treasury_api.specs.Transcript.{IsTranscript};
ghost use Rattle.treasury_api.specs.Step.{Standing, after_asked, Answers};
ghost use Rattle.treasury_api.specs.History.{LineTurn, AreTurns, standing_after, IsRunOfLines, commands_of};
ghost use Rattle.treasury_api.specs.History.{RefusalsLeaveStanding, IsRefusalOrRepeat, RefusedLinesLeave};
ghost use Rattle.money_core.specs.declared.day.Day.{Day as Number};
ghost use Rattle.treasury_reports.specs.TransfersReport.{AddUpToTransit};
ghost use Rattle.treasury_api.specs.Lists.{AreRepeated};

use crate::asking::Asked;
use book_core::Ledger;
use treasury_core::State;
use treasury_laws::{
    closed_law, closing_law, entered_law, joined_law, other_journal_law, own_journal_law,
    printed_journal_law, rows_law, transit_law, unchanged_law,
};
use treasury_reports::{samples_law, transfers_law};

/// A law of transcripts: each has turns, one for each request, whose texts are its output; and such turns have it as
/// their transcript. Costs nothing.
pub fn run_law()
    ensures turns { (start : Standing) (input output : List ℕ) (end : Standing)
        → IsTranscript Answers start input output end → (turns : List LineTurn)
        × IsRunOfLines start input output end turns }
    ensures transcript { (start : Standing) (input output : List ℕ) (end : Standing) (turns : List LineTurn)
        → IsRunOfLines start input output end turns → IsTranscript Answers start input output end }
{}

/// A law of turns: their commands fit, and are a run of the machine of commands that leads where the turns do. So all
/// laws of its runs hold of them; those that the program calls nowhere else are called here. Costs nothing.
pub fn commands_law()
    ensures run { (start : Standing) (turns : List LineTurn) → AreTurns start turns
        → IsCommandRun start.now (commands_of turns) }
    ensures end { (start : Standing) (turns : List LineTurn)
        → (standing_after start turns).now ≡ state_after start.now (commands_of turns) }
{
    joined_law();
    unchanged_law();
    entered_law();
    own_journal_law();
    printed_journal_law();
    other_journal_law();
    transit_law();
    closing_law();
    closed_law();
    rows_law();
}

/// Laws of what is refused or repeated: along turns each such reply leaves the state, and so does every line whose
/// answer is a refusal or `repeated`. Along a run so does each answer that stands in its output as such a line. A
/// report or a dry run leaves the state whatever is replied. Costs nothing.
pub fn refusal_law()
    ensures turns { (start : Standing) (turns : List LineTurn) → AreTurns start turns
        → RefusalsLeaveStanding start turns }
    ensures answered { (s : Standing) (line text : List ℕ) (t : Standing)
        → Answers s line text t → IsRefusalOrRepeat text → t.now ≡ s.now }
    ensures along { (start : Standing) (input output : List ℕ) (end : Standing) (turns : List LineTurn)
        → IsRunOfLines start input output end turns → RefusedLinesLeave start turns }
    ensures report { (f : Federation) (report : Request) (r : Result Answer Refused)
        → after_asked f (Ok (Asked.Report report)) r ≡ f }
    ensures dry_run { (f : Federation) (command : Command) (r : Result Answer Refused)
        → after_asked f (Ok (Asked.DryRun command)) r ≡ f }
{}

/// Laws of what is listed of a state: what is open of the transfers adds up to what the transit report has, and each
/// line of the commodities report, as a sample, asks for its commodity, which is answered `repeated`. Costs nothing.
pub fn lists_law<L: Ledger>(state: &State<L>)
    ensures transit { (day : Number) → AddUpToTransit state.now.transfers day }
    ensures samples { AreRepeated state.now }
{
    transfers_law();
    let styles = state.styles();
    styles.are_styles();
    samples_law(styles);
}

/// A law of an import that is answered with counts: the state after it reads its journal as the same transactions. So
/// the clause `entered` of `notes_of` holds of it. Costs nothing.
pub fn taken_law()
    ensures { (f : Federation) (name journal : List ℕ) (file : List Located) (new repeated : ℕ)
        → Reads f.styles journal file → reply f (Enter name file) ≡ Ok (Entered new repeated)
        → IsReadImport (step f (Enter name file)).next.styles (Import name journal) name journal file }
{}
