//! What connections come to, one after another.

ghost use Rattle.std.specs.Prelude.{Option, ◌≡◌, ◌≢◌, List, ℕ, Result, Some};
ghost use Rattle.std.specs.List.{AllByRecursion};
ghost use Rattle.http_request.specs.declared.call.Call.{Call};
ghost use Rattle.http_request.specs.declared.call.Form.{Form};
ghost use Rattle.treasury_state.specs.Good.{IsGoodState};
ghost use Rattle.money_core.specs.declared.style.Style.{Style};
ghost use Rattle.book_core.specs.declared.refusal.Refusal.{Refusal as Refused};
ghost use Rattle.treasury_state.specs.Federation.{Federation};
ghost use Rattle.treasury_core.specs.declared.command.Answer.{Answer};
ghost use Rattle.serde_json.specs.Data.{Data};
ghost use Rattle.serde_json.specs.Read.{read};
ghost use Rattle.json_text.specs.ReadBack.{HasMembers};
ghost use Rattle.treasury_requests.specs.declared.request.Request.{Request};
ghost use Rattle.treasury_api.specs.Report.{report_members, report_json};
ghost use Rattle.treasury_api.specs.JsonReply.{reply_members, reply_json};
ghost use Rattle.treasury_api.specs.Step.{Standing};
ghost use Rattle.treasury_api.specs.History.{KeepBooksTo};
ghost use Rattle.treasury_api.specs.Web.{AnswersCall, AnsweredCall, AreServed, turns_of_calls};
ghost use Rattle.treasury_api.specs.Web.{CommandsOnly, AreCommandsOf};

use json_text::json_law;
use treasury_laws::headline_law;

/// A law of connections: answered one after another, each by the state that the one before it left, the commands that
/// they called for are, with their replies and in their order, a run of the machine of commands that leads where the
/// calls do, and it keeps the books as the headline says. A reply of another status than 200 leaves the state. Where
/// each call is for a report, or by the route of the commands of one branch, all of these commands are of that branch.
/// Costs nothing.
pub fn calls_law()
    ensures headline { (start : Standing) (calls : List AnsweredCall) (end : Standing) → IsGoodState start.now
        → (served : AreServed start calls end)
        → KeepBooksTo start.now (turns_of_calls start calls end served) end.now }
    ensures refused { (s : Standing) (form : Form) (call : Call) (status : ℕ) (body : List ℕ)
        (t : Standing) → AnswersCall s form call status body t
        → status ≢ 200 → t.now ≡ s.now }
    // Through the route of a branch no command of another one is performed.
    ensures own { (name : List ℕ) (start : Standing) (calls : List AnsweredCall) (end : Standing)
        → AllByRecursion (λ (answered : AnsweredCall). CommandsOnly name answered.call) calls
        → (served : AreServed start calls end)
        → AreCommandsOf name (turns_of_calls start calls end served) }
{
    headline_law();
}

/// A law of replies in JSON: a reader of JSON gives the very texts back of which they are made, each at its key, and
/// nothing else: of a reply the line that answers, the number, the name and the sentence of a refusal, and the lines of
/// what is told and noted, and how many entries the branch has; of a report its rows. Costs nothing.
pub fn replies_law()
    ensures reply { (styles : List Style) (reply : Result Answer Refused) (told noted : List ℕ)
        (entries : Option ℕ)
        → (d : Data) × (read (reply_json styles reply told noted entries) ≡ Some d)
        × HasMembers (reply_members styles reply told noted entries) d }
    ensures report { (f : Federation) (report : Request) → (d : Data) × (read (report_json f report) ≡ Some d)
        × HasMembers (report_members f report) d }
{
    json_law();
}
