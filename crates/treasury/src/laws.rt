//! What words over a file come to, one after another.

ghost use Rattle.std.specs.Prelude.{◌≡◌, true, false, List, [], ℕ, IsTrue};
ghost use Rattle.sqlite_wal.specs.Recovery.{Image};
ghost use Rattle.sqlite_wal.specs.Reads.{AreClean};
ghost use Rattle.sqlite_store.specs.declared.store.FileStore.{FileStore};
ghost use Rattle.sqlite_store.specs.FileStore.{view};
ghost use Rattle.sqlite.specs.Held.{Held};
ghost use Rattle.sqlite.specs.Start.{FindsIn};
ghost use Rattle.sqlite.specs.Tree.{Trees};
ghost use Rattle.sqlite.specs.Files.{file_state, IsOpened, HoldsDatabase};
ghost use Rattle.treasury_state.specs.Federation.{Federation};
ghost use Rattle.treasury_state.specs.Good.{IsGoodState};
ghost use Rattle.treasury_api.specs.Step.{Standing};
ghost use Rattle.treasury_api.specs.History.{KeepBooksTo};
ghost use Rattle.treasury_api.specs.Web.{AreServed, turns_of_calls};
ghost use Rattle.treasury_requests.specs.declared.request.Spelled.{Spelled};
ghost use Rattle.treasury.specs.Word.{AnswersWord, Told, AreTold, turns_of_words};
ghost use Rattle.treasury_tables.specs.Tables.{no_schema};
ghost use Rattle.treasury_store.specs.Store.{empty_state};
ghost use Rattle.treasury_files.specs.declared.left.Left.{Left};
ghost use Rattle.treasury_files.specs.Left.{HoldsOf, IsCleanStore, MayBe, MayComeBack};
ghost use Rattle.treasury_files.specs.InFile.{HoldsState, ShowsState, MakesOver};
ghost use Rattle.treasury.specs.OverFile.{AreToldOver, AreAnsweredOver, AreToldBut, turns_of_told};
ghost use Rattle.treasury.specs.Serving.{HaveRowsAfter, ServesOver, ServesOpen, ServesShut};

use sqlite_disk::Disk;
use treasury_api::calls_law;
use treasury_laws::headline_law;

/// A law of words over a file: said one after another, each on the state that the one before it left there, their
/// commands are, with their replies and in their order, a run of the machine of commands that leads where the words do,
/// and it keeps the books as the headline says. A word that is refused leaves the state. Costs nothing.
pub fn words_law()
    ensures headline { (f : Federation) (words : List Told) (end : Federation) → IsGoodState f
        → (told : AreTold f words end) → KeepBooksTo f (turns_of_words f words end told) end }
    ensures refused { (s : Standing) (request : Spelled) (text : List ℕ) (t : Standing)
        → AnswersWord s request text true t → t.now ≡ s.now }
{
    headline_law();
}

/// A law of database files: where files hold the rows of a state, their next opening shows that state. So words one
/// after another, each by a program of its own, are answered each on the state that the one before it left, or are
/// refused and leave it, and the file holds the state where they lead: their commands are a run of the machine of
/// commands, which keeps the books as the headline says, and the file holds the state after it. Where each word is
/// answered, the database file alone holds it too. Costs nothing.
pub fn files_law<D: Disk>()
    ensures shown { (image : Image) (opened : Held (FileStore D D.Disk)) (f : Federation) → HoldsOf image f
        → FindsIn image (file_state opened) → IsOpened opened → ShowsState D.Disk opened f }
    ensures holds { (image : Image) (f : Federation) → HoldsState image f → HoldsOf image f }
    // What `init` makes is found by the next word.
    ensures begun { (start : Image) (left : Left D D.Disk) (made : MakesOver D.Disk start left) (next : Image)
        → AreClean D.Disk made.closed.log made.closed.db → (file_state made.opened).now.schema ≡ no_schema
        → MayBe D.Disk start left next → HoldsState next empty_state }
    // In a file that is missing or empty it makes a treasury that has nothing.
    ensures begun_new { (start : Image) (left : Left D D.Disk) (made : MakesOver D.Disk start left) (next : Image)
        → AreClean D.Disk made.closed.log made.closed.db → start.db ≡ []
        → MayBe D.Disk start left next → HoldsState next empty_state }
    ensures answered { (start : Image) (words : List Told) (end : Image) (f : Federation) → HoldsState start f
        → AreAnsweredOver D.Disk start words end
        → (last : Federation) × AreTold f words last × HoldsState end last }
    ensures books { (start : Image) (words : List Told) (end : Image) (f : Federation) → HoldsState start f
        → AreAnsweredOver D.Disk start words end
        → (last : Federation) × (told : AreTold f words last)
        × KeepBooksTo f (turns_of_words f words last told) last × HoldsState end last }
    ensures kept { (start : Image) (words : List Told) (end : Image) (f : Federation) → HoldsOf start f
        → AreToldOver D.Disk start words end
        → ∥ ((last : Federation) × AreToldBut f words last × HoldsOf end last) ∥₁ }
    ensures headline { (start : Image) (words : List Told) (end : Image) (f : Federation) → HoldsOf start f
        → AreToldOver D.Disk start words end
        → ∥ ((last : Federation) × (told : AreToldBut f words last)
        × KeepBooksTo f (turns_of_told f words last told) last × HoldsOf end last) ∥₁ }
{
    words_law();
    headline_law();
}

/// A law of what is served over a file: where the files that were opened hold the rows of a state, the calls that were
/// answered are a run of the machine of commands, which keeps the books as the headline says. While the disk returns
/// what was written, what is opened next of files that were closed, with the log or without, holds the rows of the
/// state after it, and so it does of files that were left open, because another program had changed them, unless a
/// failure has shut the database. Where one has, and where the files could not be closed, what comes back has these
/// rows, or, where one of the calls failed, those of the state where it leads. Costs nothing.
pub fn serving_law<D: Disk>()
    ensures headline { (start : Image) (left : Left D D.Disk) (served : ServesOver D.Disk start left) (f : Federation)
        → HoldsOf start f → AreClean D.Disk served.closed.log served.closed.db
        → (end : Standing) × (answered : AreServed (record { now = f; failed = false }) served.calls end)
        × KeepBooksTo f (turns_of_calls (record { now = f; failed = false }) served.calls end answered) end.now
        × ((next : Image) → MayBe D.Disk start left next → HoldsState next end.now) }
    ensures left_open { (start : Image) (left : Left D D.Disk) (served : ServesOpen D.Disk start left) (f : Federation)
        → HoldsOf start f → IsCleanStore D.Disk served.it
        → (end : Standing) × (answered : AreServed (record { now = f; failed = false }) served.calls end)
        × KeepBooksTo f (turns_of_calls (record { now = f; failed = false }) served.calls end answered) end.now
        × (IsTrue (view served.it).is_open → (next : Image) → MayBe D.Disk start left next → ∥ HoldsOf next end.now ∥₁)
        × ((next : Image) → MayBe D.Disk start left next → ∥ ((trees : Trees) × HoldsDatabase next trees
        × HaveRowsAfter trees (record { now = f; failed = false }) served.calls end answered) ∥₁) }
    ensures left_shut { (start : Image) (left : Left D D.Disk) (served : ServesShut D.Disk start left) (f : Federation)
        → HoldsOf start f → IsCleanStore D.Disk served.it
        → (end : Standing) × (answered : AreServed (record { now = f; failed = false }) served.calls end)
        × KeepBooksTo f (turns_of_calls (record { now = f; failed = false }) served.calls end answered) end.now
        × ((trees : Trees) → MayComeBack D.Disk left trees
        → HaveRowsAfter trees (record { now = f; failed = false }) served.calls end answered) }
{
    calls_law();
}
