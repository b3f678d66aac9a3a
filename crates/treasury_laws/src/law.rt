//! What holds of every step and of every run of commands.

ghost use Rattle.std.specs.Prelude.{◌≡◌, ◌≤◌, [], ◌∷◌, ◌++◌, ◌+◌, ◌+ℤ◌, ◌-ℤ◌, ◌≤ℤ◌, int_le, ℕ, pos, Bool, true, false};
ghost use Rattle.std.specs.Prelude.{List, Some, length, None, Result, Ok, Err, IsErr};
ghost use Rattle.std.specs.List.{AllByRecursion};
ghost use Rattle.std.specs.Str.{bytes_eq};
ghost use Rattle.money_core.specs.declared.unit.Unit.{Unit as Commodity};
ghost use Rattle.money_core.specs.declared.day.Day.{Day};
ghost use Rattle.money_core.specs.declared.cause.Cause.TheVariants.{ReservedMark};
ghost use Rattle.book_core.specs.declared.refusal.Failure.{Failure};
ghost use Rattle.book_core.specs.declared.refusal.Refusal.{Refusal};
ghost use Rattle.book_core.specs.declared.refusal.Refusal.TheVariants.{Plain, ClaimFailed};
ghost use Rattle.book_core.specs.declared.account.Reach.{Reach};
ghost use Rattle.book_core.specs.declared.account.Reach.TheVariants.{Own};
ghost use Rattle.book_core.specs.declared.place.Until.TheVariants.{Through};
ghost use Rattle.book_core.specs.Balance.{balance};
ghost use Rattle.book_core.specs.Claim.{IsFirstFailure};
ghost use Rattle.book_core.specs.GoodBook.{IsWithin};
ghost use Rattle.journal_lines.specs.Date.{IsDayNumber};
ghost use Rattle.journal_format.specs.declared.txn.Located.{Located};
ghost use Rattle.journal_format.specs.declared.txn.Txn.{Txn};
ghost use Rattle.journal_format.specs.Pieces.{Reads, posting_limit};
ghost use Rattle.journal_format.specs.CanonicalText.{journal_text};
ghost use Rattle.journal_format.specs.Printable.{FitsText, IsPrintable, located_from};
ghost use Rattle.journal_balance.specs.Legs.{balanced_entry};
ghost use Rattle.journal_balance.specs.Plain.{written_entry};
ghost use Rattle.treasury_state.specs.declared.record.Record.{Record};
ghost use Rattle.treasury_state.specs.Federation.{Federation, has_branch, records_of, lock_of, entries, book_of};
ghost use Rattle.treasury_state.specs.Federation.{is_locked, txns_in};
ghost use Rattle.treasury_state.specs.Mark.{is_held, is_of_transfer, is_closing};
ghost use Rattle.treasury_state.specs.Transfer.{open_amount, AddsUp};
ghost use Rattle.treasury_state.specs.Joined.{joined};
ghost use Rattle.treasury_state.specs.Good.{IsGoodState};
ghost use Rattle.treasury_state.specs.Rows.{rows};
ghost use Rattle.treasury_core.specs.declared.choice.Choice.{Choice};
ghost use Rattle.treasury_core.specs.declared.command.Close.{Close as Closing};
ghost use Rattle.treasury_core.specs.declared.command.Command.{Command};
ghost use Rattle.treasury_core.specs.declared.command.Command.TheVariants.{Enter, Close};
ghost use Rattle.treasury_core.specs.declared.command.Answer.{Answer};
ghost use Rattle.treasury_core.specs.declared.command.Answer.TheVariants.{Done, Entered};
ghost use Rattle.treasury_core.specs.Step.{reply, after, delta, step, new_records, unbalanced, refused_in};
ghost use Rattle.treasury_core.specs.Step.{records_in_file, IsNew};
ghost use Rattle.treasury_core.specs.Fits.{Fits};
ghost use Rattle.treasury_core.specs.Choice.{is_selected, target_in, choice_refusal};
ghost use Rattle.treasury_core.specs.Closing.{selected, held_in, closing_in, closing_record};
ghost use Rattle.treasury_core.specs.Closed.{IsClosing, closed_book};
ghost use Rattle.treasury_core.specs.Run.{Turn, Replies, IsRun, state_after};
ghost use Rattle.treasury_laws.specs.Sound.{EachBalances, EachAssertionHolds, BreaksAssertion};
ghost use Rattle.treasury_laws.specs.History.{history, records_among, IsRefusedOrRepeated, IsOwn, IsOwnJournal};
ghost use Rattle.treasury_laws.specs.History.{AreAmong, HasGrown};
ghost use Rattle.treasury_laws.specs.Headline.{KeepsBooks};

/// A law of steps and runs: the empty state is good, and each leaves a good state good. Costs nothing.
pub fn good_law()
    ensures empty { IsGoodState (record { styles = []; branches = []; transfers = [] }) }
    ensures step { (f : Federation) (c : Command) → IsGoodState f → Fits f.styles c → IsGoodState (step f c).next }
    ensures run { (f : Federation) (turns : List Turn) → IsGoodState f → IsRun f turns
        → IsGoodState (state_after f turns) }
{}

/// A law of good states: in each branch every commodity sums to zero, and every stored assertion holds at its place, in
/// the book as it is. Costs nothing.
pub fn sound_law()
    ensures balanced { (f : Federation) → IsGoodState f → EachBalances f }
    ensures asserted { (f : Federation) → IsGoodState f → EachAssertionHolds f }
{}

/// A law of deltas: the next state is the state with what the command adds, and after a run it is the first state with
/// all that the accepted commands added. Costs nothing.
pub fn joined_law()
    ensures step { (f : Federation) (c : Command) → (step f c).next ≡ joined f (delta f c (reply f c)) }
    ensures run { (f : Federation) (turns : List Turn) → state_after f turns ≡ joined f (history f turns) }
{}

/// A law of refusals and repeats: they leave the state, as does a file of repeats alone. Costs nothing.
pub fn unchanged_law()
    ensures refused { (f : Federation) (c : Command) (r : Result Answer Refusal) → IsRefusedOrRepeated r
        → after f c r ≡ f }
    ensures none_new { (f : Federation) (name : List ℕ) (file : List Located) (repeated : ℕ)
        → reply f (Enter name file) ≡ Ok (Entered 0 repeated) → (step f (Enter name file)).next ≡ f }
{}

/// A law of accepted files: what is counted as new comes into the branch, each transaction under a mark that was not
/// held and is not the product's, without a leg on transit accounts, on a day that is not locked; and each transaction
/// of the file is counted once. Costs nothing.
pub fn entered_law()
    ensures records { (f : Federation) (name : List ℕ) (file : List Located) (new repeated : ℕ)
        → reply f (Enter name file) ≡ Ok (Entered new repeated)
        → records_of (step f (Enter name file)).next name ≡ records_of f name ++ new_records f name file }
    ensures new { (f : Federation) (name : List ℕ) (file : List Located) (new repeated : ℕ)
        → reply f (Enter name file) ≡ Ok (Entered new repeated)
        → AllByRecursion (IsNew (lock_of f name) (records_of f name)) (new_records f name file) }
    ensures counts { (f : Federation) (name : List ℕ) (file : List Located) (new repeated : ℕ)
        → reply f (Enter name file) ≡ Ok (Entered new repeated)
        → (length (new_records f name file) ≡ new) × (new + repeated ≡ length file) }
{}

/// A law of late entries: a file that would break an assertion of the book, or brings one that does not hold, is
/// refused, and nothing changes. Where nothing else is wrong with it, the refusal is 29, and names the first assertion
/// by place that would not hold. Costs nothing.
pub fn late_entry_law()
    ensures refused { (f : Federation) (name : List ℕ) (file : List Located) (r : Result Answer Refusal)
        → BreaksAssertion (book_of f name) (entries (new_records f name file)) → Replies f (Enter name file) r
        → IsErr r × (after f (Enter name file) r ≡ f) }
    ensures named { (f : Federation) (name : List ℕ) (file : List Located)
        → has_branch f name ≡ true → unbalanced f.styles file ≡ None
        → refused_in f.styles (lock_of f name) (records_of f name) (records_in_file f.styles file) ≡ None
        → IsWithin (book_of f name ++ entries (new_records f name file))
        → BreaksAssertion (book_of f name) (entries (new_records f name file))
        → (first : Failure) × ((reply f (Enter name file) ≡ Err (ClaimFailed first))
        × IsFirstFailure (book_of f name ++ entries (new_records f name file)) first) }
{}

/// A law of a branch's own journal: entering its own transactions again, with their marks, finds them all there, also
/// after a lock, and also those of dispatches and receipts. Costs nothing.
pub fn own_journal_law()
    ensures { (f : Federation) (name : List ℕ) (file : List Located) → IsGoodState f → has_branch f name ≡ true
        → IsOwnJournal (records_of f name) file
        → (reply f (Enter name file) ≡ Ok (Entered 0 (length file))) × ((step f (Enter name file)).next ≡ f) }
{}

/// A law of a branch's journal as it is printed: any of its transactions, printed with their marks within the limits of
/// a text, read as themselves, and entering them finds them all there. A text has one list at most, so reading it
/// answers this list or 40. Costs nothing.
pub fn printed_journal_law()
    ensures reads { (f : Federation) (name : List ℕ) (rs : List Record) → IsGoodState f
        → AreAmong (records_of f name) rs → FitsText f.styles (txns_in rs)
        → Reads f.styles (journal_text f.styles (txns_in rs)) (located_from f.styles 1 (txns_in rs)) }
    ensures enters { (f : Federation) (name : List ℕ) (rs : List Record) (file : List Located) → IsGoodState f
        → has_branch f name ≡ true → AreAmong (records_of f name) rs
        → FitsText f.styles (txns_in rs) → Reads f.styles (journal_text f.styles (txns_in rs)) file
        → (reply f (Enter name file) ≡ Ok (Entered 0 (length rs))) × ((step f (Enter name file)).next ≡ f) }
{}

/// A law of a branch's journal in another branch: a transaction of a transfer is refused there with 25, once those
/// before it were not refused; and so is a closing, where the other branch does not hold its mark. Costs nothing.
pub fn other_journal_law()
    ensures transfers { (f : Federation) (from to : List ℕ) (before : List Located) (x : Located) (rest : List Located)
        → IsGoodState f → has_branch f from ≡ true → has_branch f to ≡ true → bytes_eq from to ≡ false
        → IsOwnJournal (records_of f from) (before ++ x ∷ rest)
        → refused_in f.styles (lock_of f to) (records_of f to) (records_in_file f.styles before) ≡ None
        → (own : IsOwn (records_of f from) x) → is_of_transfer own.holder ≡ true
        → reply f (Enter to (before ++ x ∷ rest)) ≡ Err (Plain ReservedMark) }
    ensures closings { (f : Federation) (from to : List ℕ) (before : List Located) (x : Located) (rest : List Located)
        → IsGoodState f → has_branch f to ≡ true → IsOwnJournal (records_of f from) (before ++ x ∷ rest)
        → refused_in f.styles (lock_of f to) (records_of f to) (records_in_file f.styles before) ≡ None
        → (own : IsOwn (records_of f from) x) → is_closing own.holder ≡ true
        → is_held (records_of f to) own.holder.mark ≡ false
        → reply f (Enter to (before ++ x ∷ rest)) ≡ Err (Plain ReservedMark) }
{}

/// A law of runs: a branch's records are its old ones and those that accepted commands added, in order, and each
/// balance has moved by exactly those. Costs nothing.
pub fn records_law()
    ensures records { (f : Federation) (turns : List Turn) (name : List ℕ) → IsRun f turns
        → records_of (state_after f turns) name ≡ records_of f name ++ records_among name (history f turns) }
    ensures moved { (f : Federation) (turns : List Turn) (name : List ℕ) (reach : Reach) (account : List ℕ)
        (unit : Commodity) (day : Day) → IsRun f turns
        → balance reach (book_of (state_after f turns) name) account unit (Through day)
        ≡ balance reach (book_of f name) account unit (Through day)
        +ℤ balance reach (entries (records_among name (history f turns))) account unit (Through day) }
{}

/// A law of runs: commodities, branches and records stay where they are, and only more come after them. Costs nothing.
pub fn growing_law()
    ensures { (f : Federation) (turns : List Turn) → IsRun f turns → HasGrown f (state_after f turns) }
{}

/// A law of locks: a day that is locked stays so, and each balance through it stays what it is. Costs nothing.
pub fn lock_law()
    ensures locked { (f : Federation) (turns : List Turn) (name : List ℕ) (day : Day) → IsRun f turns
        → is_locked (lock_of f name) day ≡ true → is_locked (lock_of (state_after f turns) name) day ≡ true }
    ensures balances { (f : Federation) (turns : List Turn) (name : List ℕ) (day : Day) (reach : Reach)
        (account : List ℕ) (unit : Commodity) → IsRun f turns
        → is_locked (lock_of f name) day ≡ true
        → balance reach (book_of (state_after f turns) name) account unit (Through day)
        ≡ balance reach (book_of f name) account unit (Through day) }
{}

/// A law of good states: for two branches that differ, in every commodity and through every day, the balances of their
/// transit account in the books of both add up to the open amount, which is never negative. Costs nothing.
pub fn transit_law()
    ensures adds_up { (f : Federation) (from to : List ℕ) → IsGoodState f → has_branch f from ≡ true
        → has_branch f to ≡ true → bytes_eq from to ≡ false → AddsUp f from to }
    ensures low { (f : Federation) (from to : List ℕ) (unit : Commodity) (day : Day) → IsGoodState f
        → pos 0 ≤ℤ open_amount f.transfers from to unit day }
{}

/// The headline, a law of runs: from a good state on, every list of commands keeps the books. The state has what the
/// accepted ones added and nothing else; every commodity sums to zero; each balance has moved by exactly the accepted
/// records; transit accounts add up; stored assertions hold; closings moved only the accounts that they name; and what
/// was refused or repeated changed nothing. Costs nothing.
pub fn headline_law()
    ensures { (f : Federation) (turns : List Turn) → IsGoodState f → IsRun f turns → KeepsBooks f turns }
{}

/// A law of rows: two good states with the same rows are equal. Costs nothing.
pub fn rows_law()
    ensures { (f g : Federation) → IsGoodState f → IsGoodState g → rows f ≡ rows g → f ≡ g }
{}

/// A law of closings: what a closing does are the legs and assertions of its postings as they are written. Where its
/// choice is not refused, and within the limit of postings, it can be printed. Costs nothing.
pub fn closing_law()
    ensures entry { (select : List ℕ → Bool) (into : List ℕ) (f : Federation) (name : List ℕ) (day : Day) (t : Txn)
        → IsClosing select into f name day t → balanced_entry f.styles t ≡ Ok (written_entry t) }
    ensures printable { (f : Federation) (name : List ℕ) (day : Day) (c : Choice) (t : Txn) → IsGoodState f
        → IsDayNumber day → choice_refusal c ≡ None
        → closing_in f name day c ≡ Some t → length t.postings ≤ posting_limit → IsPrintable f.styles t }
{}

/// A law of books with their closing: through its day each selected account is at zero in every commodity. Through that
/// day and each later one it has moved by what it held through that day, and the account that gets it by the sum. No
/// other account moves, and none through an earlier day. Costs nothing.
pub fn closed_law()
    ensures closed { (select : List ℕ → Bool) (into : List ℕ) (f : Federation) (name : List ℕ) (day : Day) (t : Txn)
        (account : List ℕ) (unit : Commodity)
        → IsClosing select into f name day t → select account ≡ true
        → balance Own (closed_book f name t) account unit (Through day) ≡ pos 0 }
    ensures moved { (select : List ℕ → Bool) (into : List ℕ) (f : Federation) (name : List ℕ) (day : Day) (t : Txn)
        (account : List ℕ) (unit : Commodity) (later : Day)
        → IsClosing select into f name day t → select account ≡ true → int_le day.0 later.0 ≡ true
        → balance Own (closed_book f name t) account unit (Through later)
        ≡ balance Own (book_of f name) account unit (Through later)
        -ℤ balance Own (book_of f name) account unit (Through day) }
    ensures gained { (select : List ℕ → Bool) (into : List ℕ) (f : Federation) (name : List ℕ) (day : Day) (t : Txn)
        (unit : Commodity) (later : Day)
        → IsClosing select into f name day t → int_le day.0 later.0 ≡ true
        → balance Own (closed_book f name t) into unit (Through later)
        ≡ balance Own (book_of f name) into unit (Through later)
        +ℤ held_in (book_of f name) day unit (selected select (book_of f name)) }
    ensures untouched { (select : List ℕ → Bool) (into : List ℕ) (f : Federation) (name : List ℕ) (day : Day) (t : Txn)
        (account : List ℕ) (unit : Commodity) (on : Day)
        → IsClosing select into f name day t → select account ≡ false → bytes_eq into account ≡ false
        → balance Own (closed_book f name t) account unit (Through on)
        ≡ balance Own (book_of f name) account unit (Through on) }
    ensures before { (select : List ℕ → Bool) (into : List ℕ) (f : Federation) (name : List ℕ) (day : Day) (t : Txn)
        (account : List ℕ) (unit : Commodity) (earlier : Day)
        → IsClosing select into f name day t → int_le day.0 earlier.0 ≡ false
        → balance Own (closed_book f name t) account unit (Through earlier)
        ≡ balance Own (book_of f name) account unit (Through earlier) }
{}

/// A law of accepted closings: the book gets the closing of its branch and nothing else, and is locked through the day.
/// Through that day each account that is selected is at zero in every commodity, and stays so whatever comes later. No
/// balance moves but theirs and that of the target, which is not selected, and nothing in another branch. Costs
/// nothing.
pub fn accepted_closing_law()
    ensures adds { (f : Federation) (x : Closing) → reply f (Close x) ≡ Ok Done
        → (t : Txn) × ((closing_in f x.branch x.day x.choice ≡ Some t)
        × (records_of (step f (Close x)).next x.branch ≡ records_of f x.branch ++ closing_record x.day t ∷ [])) }
    ensures locked { (f : Federation) (x : Closing) → reply f (Close x) ≡ Ok Done
        → lock_of (step f (Close x)).next x.branch ≡ Some x.day }
    ensures apart { (f : Federation) (x : Closing) → reply f (Close x) ≡ Ok Done
        → is_selected x.choice.accounts (target_in x.choice.into) ≡ false }
    ensures zero { (f : Federation) (x : Closing) (account : List ℕ) (unit : Commodity) → IsGoodState f
        → reply f (Close x) ≡ Ok Done → is_selected x.choice.accounts account ≡ true
        → balance Own (book_of (step f (Close x)).next x.branch) account unit (Through x.day) ≡ pos 0 }
    ensures stays { (f : Federation) (x : Closing) (turns : List Turn) (account : List ℕ) (unit : Commodity)
        → IsGoodState f
        → reply f (Close x) ≡ Ok Done → IsRun (step f (Close x)).next turns
        → is_selected x.choice.accounts account ≡ true
        → balance Own (book_of (state_after (step f (Close x)).next turns) x.branch) account unit (Through x.day)
        ≡ pos 0 }
    ensures untouched { (f : Federation) (x : Closing) (account : List ℕ) (unit : Commodity) (on : Day) → IsGoodState f
        → reply f (Close x) ≡ Ok Done → is_selected x.choice.accounts account ≡ false
        → bytes_eq (target_in x.choice.into) account ≡ false
        → balance Own (book_of (step f (Close x)).next x.branch) account unit (Through on)
        ≡ balance Own (book_of f x.branch) account unit (Through on) }
    ensures elsewhere { (f : Federation) (x : Closing) (other : List ℕ) → reply f (Close x) ≡ Ok Done
        → bytes_eq x.branch other ≡ false
        → (records_of (step f (Close x)).next other ≡ records_of f other)
        × (lock_of (step f (Close x)).next other ≡ lock_of f other) }
{}
