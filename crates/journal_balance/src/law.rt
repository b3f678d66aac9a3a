//! What the entry of a transaction has, in the words of the book.

ghost use Rattle.std.specs.Prelude.{◌≡◌, ◌≤◌, ◌++◌, ℕ, List, Option, Ok, unsigned_abs};
ghost use Rattle.std.specs.List.{AllByRecursion};
ghost use Rattle.money_core.specs.declared.style.Style.{Style};
ghost use Rattle.money_core.specs.Amount.{limit};
ghost use Rattle.money_core.specs.AmountText.{IsDeclared};
ghost use Rattle.book_core.specs.declared.leg.Leg.{Leg as Posted};
ghost use Rattle.book_core.specs.declared.claim.Placed.{Placed as OnLeg};
ghost use Rattle.book_core.specs.declared.entry.Entry.{Entry};
ghost use Rattle.book_core.specs.GoodBook.{IsFit};
ghost use Rattle.journal_format.specs.declared.txn.Txn.{Txn};
ghost use Rattle.journal_format.specs.Printable.{IsPrintable};
ghost use Rattle.journal_balance.specs.Legs.{balanced_entry};
ghost use Rattle.journal_balance.specs.Plain.{IsWritten, written_entry};

use money_core::growth_law;

/// Laws of the entry of a printable transaction: it sums to zero in every commodity, and has its assertions on
/// different legs of its own; each leg is within 10^16; its day is the transaction's; its legs and assertions are of
/// declared commodities, and within the limit of amounts. Costs nothing.
pub fn entry_law()
    ensures fit { (styles : List Style) (t : Txn) (e : Entry) → IsPrintable styles t → balanced_entry styles t ≡ Ok e
        → IsFit e }
    ensures small { (styles : List Style) (t : Txn) (e : Entry) → balanced_entry styles t ≡ Ok e
        → AllByRecursion (λ (x : Posted). unsigned_abs x.qty ≤ limit) e.legs }
    ensures day { (styles : List Style) (t : Txn) (e : Entry) → balanced_entry styles t ≡ Ok e → e.day ≡ t.day }
    ensures declared { (styles : List Style) (t : Txn) (e : Entry) → IsPrintable styles t
        → balanced_entry styles t ≡ Ok e
        → AllByRecursion (λ (x : Posted). IsDeclared styles x.unit x.qty) e.legs }
    ensures asserted { (styles : List Style) (t : Txn) (e : Entry) → IsPrintable styles t
        → balanced_entry styles t ≡ Ok e
        → AllByRecursion (λ (x : OnLeg). IsDeclared styles x.claim.unit x.claim.qty) e.claims }
{}

/// A law of further commodities: when more are declared, a printable transaction keeps its entry, or its fault. Costs
/// nothing.
pub fn entry_growth_law()
    ensures { (styles more : List Style) (t : Txn) → IsPrintable styles t
        → balanced_entry (styles ++ more) t ≡ balanced_entry styles t }
{
    growth_law();
}

/// A law of transactions of which everything is written, amounts without costs that sum to zero: the entry is that of
/// the postings as they stand. Costs nothing.
pub fn written_law()
    ensures { (styles : List Style) (t : Txn) → IsWritten t → balanced_entry styles t ≡ Ok (written_entry t) }
{}

/// A law of marks: the entry of a transaction does not depend on its mark. Costs nothing.
pub fn unmarked_law()
    ensures { (styles : List Style) (t : Txn) (mark : Option (List ℕ))
        → balanced_entry styles (record t { mark = mark }) ≡ balanced_entry styles t }
{}
