//! A treasury: a store, with its state in memory.

ghost use Rattle.std.specs.Prelude.{◌≡◌, ◌⊎◌, [], false, Some, None, Err, Ok, OnOk, OnErr, IfOk, IfErr, IfSome, IsSome};
ghost use Rattle.std.specs.Prelude.{IsOk, IsTrue, MatchOption, MatchResult};
ghost use Rattle.sqlite.specs.State.{Survives};
ghost use Rattle.sqlite.specs.Held.{state};
ghost use Rattle.sqlite.specs.Effect.{Database};
ghost use Rattle.treasury_state.specs.Federation.{Federation};
ghost use Rattle.treasury_state.specs.Good.{IsGoodState};
ghost use Rattle.treasury_state.specs.Joined.{joined};
ghost use Rattle.treasury_state.specs.Rows.{rows};
ghost use Rattle.treasury_core.specs.Fits.{Fits};
ghost use Rattle.treasury_core.specs.Step.{step};
ghost use Rattle.treasury_core.specs.Run.{Replies, state_after};
ghost use Rattle.treasury_laws.specs.Headline.{KeepsBooks};
ghost use Rattle.treasury_tables.specs.Tables.{store_schema};
ghost use Rattle.treasury_tables.specs.Rows.{HoldsTables, AreTreesOf, Tables, ShowsTables};
ghost use Rattle.treasury_tables.specs.Kept.{KeepsTables, StaysAsIs, IsFaithful};
ghost use Rattle.treasury_store.specs.Shown.{ShowsNoState};
ghost use Rattle.treasury_store.specs.Store.{TablesAreWhileOpen, Knows, IsOf, Joins, AnswersStore, AnswersState};
ghost use Rattle.treasury_store.specs.Store.{FailsAs};
ghost use Rattle.treasury_store.specs.Treasury.{WhileOf, IsTreasuryOf, RepliesOrFails, Performs, PerformsIfFits};
ghost use Rattle.treasury_store.specs.Treasury.{turn_if};
ghost use Rattle.treasury_store.specs.Treasury.{AddsNothing, FailsBy, RepliesInAnyCase, KeepsConnection, IsUnfit};
ghost use Rattle.treasury_store.specs.Left.{LeavesSame, LeavesCommand};

use crate::store::Store;
use book_core::{DayLedger, Refusal};
use money_core::Cause;
use sqlite::Alter;
use std::alloc::Global;
use std::marker::Model;
use treasury_core::{Answer, Command, Delta, State, apply, decide};

/// A store, with the state that it is of in memory.
#[derive(Drop)]
pub struct Treasury<S: Alter> {
    alloc: Global,
    store: Store<S>,
    /// The state, while memory holds it.
    held: Option<State<DayLedger>>,
}

/// A store on which no treasury was started, and why.
#[derive(Drop)]
pub struct Unstarted<S: Alter> {
    pub store: Store<S>,
    pub cause: Cause,
}

impl<S: Alter> Model for Treasury<S> {
    ghost use Rattle.std.specs.Prelude.{IfSome};
    ghost use Rattle.std.specs.Coded.{codes};
    ghost use Rattle.sqlite.specs.Held.{held_code};
    ghost use Rattle.treasury_state.specs.Federation.{Federation};
    ghost use Rattle.treasury_store.specs.Store.{Knows};
    ghost use Rattle.treasury_store.specs.Treasury.{Treasury as Known};

    ghost Value = { Known S };

    ghost coded = { Prim.hlevel (codes, held_code S.code) };

    ghost view = { λ t. record { store = t.store; held = t.held } };

    ghost invariant = { λ t. IfSome t.held (λ (s : Federation). Knows t.store s) };
}

impl<S: Alter> Treasury<S> {
    /// A treasury of the state whose rows the tables of the store are. It holds that state in memory.
    ///
    /// Where the tables are no state's rows, it answers 43, and 40 to 42 as `Store::load`; the store is handed back.
    pub fn start(alloc: Global, mut store: Store<S>) -> Result<Self, Unstarted<S>>
        ensures of { IfOk result (λ t. IsFaithful S.Store t.store.conn → (f : Federation) → IsGoodState f
            → TablesAreWhileOpen S.Store store.conn (rows f) → IsTreasuryOf S.Store t f) }
        ensures held { IfOk result (λ t. IsSome t.held) }
        ensures open { IfOk result (λ t. t.store.failed ≡ false) }
        ensures damaged { IfErr result (λ r. r.cause ≡ Cause.Damaged → IsFaithful S.Store r.store.conn
            → (f : Federation) → IsGoodState f → TablesAreWhileOpen S.Store store.conn (rows f) → ⊥) }
        ensures back { IfErr result (λ r. (f : Federation) → IsOf S.Store store f → IsOf S.Store r.store f) }
        ensures closed { IsTrue store.failed → result ≡ Err (record { store = store; cause = Cause.Closed }) }
        // 40, 41 and 43, and the store is shut after 41 alone.
        ensures causes { store.failed ≡ false → IfErr result (λ r. FailsAs r.cause r.store.failed) }
        // The tables of the store that is handed back are as they stand.
        ensures tables { IfErr result (λ r. (t : Tables) → TablesAreWhileOpen S.Store store.conn t
            → TablesAreWhileOpen S.Store r.store.conn t) }
        ensures still_open { IfOk result
            (λ t. IsFaithful S.Store t.store.conn → IsTrue (state S.Store t.store.conn).is_open) }
        // A connection that was open is open after each refusal but 41.
        ensures open_but { IfErr result (λ r. IsFaithful S.Store r.store.conn
            → IsTrue (state S.Store store.conn).is_open
            → IsTrue (state S.Store r.store.conn).is_open ⊎ (r.cause ≡ Cause.Store)) }
        // Our tables show the rows of the good state that it holds; where they show none, it is refused.
        ensures shown { IfOk result (λ t. IsFaithful S.Store t.store.conn
            → (state S.Store store.conn).now.schema ≡ store_schema
            → IfSome t.held (λ s. IsGoodState s × ShowsTables (state S.Store store.conn).now (rows s))) }
        ensures unchanged { IfErr result
            (λ r. IsFaithful S.Store r.store.conn → IsTrue (state S.Store r.store.conn).is_open
            → StaysAsIs (state S.Store store.conn) (state S.Store r.store.conn)) }
        ensures kept { IfOk result (λ t. IsFaithful S.Store t.store.conn
            → StaysAsIs (state S.Store store.conn) (state S.Store t.store.conn)) }
        ensures crash { MatchResult result (λ t. KeepsTables S.Store store.conn t.store.conn)
            (λ r. KeepsTables S.Store store.conn r.store.conn) }
        ensures left { MatchResult result (λ t. LeavesSame S.Store store.conn t.store.conn)
            (λ r. LeavesSame S.Store store.conn r.store.conn) }
    {
        match store.load() {
            Ok(now) => Ok(Treasury {
                alloc,
                store,
                held: Some(now),
            }),
            Err(cause) => Err(Unstarted { store, cause }),
        }
    }

    /// The store, with its tables as they stand.
    pub fn into_store(self) -> Store<S>
        ensures { result ≡ self.store }
    {
        let Treasury {
            alloc: _,
            store,
            held: _,
        } = self;
        store
    }

    /// The state, while memory holds it.
    pub fn state(&self) -> Option<&State<DayLedger>>
        ensures { MatchOption result (self.now.held ≡ None) (λ s. self.now.held ≡ Some s.now) }
    {
        self.held.as_ref()
    }

    /// Loads the state, where memory does not hold it.
    ///
    /// Where the tables are no state's rows, it answers 43, and 40 to 42 as `Store::load`.
    pub fn hold(&mut self) -> Result<(), Cause>
        ensures held { OnOk result (IsSome self.new.held) }
        ensures of { IsFaithful S.Store self.new.store.conn → (f : Federation)
            → IsTreasuryOf S.Store self.old f → IsTreasuryOf S.Store self.new f }
        ensures same { IsSome self.old.held → (self.new ≡ self.old) × (self.old.store.failed ≡ false → IsOk result) }
        ensures damaged { result ≡ Err Cause.Damaged → IsFaithful S.Store self.new.store.conn
            → (f : Federation) → IsTreasuryOf S.Store self.old f → ⊥ }
        ensures answers { self.old.store.failed ≡ false → AnswersState result self.new.store.failed }
        ensures closed { IsTrue self.old.store.failed → (result ≡ Err Cause.Closed) × (self.new ≡ self.old) }
        ensures still_open { IsFaithful S.Store self.new.store.conn
            → IsTrue (state S.Store self.old.store.conn).is_open
            → OnOk result (IsTrue (state S.Store self.new.store.conn).is_open) }
        // A connection that was open is open after each answer but 41.
        ensures kept { IsFaithful S.Store self.new.store.conn
            → IsTrue (state S.Store self.old.store.conn).is_open
            → IsTrue (state S.Store self.new.store.conn).is_open ⊎ (result ≡ Err Cause.Store) }
        ensures clean { IsFaithful S.Store self.new.store.conn
            → IsFaithful S.Store self.old.store.conn }
        ensures rows { OnOk result (IsFaithful S.Store self.new.store.conn → (f : Federation)
            → IsTreasuryOf S.Store self.old f → HoldsTables (state S.Store self.old.store.conn).now (rows f)
            → HoldsTables (state S.Store self.new.store.conn).now (rows f)) }
        ensures shown { OnOk result (IsFaithful S.Store self.new.store.conn → self.old.held ≡ None
            → ShowsNoState (state S.Store self.old.store.conn).now → ⊥) }
        ensures unchanged { IsFaithful S.Store self.new.store.conn
            → IsTrue (state S.Store self.new.store.conn).is_open
            → StaysAsIs (state S.Store self.old.store.conn) (state S.Store self.new.store.conn) }
        ensures crash { KeepsTables S.Store self.old.store.conn self.new.store.conn }
        ensures left { LeavesSame S.Store self.old.store.conn self.new.store.conn }
    {
        if self.store.is_closed() {
            return Err(Cause::Closed);
        }
        if self.held.is_some() {
            return Ok(());
        }
        match self.store.load() {
            Ok(now) => {
                self.held = Some(now);
                Ok(())
            }
            Err(cause) => Err(cause),
        }
    }

    /// Writes what a command adds to the state, and holds the state with it.
    fn write(&mut self, now: State<DayLedger>, delta: Delta) -> Result<(), Cause>
        requires good { Joins now delta }
        requires known { Knows self.old.store now }
        ensures ok { OnOk result (IsOf S.Store self.old.store now → IsOf S.Store self.new.store (joined now delta)) }
        ensures ok_held { OnOk result (IfSome self.new.held (λ s. s ≡ joined now delta)) }
        ensures err { OnErr result (IsOf S.Store self.old.store now → IsOf S.Store self.new.store now) }
        ensures err_held { OnErr result (self.new.held ≡ Some now) }
        ensures nothing { delta ≡ [] → IsOk result × (self.new ≡ record { store = self.old.store; held = Some now }) }
        ensures answers { self.old.store.failed ≡ false → AnswersStore result self.new.store.failed }
        ensures still_open { IsFaithful S.Store self.new.store.conn
            → IsTrue (state S.Store self.old.store.conn).is_open
            → OnOk result (IsTrue (state S.Store self.new.store.conn).is_open) }
        ensures kept { IsFaithful S.Store self.new.store.conn
            → IsTrue (state S.Store self.old.store.conn).is_open
            → IsTrue (state S.Store self.new.store.conn).is_open ⊎ (result ≡ Err Cause.Store) }
        ensures clean { IsFaithful S.Store self.new.store.conn
            → IsFaithful S.Store self.old.store.conn }
        ensures crash { Survives (state S.Store self.old.store.conn) (state S.Store self.new.store.conn)
            (λ trees. IsOf S.Store self.old.store now → HoldsTables (state S.Store self.old.store.conn).now (rows now)
            → AreTreesOf trees (rows (joined now delta))) }
    {
        if delta.additions().is_empty() {
            self.held = Some(now);
            return Ok(());
        }
        match self.store.commit(&delta) {
            Ok(()) => {
                self.held = apply(self.alloc, now, delta).ok();
                Ok(())
            }
            Err(cause) => {
                self.held = Some(now);
                Err(cause)
            }
        }
    }

    /// Decides a command on the state, and writes what it adds.
    fn settle(&mut self, now: State<DayLedger>, command: &Command) -> Result<Answer, Refusal>
        requires fits { Fits now.styles command.now }
        requires known { Knows self.old.store now }
        ensures performs { IsOf S.Store self.old.store now → self.old.store.failed ≡ false
            → Performs S.Store self.new now command.now result }
        ensures fails { self.old.store.failed ≡ false → FailsBy result self.new.store.failed }
        ensures replies { self.old.store.failed ≡ false → RepliesOrFails now command.now result }
        ensures nothing { AddsNothing now command.now
            → Replies now command.now result × (self.new ≡ record { store = self.old.store; held = Some now }) }
        ensures still_open { IsFaithful S.Store self.new.store.conn
            → IsTrue (state S.Store self.old.store.conn).is_open
            → OnOk result (IsTrue (state S.Store self.new.store.conn).is_open) }
        ensures kept { IsFaithful S.Store self.new.store.conn
            → IsTrue (state S.Store self.old.store.conn).is_open
            → IsTrue (state S.Store self.new.store.conn).is_open ⊎ (result ≡ Err (Refusal.Plain Cause.Store)) }
        ensures clean { IsFaithful S.Store self.new.store.conn
            → IsFaithful S.Store self.old.store.conn }
        ensures crash { Survives (state S.Store self.old.store.conn) (state S.Store self.new.store.conn)
            (λ trees. IsOf S.Store self.old.store now → HoldsTables (state S.Store self.old.store.conn).now (rows now)
            → AreTreesOf trees (rows (step now command.now).next)) }
    {
        match decide(self.alloc, &now, command) {
            Ok((answer, delta)) => match self.write(now, delta) {
                Ok(()) => Ok(answer),
                Err(cause) => Err(Refusal::Plain(cause)),
            },
            Err(refusal) => {
                self.held = Some(now);
                Err(refusal)
            }
        }
    }

    /// Performs a command: it decides it, writes what it adds in one transaction, and holds the state after it.
    ///
    /// It asks that the command fits the state in memory; where the state has to be loaded first, a command that does
    /// not fit it is answered 43. A command that is refused, or that adds nothing, writes nothing. After 40 and 41 the
    /// tables are as before; after 41 every later call answers 42. Where memory cannot hold the next state it is given
    /// up, and the next call loads it.
    pub fn perform(&mut self, command: Command) -> Result<Answer, Refusal>
        requires { IfSome self.old.held (λ s. Fits s.styles command) }
        // Of whichever state the treasury is: a turn of a run, if the command fits that state.
        ensures of { WhileOf S.Store self.old self.new (λ f. PerformsIfFits S.Store self.new f command result) }
        // The headline, of this one command; one that is answered 41 is none.
        ensures headline { WhileOf S.Store self.old self.new (λ f. Fits f.styles command
            → KeepsBooks f (turn_if command result)
            × IsTreasuryOf S.Store self.new (state_after f (turn_if command result))) }
        // A command that adds nothing to the state in memory is answered as the step says, or 40, and nothing changes.
        ensures nothing { self.old.store.failed ≡ false
            → IfSome self.old.held (λ s. AddsNothing s command → Replies s command result × (self.new ≡ self.old)) }
        // Whatever the disk returned, and whatever the tables are.
        ensures replies { self.old.store.failed ≡ false → RepliesInAnyCase self.old self.new command result }
        ensures closed { IsTrue self.old.store.failed
            → (result ≡ Err (Refusal.Plain Cause.Closed)) × (self.new ≡ self.old) }
        // A connection that was open is open after each answer but 41, and only a fault of the disk shuts it.
        ensures connection { KeepsConnection S.Store self.old.store.conn self.new.store.conn result }
        // Whatever is left, also after 41 where the connection is shut: the rows of the state before the command or
        // after it.
        ensures leaves { LeavesCommand S.Store self.old self.new command }
        // On tables that are no good state's: 43, or 40 or 41, and nothing is written.
        ensures strange { IsFaithful S.Store self.new.store.conn → self.old.store.failed ≡ false
            → self.old.held ≡ None → ShowsNoState (state S.Store self.old.store.conn).now
            → IsUnfit result × (IsTrue (state S.Store self.new.store.conn).is_open
            → StaysAsIs (state S.Store self.old.store.conn) (state S.Store self.new.store.conn)) }
    {
        let was_held = self.held.is_some();
        match self.hold() {
            Ok(()) => {}
            Err(cause) => return Err(Refusal::Plain(cause)),
        }
        let Some(now) = self.held.take() else {
            unreachable!()
        };
        if !was_held && !command.fits(now.styles()) {
            self.held = Some(now);
            return Err(Refusal::Plain(Cause::Damaged));
        }
        self.settle(now, &command)
    }
}
