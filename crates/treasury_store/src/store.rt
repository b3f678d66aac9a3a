//! The store of a treasury: a connection whose tables are the rows of a state.

ghost use Rattle.std.specs.Prelude.{◌≡◌, ◌≤◌, ◌⊎◌, ◌↔◌, [], false, None, Some, Err, OnOk, OnErr, IfOk, IfErr};
ghost use Rattle.std.specs.Prelude.{true, MatchResult, IsTrue};
ghost use Rattle.sqlite.specs.State.{IsLive, Survives};
ghost use Rattle.sqlite.specs.Held.{state};
ghost use Rattle.sqlite.specs.Effect.{Database};
ghost use Rattle.sqlite_trees.specs.View.{doubt};
ghost use Rattle.treasury_state.specs.Federation.{Federation};
ghost use Rattle.treasury_state.specs.Good.{IsGoodState};
ghost use Rattle.treasury_state.specs.Joined.{joined};
ghost use Rattle.treasury_state.specs.Rows.{rows};
ghost use Rattle.treasury_tables.specs.Rows.{Tables, HoldsTables, HoldsEither, ShowsTables};
ghost use Rattle.treasury_tables.specs.Kept.{ChangesNothing, KeepsTables, StaysAsIs, IsFaithful};
ghost use Rattle.treasury_tables.specs.Tables.{no_schema, store_schema};
ghost use Rattle.treasury_tables.specs.Creating.{has_one, has_all, has_counter, Beside, SurvivesMaking};
ghost use Rattle.treasury_tables.specs.Opening.{AreOursAlone, IsFirstVersion, IsFirstNumbered, IsSecond};
ghost use Rattle.treasury_tables.specs.Upgrading.{Upgrades, KeepsOurs};
ghost use Rattle.treasury_store.specs.Store.{empty_state, TablesAreWhileOpen, Knows, IsOf, Joins, AnswersStore};
ghost use Rattle.treasury_store.specs.Store.{AnswersState};
ghost use Rattle.treasury_store.specs.Left.{LeavesSame, LeavesEitherVersion, LeavesJoined};

use crate::changes::changes_of;
use crate::numbers::{Numbers, numbers_of};
use book_core::Ledger;
use money_core::Cause;
use sqlite::{Alter, Connection, Error, ErrorCode};
use std::alloc::Global;
use treasury_core::{Delta, State};
use treasury_rows::Build;
use treasury_tables::{cause_of, create_tables, load_parts, open_tables, write_all};

/// A connection whose tables are the rows of a state.
#[derive(Drop)]
pub struct Store<S: Alter> {
    alloc: Global,
    conn: Connection<S>,
    /// What new rows are numbered by, once the state is known.
    numbers: Option<Numbers>,
    /// A call of the database failed.
    failed: bool,
}

/// A connection that became no store, and why.
#[derive(Drop)]
pub struct Refused<S: Alter> {
    pub conn: Connection<S>,
    pub cause: Cause,
}

impl<S: Alter> Store<S> {
    /// A store of the empty state, with tables that are made now.
    ///
    /// It asks that no transaction is open. Where a table has the name of one of ours, but for the case of letters, it
    /// answers 43, and nothing is changed. After 40, and while the connection is open after 41, its tables are as they
    /// were.
    pub fn create(alloc: Global, mut conn: Connection<S>) -> Result<Self, Refused<S>>
        requires { conn.in_transaction ≡ false }
        // Into an empty database.
        ensures made { IfOk result (λ s. (state S.Store conn).now.schema ≡ no_schema → IsOf S.Store s empty_state) }
        // Beside other tables, none of which has AUTOINCREMENT.
        ensures beside { IfOk result (λ s. IsFaithful S.Store s.conn
            → has_counter (state S.Store conn).now.schema ≡ false
            → Beside (state S.Store conn).now (state S.Store s.conn).now) }
        ensures still_open { IfOk result
            (λ s. IsFaithful S.Store s.conn → IsTrue (state S.Store s.conn).is_open) }
        ensures clean { IfOk result (λ s. doubt (state S.Store conn).is_clean ≤ doubt (state S.Store s.conn).is_clean) }
        ensures fresh { IfOk result (λ s. Knows s empty_state × (s.failed ≡ false)) }
        ensures free { IfOk result (λ s. has_one (state S.Store conn).now.schema ≡ false) }
        ensures taken { IsTrue (has_one (state S.Store conn).now.schema)
            → result ≡ Err (record { conn = conn; cause = Cause.Damaged }) }
        ensures refused { IfErr result (λ r.
            ((r.cause ≡ Cause.Damaged) × IsTrue (has_one (state S.Store conn).now.schema))
            ⊎ ((r.cause ≡ Cause.OutOfMemory) ⊎ (r.cause ≡ Cause.Store))) }
        ensures unchanged { IfErr result
            (λ r. IsFaithful S.Store r.conn → IsTrue (state S.Store r.conn).is_open
            → ((state S.Store r.conn).now ≡ (state S.Store conn).now)
            × ((state S.Store r.conn).committed ≡ (state S.Store conn).committed)) }
        // 40 leaves the connection open.
        ensures kept { IfErr result (λ r. r.cause ≡ Cause.OutOfMemory → IsFaithful S.Store r.conn
            → IsTrue (state S.Store r.conn).is_open) }
        ensures crash { MatchResult result (λ s. SurvivesMaking S.Store conn s.conn)
            (λ r. SurvivesMaking S.Store conn r.conn) }
    {
        match create_tables(&mut conn) {
            Ok(true) => Ok(Store {
                alloc,
                conn,
                numbers: Some(Numbers::none(alloc)),
                failed: false,
            }),
            Ok(false) => Err(Refused {
                conn,
                cause: Cause::Damaged,
            }),
            Err(error) => {
                let cause = cause_of(&mut conn, error);
                Err(Refused { conn, cause })
            }
        }
    }

    /// A store of the state whose rows the tables are. Tables of version 1 are made into those of version 2 first, in
    /// one transaction, and hold the same rows then.
    ///
    /// It asks that no transaction is open. Where neither the tables of version 2 with their one row of `format` are
    /// there, nor those of version 1 with theirs and without a table `receipt`, it answers 43.
    pub fn open(alloc: Global, mut conn: Connection<S>) -> Result<Self, Refused<S>>
        requires { conn.in_transaction ≡ false }
        ensures there { IfOk result (λ s. IsFaithful S.Store s.conn → AreOursAlone (state S.Store conn).now.schema
            → IsFirstVersion (state S.Store conn).now ⊎ IsSecond (state S.Store conn).now) }
        ensures tables { IfOk result (λ s. IsTrue (has_all (state S.Store conn).now.schema)) }
        ensures still_open { IfOk result
            (λ s. IsFaithful S.Store s.conn → IsTrue (state S.Store s.conn).is_open) }
        ensures live { IfOk result (λ s. IsLive (state S.Store s.conn)) }
        // Whichever rows the tables held, in either version: they are the store's.
        ensures opened { IfOk result (λ s. (state S.Store conn).committed ≡ (state S.Store conn).now → (t : Tables)
            → HoldsEither (state S.Store conn).now t → TablesAreWhileOpen S.Store s.conn t) }
        ensures first { IfOk result (λ s. IsFaithful S.Store s.conn → IsFirstNumbered (state S.Store conn).now
            → Upgrades (state S.Store conn).now (state S.Store s.conn).now
            × ((state S.Store s.conn).committed ≡ (state S.Store s.conn).now)) }
        ensures same { IfOk result (λ s. IsFaithful S.Store s.conn → AreOursAlone (state S.Store conn).now.schema
            → (IsFirstVersion (state S.Store conn).now → ⊥)
            → ((state S.Store s.conn).now ≡ (state S.Store conn).now)
            × ((state S.Store s.conn).committed ≡ (state S.Store conn).committed)) }
        ensures fresh { IfOk result (λ s. (s.numbers ≡ None) × (s.failed ≡ false)) }
        ensures clean { IfOk result (λ s. doubt (state S.Store conn).is_clean ≤ doubt (state S.Store s.conn).is_clean) }
        ensures none { has_all (state S.Store conn).now.schema ≡ false
            → result ≡ Err (record { conn = conn; cause = Cause.Damaged }) }
        ensures refused { IfErr result (λ r.
            (r.cause ≡ Cause.Damaged) ⊎ ((r.cause ≡ Cause.OutOfMemory) ⊎ (r.cause ≡ Cause.Store))) }
        ensures damaged { IfErr result (λ r. r.cause ≡ Cause.Damaged → IsFaithful S.Store r.conn
            → (AreOursAlone (state S.Store conn).now.schema
            → IsFirstVersion (state S.Store conn).now ⊎ IsSecond (state S.Store conn).now → ⊥)
            × ((state S.Store r.conn).now ≡ (state S.Store conn).now)
            × ((state S.Store r.conn).committed ≡ (state S.Store conn).committed)) }
        // After 40, and while the connection is open after 41, its tables are as they were.
        ensures unchanged { IfErr result
            (λ r. (r.cause ≡ Cause.Damaged → ⊥) → IsFaithful S.Store r.conn
            → IsTrue (state S.Store r.conn).is_open
            → ((state S.Store r.conn).now ≡ (state S.Store conn).now)
            × ((state S.Store r.conn).committed ≡ (state S.Store conn).committed)) }
        // 40 leaves the connection open.
        ensures kept { IfErr result (λ r. r.cause ≡ Cause.OutOfMemory → IsFaithful S.Store r.conn
            → IsTrue (state S.Store r.conn).is_open) }
        ensures crash { MatchResult result (λ s. KeepsOurs S.Store conn s.conn) (λ r. KeepsOurs S.Store conn r.conn) }
        // Whatever is left, also after 41 where the connection is shut, are the rows that were there.
        ensures left { MatchResult result (λ s. LeavesSame S.Store conn s.conn) (λ r. LeavesSame S.Store conn r.conn) }
        // Where they were there as version 1, they are left as version 1 or as version 2.
        ensures left_first { MatchResult result (λ s. LeavesEitherVersion S.Store conn s.conn)
            (λ r. LeavesEitherVersion S.Store conn r.conn) }
    {
        match open_tables(&mut conn) {
            Ok(true) => {
                // What it shows is a database, by this call's contract; so what is left of it can be found again.
                let _ = conn.schema();
                Ok(Store {
                    alloc,
                    conn,
                    numbers: None,
                    failed: false,
                })
            }
            Ok(false) => Err(Refused {
                conn,
                cause: Cause::Damaged,
            }),
            Err(error) => {
                let cause = cause_of(&mut conn, error);
                Err(Refused { conn, cause })
            }
        }
    }

    /// The connection, with its tables as they stand.
    pub fn into_connection(self) -> Connection<S>
        ensures { result ≡ self.conn }
    {
        let Store {
            alloc: _,
            conn,
            numbers: _,
            failed: _,
        } = self;
        conn
    }

    /// Whether a call of the database failed: every later call answers 42.
    pub fn is_closed(&self) -> bool
        ensures { result ≡ self.now.failed }
    {
        self.failed
    }

    /// Refuses by an error of the database. But for want of memory on a connection that is open, the store has failed.
    fn refuse(&mut self, error: Error) -> Cause
        ensures cause { ((result ≡ Cause.OutOfMemory) × (self.new.failed ≡ self.old.failed))
            ⊎ ((result ≡ Cause.Store) × (self.new.failed ≡ true)) }
        ensures memory { result ≡ Cause.OutOfMemory → error ≡ Error.SqliteFailure ErrorCode.OutOfMemory }
        ensures open { result ≡ Cause.OutOfMemory → IsFaithful S.Store self.new.conn
            → IsTrue (state S.Store self.new.conn).is_open }
        ensures numbers { self.new.numbers ≡ self.old.numbers }
        ensures nothing { ChangesNothing S.Store self.old.conn self.new.conn }
    {
        let cause = cause_of(&mut self.conn, error);
        if let Cause::Store = cause {
            self.failed = true;
        }
        cause
    }

    /// The state whose rows the tables are, read from them and nothing else. The store is of it then.
    ///
    /// Where the tables are no state's rows, it answers 43, and after that and 40 the store is as it was. After 41
    /// every later call answers 42, and changes nothing.
    pub fn load<L: Ledger>(&mut self) -> Result<State<L>, Cause>
        // Of whichever good state the tables are the rows, also those that were opened.
        ensures ok { IfOk result (λ s. (f : Federation) → IsGoodState f
            → TablesAreWhileOpen S.Store self.old.conn (rows f)
            → IsOf S.Store self.new s × (IsFaithful S.Store self.new.conn → s ≡ f)) }
        ensures known { IfOk result (λ s. Knows self.new s) }
        ensures good { IfOk result IsGoodState }
        ensures still_open { OnOk result
            (IsFaithful S.Store self.new.conn → IsTrue (state S.Store self.new.conn).is_open) }
        ensures damaged { result ≡ Err Cause.Damaged → IsFaithful S.Store self.new.conn → (f : Federation)
            → IsGoodState f → TablesAreWhileOpen S.Store self.old.conn (rows f) → ⊥ }
        // What is loaded has the rows that our tables show, whatever they are, and 43 says that no such state has them.
        ensures shown { IfOk result (λ s. IsFaithful S.Store self.new.conn
            → (state S.Store self.old.conn).now.schema ≡ store_schema
            → ShowsTables (state S.Store self.old.conn).now (rows s)) }
        ensures unfit { result ≡ Err Cause.Damaged → IsFaithful S.Store self.new.conn → (f : Federation)
            → IsGoodState f → ShowsTables (state S.Store self.old.conn).now (rows f) → ⊥ }
        ensures err { OnErr result ((f : Federation) → IsOf S.Store self.old f → IsOf S.Store self.new f) }
        ensures tables { OnErr result ((t : Tables) → TablesAreWhileOpen S.Store self.old.conn t
            → TablesAreWhileOpen S.Store self.new.conn t) }
        // Whatever is in our tables.
        ensures unchanged { IsFaithful S.Store self.new.conn → IsTrue (state S.Store self.new.conn).is_open
            → StaysAsIs (state S.Store self.old.conn) (state S.Store self.new.conn) }
        ensures unknown { OnErr result (self.new.numbers ≡ self.old.numbers) }
        // A connection that was open is open after each refusal but 41.
        ensures kept { IsFaithful S.Store self.new.conn → IsTrue (state S.Store self.old.conn).is_open
            → IsTrue (state S.Store self.new.conn).is_open ⊎ (result ≡ Err Cause.Store) }
        ensures answers { self.old.failed ≡ false → AnswersState result self.new.failed }
        ensures closed { IsTrue self.old.failed → (result ≡ Err Cause.Closed) × (self.new ≡ self.old) }
        ensures crash { KeepsTables S.Store self.old.conn self.new.conn }
        ensures left { LeavesSame S.Store self.old.conn self.new.conn }
    {
        if self.failed {
            return Err(Cause::Closed);
        }
        let parts = match load_parts(self.alloc, &mut self.conn) {
            Ok(parts) => parts,
            Err(error) => return Err(self.refuse(error)),
        };
        let now = State::build(self.alloc, parts)?;
        now.is_good();
        let numbers = numbers_of(self.alloc, &now)?;
        self.numbers = Some(numbers);
        Ok(now)
    }

    /// Writes what a decided command adds, in one transaction.
    ///
    /// It asks that the store knows a state, and that what is added joins it: the state with it is good, and each
    /// receipt of a part is of a transfer that is there. A store of the one is then of the other, or it answers 40 or
    /// 41 and is of the old one. After 41 every later call answers 42, and changes nothing. What a stop or a crash
    /// leaves are the rows of one of the two.
    pub fn commit(&mut self, delta: &Delta) -> Result<(), Cause>
        requires { (f : Federation) × Knows self.old f × Joins f delta.now }
        ensures ok { OnOk result ((f : Federation) → IsOf S.Store self.old f → Joins f delta.now
            → IsOf S.Store self.new (joined f delta.now)) }
        ensures knows { OnOk result ((f : Federation) → Knows self.old f → Knows self.new (joined f delta.now)) }
        ensures still_open { OnOk result
            (IsFaithful S.Store self.new.conn → IsTrue (state S.Store self.new.conn).is_open) }
        ensures err { OnErr result ((f : Federation) → IsOf S.Store self.old f → IsOf S.Store self.new f) }
        ensures known { OnErr result (self.new.numbers ≡ self.old.numbers) }
        // A connection that was open is open after 40, and so it may be after 41; it has committed nothing then.
        ensures kept { IsFaithful S.Store self.new.conn → IsTrue (state S.Store self.old.conn).is_open
            → IsTrue (state S.Store self.new.conn).is_open ⊎ (result ≡ Err Cause.Store) }
        ensures unchanged { IsFaithful S.Store self.new.conn → IsTrue (state S.Store self.new.conn).is_open
            → OnErr result
            (((state S.Store self.new.conn).now ≡ (state S.Store self.old.conn).now)
            × ((state S.Store self.new.conn).committed ≡ (state S.Store self.old.conn).committed)) }
        ensures answers { self.old.failed ≡ false → AnswersStore result self.new.failed }
        ensures closed { IsTrue self.old.failed → (result ≡ Err Cause.Closed) × (self.new ≡ self.old) }
        ensures crash { Survives (state S.Store self.old.conn) (state S.Store self.new.conn)
            (λ trees. (db : Database) × (trees ≡ db.trees)
            × ((f : Federation) → IsOf S.Store self.old f → Joins f delta.now
            → HoldsTables (state S.Store self.old.conn).now (rows f) → HoldsTables db (rows (joined f delta.now)))) }
        ensures left { LeavesJoined S.Store self.old self.new delta.now }
    {
        if self.failed {
            return Err(Cause::Closed);
        }
        let Some(numbers) = &self.numbers else {
            unreachable!()
        };
        let (changes, numbers) = changes_of(self.alloc, numbers, delta.additions())?;
        match write_all(&mut self.conn, changes.items()) {
            Ok(()) => {
                self.numbers = Some(numbers);
                Ok(())
            }
            Err(error) => Err(self.refuse(error)),
        }
    }
}
