//! Why a call of the database is refused: for want of memory, or because it failed.

ghost use Rattle.std.specs.Prelude.{◌≡◌, ◌⊎◌, IsTrue};
ghost use Rattle.sqlite.specs.Held.{state};
ghost use Rattle.treasury_tables.specs.Kept.{ChangesNothing, IsFaithful};

use money_core::Cause;
use sqlite::{Alter, Connection, Error, ErrorCode};

/// Whether the connection is open, and no transaction is.
///
/// It asks for a text that is no statement. A connection that a fault has shut refuses every text for that; one that is
/// open finds what is wrong with this one, for which it takes no memory and looks at no page.
fn is_open<S: Alter>(conn: &mut Connection<S>) -> bool
    ensures open { IsTrue result → IsFaithful S.Store conn.new → IsTrue (state S.Store conn.new).is_open }
    ensures nothing { ChangesNothing S.Store conn.old conn.new }
{
    // A call that fails undoes a transaction.
    if !conn.is_autocommit() {
        return false;
    }
    let Err(error) = conn.prepare(".") else {
        return true;
    };
    match error {
        Error::SqlInputError(_) => true,
        _ => false,
    }
}

/// The refusal by an error of the database: 40 for want of memory, where the connection is open, else 41.
pub fn cause_of<S: Alter>(conn: &mut Connection<S>, error: Error) -> Cause
    ensures either { (result ≡ Cause.OutOfMemory) ⊎ (result ≡ Cause.Store) }
    // No other error is told as want of memory: a full disk is 41.
    ensures memory { result ≡ Cause.OutOfMemory → error ≡ Error.SqliteFailure ErrorCode.OutOfMemory }
    ensures open { result ≡ Cause.OutOfMemory → IsFaithful S.Store conn.new
        → IsTrue (state S.Store conn.new).is_open }
    ensures nothing { ChangesNothing S.Store conn.old conn.new }
{
    let Error::SqliteFailure(ErrorCode::OutOfMemory) = error else {
        return Cause::Store;
    };
    if is_open(conn) {
        Cause::OutOfMemory
    } else {
        Cause::Store
    }
}
