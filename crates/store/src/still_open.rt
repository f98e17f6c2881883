//! Whether a connection still answers: it is asked the empty statement.

ghost use Rattle.std.specs.Prelude.{◌≡◌, IsTrue, OnOk};
ghost use Rattle.sqlite.specs.{State.HasCleanDisk, State.IsUnchanged, Held.state};
ghost use Rattle.store.specs.{Kept.Spares, Refusals.no_memory};

use sqlite::{Alter, Connection, Error, ErrorCode};

/// Runs the empty text, which takes no memory once it has run before.
pub fn run_nothing<S: Alter>(conn: &mut Connection<S>) -> Result<(), Error>
    ensures clean { HasCleanDisk (state S.Store conn.new) → HasCleanDisk (state S.Store conn.old) }
    ensures same { HasCleanDisk (state S.Store conn.new)
        → OnOk result (IsUnchanged (state S.Store conn.old) (state S.Store conn.new)) }
    ensures spares { HasCleanDisk (state S.Store conn.new)
        → Spares (state S.Store conn.old) (state S.Store conn.new) }
{
    match conn.execute("", &[]) {
        Ok(_) => Ok(()),
        Err(error) => Err(error),
    }
}

/// Whether the connection still answers.
fn is_open<S: Alter>(conn: &mut Connection<S>) -> bool
    ensures clean { HasCleanDisk (state S.Store conn.new) → HasCleanDisk (state S.Store conn.old) }
    ensures same { HasCleanDisk (state S.Store conn.new)
        → IsTrue result → IsUnchanged (state S.Store conn.old) (state S.Store conn.new) }
    ensures spares { HasCleanDisk (state S.Store conn.new)
        → Spares (state S.Store conn.old) (state S.Store conn.new) }
{
    match run_nothing(conn) {
        Ok(()) => true,
        Err(_) => false,
    }
}

/// Whether the refusal was want of memory alone, and the connection still works.
pub fn is_harmless<S: Alter>(conn: &mut Connection<S>, error: Error) -> bool
    ensures memory { IsTrue result → error ≡ no_memory }
    ensures clean { HasCleanDisk (state S.Store conn.new) → HasCleanDisk (state S.Store conn.old) }
    ensures same { HasCleanDisk (state S.Store conn.new)
        → IsTrue result → IsUnchanged (state S.Store conn.old) (state S.Store conn.new) }
    ensures spares { HasCleanDisk (state S.Store conn.new)
        → Spares (state S.Store conn.old) (state S.Store conn.new) }
{
    match error {
        Error::SqliteFailure(ErrorCode::OutOfMemory) => is_open(conn),
        _ => false,
    }
}
