//! The two queries that read a store.

ghost use Rattle.sqlite.specs.{State.HasCleanDisk, Held.state};
ghost use Rattle.store.specs.Reads.{GivesDeskRows, GivesLogRows, GivesInOrder, StaysAsItWas};
ghost use Rattle.store.specs.{Reads.SparesOurs, Refusals.NamesAnswer};

use sqlite::{Alter, Connection, Error, Row};

/// The rows of `desk`, in some order.
pub fn desk_rows<S: Alter>(conn: &mut Connection<S>) -> Result<Vec<Row>, Error>
    ensures clean { HasCleanDisk (state S.Store conn.new) → HasCleanDisk (state S.Store conn.old) }
    ensures rows { GivesDeskRows (state S.Store conn.old) (state S.Store conn.new) result }
    ensures same { StaysAsItWas (state S.Store conn.old) (state S.Store conn.new) result }
    ensures spares { SparesOurs (state S.Store conn.old) (state S.Store conn.new) }
    ensures asked { NamesAnswer (state S.Store conn.old) (state S.Store conn.new) result }
{
    conn.query_all(
        "SELECT k, hall, number, desks, promised_round, promised_desk, tried, vote_pos, \
         vote_round, vote_desk, vote_id, vote_body FROM desk",
        &[],
    )
}

/// The rows of `entries`, in order of their positions.
pub fn log_rows<S: Alter>(conn: &mut Connection<S>) -> Result<Vec<Row>, Error>
    ensures clean { HasCleanDisk (state S.Store conn.new) → HasCleanDisk (state S.Store conn.old) }
    ensures rows { GivesLogRows (state S.Store conn.old) (state S.Store conn.new) result }
    ensures sorted { GivesInOrder (state S.Store conn.old) (state S.Store conn.new) result }
    ensures same { StaysAsItWas (state S.Store conn.old) (state S.Store conn.new) result }
    ensures spares { SparesOurs (state S.Store conn.old) (state S.Store conn.new) }
    ensures asked { NamesAnswer (state S.Store conn.old) (state S.Store conn.new) result }
{
    conn.query_all("SELECT pos, id, body FROM entries ORDER BY pos", &[])
}
