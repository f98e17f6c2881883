//! What the two tables have: the row of the desk, and then the log.

ghost use Rattle.std.specs.Prelude.{◌≡◌, ◌≢◌, [], ◌∷◌, IfOk, IfSome, OnOk, None, length};
ghost use Rattle.sqlite.specs.{State.HasCleanDisk, State.IsUnchanged, Held.state};
ghost use Rattle.store.specs.{Ranges.IsHome, Ranges.IsFit, Ranges.StoredIsFit, Whole.LogIsWhole};
ghost use Rattle.store.specs.{Whole.IsWhole, Refusals.NamesWant, Refusals.ReadNamesWant};
ghost use Rattle.store.specs.{Whole.IsSound, Kept.Keeps, Kept.HasDesk, Kept.HasNoDesk, Kept.Spares};
ghost use Rattle.store.specs.Reads.{GivesDesk, GivesLog, FindsNoDesk, FindsNoLog, StaysAsItWas};
ghost use Rattle.store.specs.Reads.{SparesOurs, FindsNoState, FindsNoOther, FindsOther};

use crate::home::Home;
use crate::ranges::is_fit;
use crate::reading::{desk_rows, log_rows};
use crate::row_values::{desk_of, log_of};
use crate::schema::is_ours;
use acceptor::stored::Stored;
use learner::log::Log;
use sqlite::{Alter, Connection, Error, ErrorCode, Row};
use std::alloc::{AllocError, Global};

/// Why a read was refused.
#[derive(Clone, Copy, Debug, PartialEq, Eq)]
pub enum ReadFault {
    Sql(Error),
    Damaged,
    WrongDesk,
}

const NO_MEMORY: ReadFault = ReadFault::Sql(Error::SqliteFailure(ErrorCode::OutOfMemory));

#[tactic(auto, using(crate::proofs::Decoding::single))]
fn only_row(rows: &[Row]) -> Option<&Row>
    ensures none { result ≡ None → length rows.now ≢ 1 }
    ensures some { IfSome result (λ row. rows.now ≡ row.now ∷ []) }
{
    match rows {
        [row] => Some(row),
        _ => None,
    }
}

/// The one row of `desk`.
fn read_desk<S: Alter>(conn: &mut Connection<S>, alloc: Global) -> Result<(Home, Stored), ReadFault>
    ensures clean { HasCleanDisk (state S.Store conn.new) → HasCleanDisk (state S.Store conn.old) }
    ensures damaged { result ≡ Err ReadFault.Damaged
        → FindsNoDesk (state S.Store conn.old) (state S.Store conn.new) }
    ensures own_desk { result ≢ Err ReadFault.WrongDesk }
    ensures found { GivesDesk (state S.Store conn.old) (state S.Store conn.new) result }
    ensures whole { IfOk result (λ r. IsWhole r.0 r.1) }
    ensures same { StaysAsItWas (state S.Store conn.old) (state S.Store conn.new) result }
    ensures spares { SparesOurs (state S.Store conn.old) (state S.Store conn.new) }
    ensures memory { NamesWant (state S.Store conn.old) (state S.Store conn.new) result }
{
    let rows = match desk_rows(conn) {
        Ok(rows) => rows,
        Err(error) => return Err(ReadFault::Sql(error)),
    };
    match only_row(rows.as_slice()) {
        Some(row) => match desk_of(alloc, row) {
            Ok(Some(desk)) => Ok(desk),
            Ok(None) => Err(ReadFault::Damaged),
            Err(AllocError) => Err(NO_MEMORY),
        },
        None => Err(ReadFault::Damaged),
    }
}

/// The rows of `entries`.
fn read_log<S: Alter>(conn: &mut Connection<S>, alloc: Global) -> Result<Log, ReadFault>
    ensures clean { HasCleanDisk (state S.Store conn.new) → HasCleanDisk (state S.Store conn.old) }
    ensures damaged { result ≡ Err ReadFault.Damaged
        → FindsNoLog (state S.Store conn.old) (state S.Store conn.new) }
    ensures own_desk { result ≢ Err ReadFault.WrongDesk }
    ensures found { GivesLog (state S.Store conn.old) (state S.Store conn.new) result }
    ensures whole { IfOk result (λ log. LogIsWhole log.entries) }
    ensures same { StaysAsItWas (state S.Store conn.old) (state S.Store conn.new) result }
    ensures spares { SparesOurs (state S.Store conn.old) (state S.Store conn.new) }
    ensures memory { NamesWant (state S.Store conn.old) (state S.Store conn.new) result }
{
    let rows = match log_rows(conn) {
        Ok(rows) => rows,
        Err(error) => return Err(ReadFault::Sql(error)),
    };
    match log_of(alloc, rows.as_slice()) {
        Ok(Some(log)) => Ok(log),
        Ok(None) => Err(ReadFault::Damaged),
        Err(AllocError) => Err(NO_MEMORY),
    }
}

/// The state of the desk, where the tables are there and the row is whole, in its ranges, and of
/// this desk.
fn read_home<S: Alter>(
    conn: &mut Connection<S>,
    alloc: Global,
    home: Home,
) -> Result<Stored, ReadFault>
    ensures clean { HasCleanDisk (state S.Store conn.new) → HasCleanDisk (state S.Store conn.old) }
    ensures found { HasCleanDisk (state S.Store conn.new)
        → IfOk result (λ s. HasDesk home s (state S.Store conn.old)) }
    ensures in_range { IfOk result (λ s. StoredIsFit home.desks s) }
    ensures whole { IfOk result (λ s. IsWhole home s) }
    ensures place { IfOk result (λ _. IsHome home) }
    ensures same { HasCleanDisk (state S.Store conn.new)
        → OnOk result (IsUnchanged (state S.Store conn.old) (state S.Store conn.new)) }
    ensures spares { HasCleanDisk (state S.Store conn.new)
        → Spares (state S.Store conn.old) (state S.Store conn.new) }
    ensures damaged { result ≡ Err ReadFault.Damaged → HasCleanDisk (state S.Store conn.new)
        → HasNoDesk (state S.Store conn.old) }
    ensures wrong { result ≡ Err ReadFault.WrongDesk
        → FindsOther home (state S.Store conn.old) (state S.Store conn.new) }
    ensures memory { NamesWant (state S.Store conn.old) (state S.Store conn.new) result }
{
    if !is_ours(conn.schema()) || !conn.is_autocommit() {
        return Err(ReadFault::Damaged);
    }
    let (found, stored) = match read_desk(conn, alloc) {
        Ok(desk) => desk,
        Err(fault) => return Err(fault),
    };
    if !found.is_valid() || !is_fit(found.desks, &stored) {
        return Err(ReadFault::Damaged);
    }
    if found != home {
        return Err(ReadFault::WrongDesk);
    }
    Ok(stored)
}

/// The state and the log of this desk, where the tables are there, whole and in their ranges.
pub fn read_all<S: Alter>(
    conn: &mut Connection<S>,
    alloc: Global,
    home: Home,
) -> Result<(Stored, Log), ReadFault>
    ensures clean { HasCleanDisk (state S.Store conn.new) → HasCleanDisk (state S.Store conn.old) }
    ensures found { HasCleanDisk (state S.Store conn.new)
        → IfOk result (λ r. Keeps home r.0 r.1.entries (state S.Store conn.new)) }
    ensures before { HasCleanDisk (state S.Store conn.new)
        → IfOk result (λ r. Keeps home r.0 r.1.entries (state S.Store conn.old)) }
    ensures in_range { IfOk result (λ r. IsFit home.desks r.0 r.1.entries) }
    ensures sound { IfOk result (λ r. IsSound home r.0 r.1.entries) }
    ensures spares { HasCleanDisk (state S.Store conn.new)
        → Spares (state S.Store conn.old) (state S.Store conn.new) }
    ensures damaged { result ≡ Err ReadFault.Damaged
        → FindsNoState (state S.Store conn.old) (state S.Store conn.new) }
    ensures own { result ≡ Err ReadFault.Damaged
        → FindsNoOther home (state S.Store conn.old) (state S.Store conn.new) }
    ensures wrong { result ≡ Err ReadFault.WrongDesk
        → FindsOther home (state S.Store conn.old) (state S.Store conn.new) }
    ensures memory { ReadNamesWant (state S.Store) conn.old conn.new result }
{
    let stored = match read_home(conn, alloc, home) {
        Ok(stored) => stored,
        Err(fault) => return Err(fault),
    };
    match read_log(conn, alloc) {
        Ok(log) => {
            // The contract of `len` says that a log is no longer than its range asks.
            let _len = log.len();
            Ok((stored, log))
        }
        Err(fault) => Err(fault),
    }
}
