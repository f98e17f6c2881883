//! Opening a store: the tables are made where there is nothing at all, and then looked at.

ghost use Rattle.std.specs.Prelude.{◌≡◌, ◌⊎◌, false, IfOk};
ghost use Rattle.sqlite.specs.{State.HasCleanDisk, Held.state};
ghost use Rattle.store.specs.{Ranges.IsHome, Kept.Spares, Kept.IsBare, Refusals.no_memory};
ghost use Rattle.store.specs.{Kept.KeepsSome, Opening.MakesBoth, Opening.WasBareOrOurs};
ghost use Rattle.store.specs.Reads.{FindsNoState, FindsNoOther, FindsOther};
ghost use Rattle.store.specs.Opening.{refusal_of, Remains, FindsSound, FindsAgain, FindsFirst};

use crate::fault::OpenFault;
use crate::home::Home;
use crate::loading::{ReadFault, read_all};
use crate::schema::{is_bare_schema, make_tables};
use crate::still_open::{is_harmless, run_nothing};
use sqlite::{Alter, Connection, Error, ErrorCode};
use std::alloc::Global;

/// What a refusal of `sqlite` to open a file means for a desk's store.
///
/// Want of memory is NoMemory. A device that fails or is full, a file that cannot be opened and one
/// that somebody else has open are Device. Any other refusal says that the file is no database, or
/// a damaged one.
pub fn open_fault(error: Error) -> OpenFault
    ensures { result ≡ refusal_of error }
{
    match error {
        Error::SqliteFailure(ErrorCode::OutOfMemory) => OpenFault::NoMemory,
        Error::SqliteFailure(
            ErrorCode::SystemIoFailure
            | ErrorCode::DiskFull
            | ErrorCode::CannotOpen
            | ErrorCode::DatabaseBusy,
        ) => OpenFault::Device,
        _ => OpenFault::Damaged,
    }
}

fn fault_of<S: Alter>(conn: &mut Connection<S>, error: Error) -> OpenFault
    ensures clean { HasCleanDisk (state S.Store conn.new) → HasCleanDisk (state S.Store conn.old) }
    ensures fault { (result ≡ OpenFault.NoMemory) ⊎ (result ≡ OpenFault.Device) }
    ensures memory { result ≡ OpenFault.NoMemory → error ≡ no_memory }
    ensures spares { HasCleanDisk (state S.Store conn.new)
        → Spares (state S.Store conn.old) (state S.Store conn.new) }
{
    if is_harmless(conn, error) {
        OpenFault::NoMemory
    } else {
        OpenFault::Device
    }
}

/// What the two tables have, where they are there: the log's length.
fn examine<S: Alter>(conn: &mut Connection<S>, alloc: Global, home: Home) -> Result<u32, OpenFault>
    ensures clean { HasCleanDisk (state S.Store conn.new) → HasCleanDisk (state S.Store conn.old) }
    ensures found { HasCleanDisk (state S.Store conn.new)
        → IfOk result (FindsSound home (state S.Store conn.new)) }
    ensures before { HasCleanDisk (state S.Store conn.new)
        → IfOk result (λ _. KeepsSome home (state S.Store conn.old)) }
    ensures same { FindsAgain home (state S.Store conn.old) (state S.Store conn.new) result }
    ensures spares { HasCleanDisk (state S.Store conn.new)
        → Spares (state S.Store conn.old) (state S.Store conn.new) }
    ensures damaged { result ≡ Err OpenFault.Damaged
        → FindsNoState (state S.Store conn.old) (state S.Store conn.new) }
    ensures own { result ≡ Err OpenFault.Damaged
        → FindsNoOther home (state S.Store conn.old) (state S.Store conn.new) }
    ensures wrong { result ≡ Err OpenFault.WrongDesk
        → FindsOther home (state S.Store conn.old) (state S.Store conn.new) }
{
    match read_all(conn, alloc, home) {
        Ok((_, log)) => Ok(log.len()),
        Err(ReadFault::WrongDesk) => Err(OpenFault::WrongDesk),
        Err(ReadFault::Damaged) => Err(OpenFault::Damaged),
        Err(ReadFault::Sql(error)) => Err(fault_of(conn, error)),
    }
}

/// Makes the tables in a database that has nothing, and looks at what they have.
fn make_store<S: Alter>(
    conn: &mut Connection<S>,
    alloc: Global,
    home: Home,
) -> Result<u32, OpenFault>
    requires { conn.old.in_transaction ≡ false }
    ensures clean { HasCleanDisk (state S.Store conn.new) → HasCleanDisk (state S.Store conn.old) }
    ensures made { FindsFirst home (state S.Store conn.old) (state S.Store conn.new) result }
    ensures found { HasCleanDisk (state S.Store conn.new)
        → IfOk result (FindsSound home (state S.Store conn.new)) }
    ensures fresh { result ≡ Err OpenFault.Damaged → HasCleanDisk (state S.Store conn.new)
        → IsHome home → ¬ IsBare (state S.Store conn.old) }
    ensures ours { result ≡ Err OpenFault.WrongDesk → HasCleanDisk (state S.Store conn.new)
        → ¬ IsBare (state S.Store conn.old) }
    ensures crash { MakesBoth home (state S.Store conn.old) (state S.Store conn.new) }
{
    match make_tables(conn, home) {
        Ok(()) => examine(conn, alloc, home),
        Err(error) => Err(fault_of(conn, error)),
    }
}

/// Makes the tables where there is nothing at all, and gives the log's length.
pub(crate) fn prepare<S: Alter>(
    conn: &mut Connection<S>,
    alloc: Global,
    home: Home,
) -> Result<u32, OpenFault>
    ensures clean { HasCleanDisk (state S.Store conn.new) → HasCleanDisk (state S.Store conn.old) }
    ensures found { HasCleanDisk (state S.Store conn.new)
        → IfOk result (FindsSound home (state S.Store conn.new)) }
    ensures before { HasCleanDisk (state S.Store conn.new)
        → IfOk result (λ _. WasBareOrOurs home (state S.Store conn.old)) }
    ensures made { (state S.Store conn.old).in_transaction ≡ false
        → FindsFirst home (state S.Store conn.old) (state S.Store conn.new) result }
    ensures same { FindsAgain home (state S.Store conn.old) (state S.Store conn.new) result }
    ensures damaged { result ≡ Err OpenFault.Damaged
        → FindsNoState (state S.Store conn.old) (state S.Store conn.new) }
    ensures own { result ≡ Err OpenFault.Damaged
        → FindsNoOther home (state S.Store conn.old) (state S.Store conn.new) }
    ensures wrong { result ≡ Err OpenFault.WrongDesk
        → FindsOther home (state S.Store conn.old) (state S.Store conn.new) }
    ensures fresh { result ≡ Err OpenFault.Damaged → HasCleanDisk (state S.Store conn.new)
        → IsHome home → (state S.Store conn.old).in_transaction ≡ false
        → ¬ IsBare (state S.Store conn.old) }
    ensures remains { HasCleanDisk (state S.Store conn.new)
        → Remains home (state S.Store conn.old) (state S.Store conn.new) }
{
    // The empty statement takes its memory here, so that a refusal after it, which runs it again,
    // is not taken for the device's for want of that memory. A connection that is shut ends here.
    if let Err(error) = run_nothing(conn) {
        return Err(fault_of(conn, error));
    }
    if is_bare_schema(conn.schema()) && conn.is_autocommit() {
        return make_store(conn, alloc, home);
    }
    examine(conn, alloc, home)
}
