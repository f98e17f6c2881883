//! A desk's file, made under another name and renamed once it is whole.

ghost use Rattle.std.specs.Prelude.{OnOk};
ghost use Rattle.sqlite.specs.WalFiles.{image_at};
ghost use Rattle.store.specs.Ranges.{IsHome};
ghost use Rattle.desk_file.specs.Uses.{IsMade};

use crate::opening::make_keeper;
use crate::uses::close_whole;
use sqlite::{FileFrom, FileStore, Start};
use sqlite_disk::Disk;
use std::io::ErrorKind;
use std::path::PathBuf;
use std::{fs, io};
use store::fault::OpenFault;
use store::home::Home;
use store::keeper::Keeper;
use store::sql::SqlKeeper;

/// The path of what is beside a file under its name with an ending.
fn beside(rt: &HostRuntime, path: &str, ending: &str) -> Result<String, OpenFault> {
    match format!(in rt.alloc(); "{path}{ending}") {
        Ok(text) => Ok(text),
        Err(_) => Err(OpenFault::NoMemory),
    }
}

/// Takes a file away, where it is there.
fn take_away(rt: &HostRuntime, path: &str) -> Result<(), OpenFault> {
    match fs::remove_file(rt, path) {
        Ok(()) => Ok(()),
        Err(error) if error.kind() == ErrorKind::NotFound => Ok(()),
        Err(_) => Err(OpenFault::Device),
    }
}

/// Whether a file is there and has something in it.
fn has_bytes(rt: &HostRuntime, path: &str) -> Result<bool, OpenFault> {
    match fs::metadata(rt, path) {
        Ok(data) => Ok(data.len() > 0),
        Err(error) if error.kind() == ErrorKind::NotFound => Ok(false),
        Err(_) => Err(OpenFault::Device),
    }
}

/// The path where a file is, or is to be: where a link leads that is there.
fn place_of(rt: &HostRuntime, path: &str) -> io::Result<PathBuf> {
    match fs::canonicalize(rt, path) {
        Err(error) if error.kind() == ErrorKind::NotFound => {
            Ok(PathBuf::from_str(rt.alloc(), path)?)
        }
        found => found,
    }
}

/// Renames a file, and syncs the folder that both names are in.
fn rename_synced(rt: &HostRuntime, from: &str, to: &str) -> io::Result<()> {
    fs::rename(rt, from, to)?;
    let mut folder = fs::canonicalize(rt, to)?;
    folder.pop();
    fs::File::open(rt, folder.as_str())?.sync_all()
}

/// Makes the store of this desk in a new file and closes it, so that the file alone has it all.
fn fill<S: Start>(rt: &HostRuntime, home: Home, path: &str, start: S) -> Result<(), OpenFault>
    requires { IsHome home }
    ensures { OnOk result (IsMade ⟦<FileFrom<S> as Disk>⟧
        ⟦<SqlKeeper<FileStore<FileFrom<S>>> as Keeper>⟧ (image_at S.Start) home) }
{
    let made = match make_keeper(rt, home, path, start) {
        Ok(made) => made,
        Err(fault) => return Err(fault),
    };
    let keeper = match made {
        Some(keeper) => keeper,
        None => return Err(OpenFault::Device),
    };
    match close_whole(keeper.into_connection()) {
        Ok(files) => {
            drop(files);
            Ok(())
        }
        Err(fault) => Err(fault),
    }
}

/// Makes the file of this desk, with a desk's first state and an empty log, at a path where no file
/// is, or one that has nothing in it. It is made as FILE-new, and gets its name once it is whole
/// and synced: a stop on the way leaves no FILE, and what it leaves is in the way of nobody. `S`
/// stands for what FILE-new and its log hold once they are opened.
///
/// # Errors
///
/// - `Damaged` where FILE-wal has something in it: it belongs to a FILE that is lost.
/// - `Device` and `NoMemory` where they happen, and `Device` where FILE has something by then.
pub fn make_file<S: Start>(
    rt: &HostRuntime,
    home: Home,
    path: &str,
    start: S,
) -> Result<(), OpenFault>
    requires { IsHome home }
    ensures { OnOk result (IsMade ⟦<FileFrom<S> as Disk>⟧
        ⟦<SqlKeeper<FileStore<FileFrom<S>>> as Keeper>⟧ (image_at S.Start) home) }
{
    let Ok(place) = place_of(rt, path) else {
        return Err(OpenFault::Device);
    };
    let path = place.as_str();
    let (made, log) = (beside(rt, path, "-new")?, beside(rt, path, "-new-wal")?);
    if has_bytes(rt, &beside(rt, path, "-wal")?)? {
        return Err(OpenFault::Damaged);
    }
    take_away(rt, &made)?;
    take_away(rt, &log)?;
    fill(rt, home, &made, start)?;
    take_away(rt, &log)?;
    if has_bytes(rt, path)? {
        return Err(OpenFault::Device);
    }
    match rename_synced(rt, &made, path) {
        Ok(()) => Ok(()),
        Err(_) => Err(OpenFault::Device),
    }
}
