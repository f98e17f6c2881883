//! The desk that the arguments ask for.

ghost use Rattle.std.specs.Prelude.{◌≡◌, ◌++◌, decimal, option_map, IfErr, IfOk, OnErr, OnOk};
ghost use Rattle.std.specs.Io.KnownBytes.{Keeps};
ghost use Rattle.desk_choice.specs.{Keys.FailsKey, Keys.naming, Seeking.no_memory};
ghost use Rattle.desk_choice.specs.Resolving.{Chooses, FailsToChoose, FailsToFind, FailsToResolve};
ghost use Rattle.desk_choice.specs.Resolving.{FindsDesk, IsAt, IsDeskOf, IsTold, MissesDesk};
ghost use Rattle.desk_choice.specs.Resolving.{Resolves, asking_text, outside};

use crate::files::hall_of_file;
use crate::hall_keys::{key_at, key_of_hall};
use crate::seeking::seek;
use arguments::Place;
use batch::Dial;
use desk_requests::DeskFault;
use hall_file::HallFile;
use itoa::Buffer;
use lines::{RunFault, write_text};
use std::alloc::{AllocError, Global};
use std::io::Write;
use std::rt::Files;

/// A desk, where it listens, and under which key it is asked.
#[derive(Drop)]
pub struct DeskAddress {
    /// The number of its hall.
    pub hall: u32,
    /// Its own number.
    pub desk: u8,
    /// An IP address or a host's name, a colon, and a port.
    pub address: String,
    /// The key of its hall, where it has one.
    pub key: Option<[u8; 32]>,
}

/// The desk of a hall's file with this number, under this key.
fn desk_of(
    alloc: Global,
    file: &HallFile,
    key: Option<[u8; 32]>,
    desk: u8,
) -> Result<DeskAddress, DeskFault>
    ensures ok { IfOk result (IsDeskOf file.now key desk) }
    ensures err { IfErr result (MissesDesk file.now desk) }
{
    let Some(text) = file.address_of(desk) else {
        return Err(DeskFault::BadDesk);
    };
    let Ok(address) = String::from_str(alloc, text) else {
        return Err(DeskFault::Run(RunFault::NoMemory));
    };
    Ok(DeskAddress {
        hall: file.hall,
        desk,
        address,
        key,
    })
}

/// Adds a number in decimal.
fn push_number(out: &mut Vec<u8>, number: u8) -> Result<(), AllocError>
    ensures { OnOk result (out.new.items ≡ out.old.items ++ decimal number) }
{
    let mut buffer = Buffer::new();
    out.extend_from_slice(buffer.format(number).as_bytes())
}

/// The line that says which desk is asked.
fn asking_line(alloc: Global, desk: u8, address: &str) -> Result<Vec<u8>, AllocError>
    ensures { IfOk result (λ line. line.items ≡ asking_text desk address.now) }
{
    let mut out = Vec::new(alloc);
    out.extend_from_slice(b"asking desk ")?;
    push_number(&mut out, desk)?;
    out.extend_from_slice(b" at ")?;
    out.extend_from_slice(address.as_bytes())?;
    out.extend_from_slice(b"\n")?;
    Ok(out)
}

/// Says on the fault stream which desk is asked, unless it is the last one of its hall. Where the
/// line cannot be written, the desk is asked all the same.
fn tell_desk<F: Write>(
    alloc: Global,
    file: &HallFile,
    found: &DeskAddress,
    faults: &mut F,
) -> Result<(), DeskFault>
    ensures told { OnOk result
        (IsTold file.now found.now (F.contents faults.old) (F.contents faults.new)) }
    ensures err { IfErr result (λ f. f ≡ no_memory) }
    ensures kept { OnErr result (Keeps (F.contents faults.old) (F.contents faults.new)) }
{
    if found.desk == file.desk_count() {
        return Ok(());
    }
    let Ok(line) = asking_line(alloc, found.desk, found.address.as_str()) else {
        return Err(DeskFault::Run(RunFault::NoMemory));
    };
    let _ = write_text(faults, &line);
    Ok(())
}

/// The last desk of a hall's file that answers.
fn chosen<D: Dial, F: Write>(
    alloc: Global,
    dial: &mut D,
    file: &HallFile,
    key: Option<[u8; 32]>,
    patience: u32,
    faults: &mut F,
) -> Result<DeskAddress, DeskFault>
    ensures ok { IfOk result (λ a. Chooses file.now key patience a
        (outside D.dialed F.contents dial.old dial.new faults.old faults.new)) }
    ensures err { IfErr result (λ f. FailsToChoose f file.now key patience
        (outside D.dialed F.contents dial.old dial.new faults.old faults.new)) }
{
    let desk = match seek(dial, file, patience, key, file.desk_count()) {
        Ok(desk) => desk,
        Err(fault) => return Err(fault),
    };
    let found = match desk_of(alloc, file, key, desk) {
        Ok(found) => found,
        Err(fault) => return Err(fault),
    };
    match tell_desk(alloc, file, &found, faults) {
        Ok(()) => Ok(found),
        Err(fault) => Err(fault),
    }
}

/// A desk of the hall that a file describes: the one of this number, or the last that answers. It
/// is asked under the key that is given, or else the one of the hall's file.
fn found<R: Files + AllocGlobal, D: Dial, F: Write>(
    rt: &R,
    dial: &mut D,
    path: &str,
    given: Option<&str>,
    desk: Option<u8>,
    patience: u32,
    faults: &mut F,
) -> Result<DeskAddress, DeskFault>
    ensures ok { IfOk result (λ a. FindsDesk (naming path.entry given.entry) desk patience a
        (outside D.dialed F.contents dial.old dial.new faults.old faults.new)) }
    ensures err { IfErr result (λ f. FailsToFind f (naming path.entry given.entry) desk patience
        (outside D.dialed F.contents dial.old dial.new faults.old faults.new)) }
{
    let file = match hall_of_file(rt, path, faults) {
        Ok(file) => file,
        Err(fault) => return Err(fault),
    };
    let key = match key_of_hall(rt, path, given, &file) {
        Ok(key) => key,
        Err(fault) => return Err(fault),
    };
    match desk {
        Some(desk) => desk_of(rt.alloc(), &file, key, desk),
        None => chosen(rt.alloc(), dial, &file, key, patience, faults),
    }
}

/// The desk of a hall at an address, under the key of a file, or none.
fn at_address<R: Files + AllocGlobal>(
    rt: &R,
    hall: u32,
    desk: u8,
    address: &str,
    given: Option<&str>,
) -> Result<DeskAddress, DeskFault>
    ensures ok { IfOk result (IsAt hall desk address.now given.entry) }
    ensures err { IfErr result (FailsKey (option_map (λ k. k.now) given.entry)) }
{
    let key = match key_at(rt, given) {
        Ok(key) => key,
        Err(fault) => return Err(fault),
    };
    let Ok(address) = String::from_str(rt.alloc(), address) else {
        return Err(DeskFault::Run(RunFault::NoMemory));
    };
    Ok(DeskAddress {
        hall,
        desk,
        address,
        key,
    })
}

/// The desk that is asked for: of which hall, with which number, where it listens, and under which
/// key it is asked.
///
/// For an address nothing is asked. Where a hall's file is named, the hall and the address are the
/// file's, and so is the key where no file of one is given. Without a desk's number its desks are
/// asked for their status from the last one to the first, each over a connection of its own, and
/// the first that says so is asked; where that is not the last desk, a line on the fault stream
/// says which one it is.
///
/// # Errors
///
/// - `BadHallFile` where the file describes no hall or cannot be read: a line was written before.
/// - `KeyFile` where the key's file gives none: no desk was asked.
/// - `BadDesk` where its hall has no desk of the number.
/// - Without a number the fault of desk 1, where no desk says how it is.
/// - `Run` with `NoMemory` where memory runs out.
pub fn addressed<R: Files + AllocGlobal, D: Dial, F: Write>(
    rt: &R,
    dial: &mut D,
    place: Place<'_>,
    patience: u32,
    faults: &mut F,
) -> Result<DeskAddress, DeskFault>
    ensures ok { IfOk result (λ a. Resolves place.entry patience a
        (outside D.dialed F.contents dial.old dial.new faults.old faults.new)) }
    ensures err { IfErr result (λ f. FailsToResolve f place.entry patience
        (outside D.dialed F.contents dial.old dial.new faults.old faults.new)) }
{
    match place {
        Place::Desk {
            hall,
            desk,
            address,
            key,
        } => at_address(rt, hall, desk, address, key),
        Place::File { file, desk, key } => found(rt, dial, file, key, desk, patience, faults),
    }
}
