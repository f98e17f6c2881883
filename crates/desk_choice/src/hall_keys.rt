//! The key under which the desks of a hall are asked.

ghost use Rattle.std.specs.Prelude.{◌≡◌, IfErr, IfOk, option_map, string_bytes};
ghost use Rattle.desk_choice.specs.Keys.{FailsKey, IsKeyOf, key_file_of, naming};
ghost use Rattle.desk_choice.specs.Seeking.{no_memory};

use desk_requests::DeskFault;
use hall_file::{HallFile, key_path};
use keys::key_file::read_key_at;
use lines::RunFault;
use std::alloc::{AllocError, Global};
use std::rt::Files;

/// The path of the file that has a hall's key: the one that is given, or else the one that the
/// hall's file at a path names.
fn key_file_of(
    alloc: Global,
    path: &str,
    given: Option<&str>,
    hall: &HallFile,
) -> Result<Option<String>, AllocError>
    ensures { IfOk result (λ file. option_map string_bytes file
        ≡ key_file_of (naming path.entry given.entry) hall.now) }
{
    match given {
        Some(file) => Ok(Some(String::from_str(alloc, file)?)),
        None => match &hall.key {
            Some(name) => Ok(Some(key_path(alloc, path, name.as_str())?)),
            None => Ok(None),
        },
    }
}

/// The path of the file that has a hall's key: the one that is given, or else the one that the
/// hall's file at a path names.
///
/// # Errors
///
/// `Run` with `NoMemory` where memory runs out.
pub fn hall_key_file(
    alloc: Global,
    path: &str,
    given: Option<&str>,
    hall: &HallFile,
) -> Result<Option<String>, DeskFault>
    ensures ok { IfOk result (λ file. option_map string_bytes file
        ≡ key_file_of (naming path.entry given.entry) hall.now) }
    ensures err { IfErr result (λ f. f ≡ no_memory) }
{
    match key_file_of(alloc, path, given, hall) {
        Ok(file) => Ok(file),
        Err(_) => Err(DeskFault::Run(RunFault::NoMemory)),
    }
}

/// The key that a file has, where one is named.
///
/// # Errors
///
/// `KeyFile` where the file that is named gives none.
pub fn key_at<R: Files + AllocGlobal>(
    rt: &R,
    file: Option<&str>,
) -> Result<Option<[u8; 32]>, DeskFault>
    ensures ok { IfOk result (IsKeyOf (option_map (λ f. f.now) file.entry)) }
    ensures err { IfErr result (FailsKey (option_map (λ f. f.now) file.entry)) }
{
    let Some(file) = file else {
        return Ok(None);
    };
    match read_key_at(rt, file) {
        Ok(key) => Ok(Some(key)),
        Err(fault) => Err(DeskFault::KeyFile(fault)),
    }
}

/// The key of the hall that the file at a path describes, where it has one: that of the key's file
/// that is given, or else of the one that the hall's file names.
///
/// # Errors
///
/// `KeyFile` where the key's file gives none, `Run` with `NoMemory` where memory runs out.
pub fn key_of_hall<R: Files + AllocGlobal>(
    rt: &R,
    path: &str,
    given: Option<&str>,
    hall: &HallFile,
) -> Result<Option<[u8; 32]>, DeskFault>
    ensures ok { IfOk result (IsKeyOf (key_file_of (naming path.entry given.entry) hall.now)) }
    ensures err { IfErr result (FailsKey (key_file_of (naming path.entry given.entry) hall.now)) }
{
    let file = match hall_key_file(rt.alloc(), path, given, hall) {
        Ok(file) => file,
        Err(fault) => return Err(fault),
    };
    match &file {
        Some(file) => key_at(rt, Some(file.as_str())),
        None => Ok(None),
    }
}
