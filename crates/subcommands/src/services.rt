//! What is asked of a desk that is to serve the hall of a file.

ghost use Rattle.std.specs.Prelude.{◌≡◌, IfErr, IfOk, map, option_map, string_bytes};
ghost use Rattle.desk_choice.specs.Seeking.{no_memory};
ghost use Rattle.subcommands.specs.Services.{IsBeside, IsEntryKeyFile, IsServiceOf};

use desk_requests::DeskFault;
use hall_file::key_path;
use hall_file::service::{ServeOptions, Service};
use lines::RunFault;
use std::alloc::AllocError;
use std::fs;
use std::io::ErrorKind;

/// The name of the file with the entry key, beside a hall's file.
const ENTRY_KEY: &str = "entry.key";

/// Whether something is at a path.
fn is_there(rt: &HostRuntime, path: &str) -> bool {
    match fs::metadata(rt, path) {
        Ok(_) => true,
        Err(error) => error.kind() != ErrorKind::NotFound,
    }
}

/// The path of `entry.key` beside a hall's file, where it may be taken, and is there.
fn key_beside(rt: &HostRuntime, file: &str, may: bool) -> Result<Option<String>, AllocError>
    ensures { IfOk result (λ path. IsBeside file.now (option_map string_bytes path)) }
{
    if !may {
        return Ok(None);
    }
    let path = key_path(rt.alloc(), file, ENTRY_KEY)?;
    if is_there(rt, path.as_str()) {
        Ok(Some(path))
    } else {
        Ok(None)
    }
}

/// The path of the file with the entry key: the one that is given, or else `entry.key` beside the
/// hall's file, where that may be taken, and is there.
fn key_file_of(
    rt: &HostRuntime,
    file: &str,
    given: Option<&str>,
    may: bool,
) -> Result<Option<String>, AllocError>
    ensures { IfOk result (λ path.
        IsEntryKeyFile given.entry file.now (option_map string_bytes path)) }
{
    match given {
        Some(given) => Ok(Some(String::from_str(rt.alloc(), given)?)),
        None => key_beside(rt, file, may),
    }
}

/// The path of the file with the entry key: the one that is wanted; or else, where the hall has a
/// key, and no old one is wanted, `entry.key` beside the hall's file, if that is there.
///
/// # Errors
///
/// `Run` with `NoMemory` where memory runs out.
pub fn entry_key_file(
    rt: &HostRuntime,
    file: &str,
    wanted: ServeOptions<'_>,
    has_key: bool,
) -> Result<Option<String>, DeskFault>
    ensures ok { IfOk result (λ path.
        IsEntryKeyFile wanted.entry.entry_key file.now (option_map string_bytes path)) }
    ensures err { IfErr result (λ f. f ≡ no_memory) }
{
    let may = has_key && wanted.old_key.is_none();
    match key_file_of(rt, file, wanted.entry_key, may) {
        Ok(path) => Ok(path),
        Err(_) => Err(DeskFault::Run(RunFault::NoMemory)),
    }
}

/// What is asked of the desk that is wanted, of a hall with this number, whose desks have the key
/// of this file, or none, and the entry key of this one, or none, and listen at these addresses.
pub fn service_of<'a>(
    hall: u32,
    wanted: ServeOptions<'a>,
    key: Option<&'a str>,
    entry_key: Option<&'a str>,
    addresses: &'a [&'a str],
) -> Service<'a>
    ensures { IsServiceOf result hall wanted.entry (option_map (λ k. k.now) key.entry)
        (option_map (λ k. k.now) entry_key.entry) (map (λ a. a.now) addresses.now) }
{
    Service {
        hall,
        addresses,
        options: ServeOptions {
            key,
            entry_key,
            ..wanted
        },
    }
}
