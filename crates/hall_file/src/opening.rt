//! The file of a hall at a path.

ghost use Rattle.std.specs.Prelude.{ℕ, List, IfOk, IfErr};
ghost use Rattle.hall_file.specs.{Halls.Says, Opening.IsOfPath};

use crate::fault::HallFault;
use crate::file::{MOST_BYTES, read_hall};
use crate::hall_file::HallFile;
use std::io::{ErrorKind, Read};
use std::rt::Files;
use std::{fs, io};
use thiserror::Error;

/// Why the file at a path gives no hall. Its text is one line for people.
#[derive(Debug, Drop, Error)]
pub enum HallOpenFault<'p> {
    /// The file cannot be opened, or a read fails.
    #[error("{path}: cannot be read")]
    CannotRead { path: &'p str },
    /// It is no hall's file, or memory ran out.
    #[error("{path}: {fault}")]
    Refused { path: &'p str, fault: HallFault },
}

/// The bytes of a file, but no more than one above those that a hall's file may have.
fn read_file<R: Files + AllocGlobal>(rt: &R, path: &str) -> io::Result<Vec<u8>> {
    let mut bytes = Vec::new(rt.alloc());
    let file = fs::open(rt, path)?;
    file.take(MOST_BYTES as u64 + 1).read_to_end(&mut bytes)?;
    Ok(bytes)
}

/// The hall that the file at a path describes, as [`read_hall`] reads it.
///
/// # Errors
///
/// - `CannotRead` where the file cannot be opened, or a read fails.
/// - `Refused` where it is no hall's file, or memory ran out.
pub fn read_hall_at<'p, R: Files + AllocGlobal>(
    rt: &R,
    path: &'p str,
) -> Result<HallFile, HallOpenFault<'p>>
    ensures ok { IfOk result (λ file. (bytes : List ℕ) × Says bytes file) }
    ensures err { IfErr result (IsOfPath path.now) }
{
    let bytes = match read_file(rt, path) {
        Ok(bytes) => bytes,
        Err(error) if error.kind() == ErrorKind::OutOfMemory => {
            let fault = HallFault::NoMemory;
            return Err(HallOpenFault::Refused { path, fault });
        }
        Err(_) => return Err(HallOpenFault::CannotRead { path }),
    };
    match read_hall(rt.alloc(), &bytes) {
        Ok(file) => Ok(file),
        Err(fault) => Err(HallOpenFault::Refused { path, fault }),
    }
}
