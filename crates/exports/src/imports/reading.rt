//! The bytes of a competition's file.

ghost use Rattle.std.specs.Prelude.{IfOk, OnErr, ◌≡◌};
ghost use Rattle.exports.specs.imports.Printing.{IsFront};

use std::alloc::Global;
use std::io::{ErrorKind, Read};

/// How many bytes are read of a file at most: one more than a competition's file may have, 64 MiB.
const MOST_READ: u64 = 67_108_865;

/// Why the bytes are not there.
#[derive(Clone, Copy, Debug, PartialEq, Eq)]
pub enum InputFault {
    /// A read failed.
    Read,
    /// Memory ran out.
    NoMemory,
}

/// All bytes that the reader has, or the first 64 MiB and one more.
///
/// # Errors
///
/// `Read` where a read fails, and `NoMemory` where memory runs out.
pub fn read_bytes<R: Read + Drop>(alloc: Global, reader: R) -> Result<Vec<u8>, InputFault>
    ensures { IfOk result (λ bytes. IsFront (R.remaining reader) bytes.items) }
{
    let mut bytes = Vec::new(alloc);
    match reader.take(MOST_READ).read_to_end(&mut bytes) {
        Ok(_) => Ok(bytes),
        Err(error) if error.kind() == ErrorKind::OutOfMemory => Err(InputFault::NoMemory),
        Err(_) => Err(InputFault::Read),
    }
}
