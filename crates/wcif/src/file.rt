//! A competition from the bytes of a file.

ghost use Rattle.std.specs.Prelude.{◌≡◌, IfOk, IfErr};
ghost use Rattle.serde_json.specs.View.{view};
ghost use Rattle.wcif.specs.Files.{FileFails, Holds, ReadFails, SetsUp, without_mark};
ghost use Rattle.wcif.specs.Later.{SaysLater};

use crate::fault::CompetitionFault;
use crate::importing::{ImportFault, ImportedCompetition, import};
use crate::nesting::nests_within;
use crate::options::Options;
use serde_json::{Error, Value};
use std::alloc::Global;

/// The most bytes of a file: 64 MiB.
const MOST_BYTES: usize = 67_108_864;

/// How deep lists and objects may nest in a file.
const MOST_LEVELS: u32 = 64;

/// Why a file gives no commands.
#[derive(Drop)]
pub enum FileFault {
    /// The file has more than 64 MiB.
    TooLong,
    /// The file is no JSON in UTF-8, or nests more than 127 deep. The error has the line and the
    /// column.
    NotJson(Error),
    /// Lists and objects nest more than 64 deep.
    TooDeep,
    /// A desk cannot hold this of the competition: one fault at least.
    Refused(Vec<CompetitionFault>),
    /// Memory ran out.
    NoMemory,
}

/// The file without a byte-order mark at the front.
#[tactic(auto, unfolding(crate::specs::Files::without_mark))]
pub fn without_mark(bytes: &[u8]) -> &[u8]
    ensures { result.now ≡ without_mark bytes.now }
{
    match bytes.strip_prefix(b"\xef\xbb\xbf".as_slice()) {
        Some(rest) => rest,
        None => bytes,
    }
}

/// The JSON value of a file. A byte-order mark at the front is dropped.
///
/// # Errors
///
/// - `TooLong` where the file has more than 64 MiB.
/// - `NotJson` where it is no JSON in UTF-8.
/// - `TooDeep` where lists and objects nest more than 64 deep.
/// - `NoMemory` where memory ran out.
pub fn read_file(alloc: Global, bytes: &[u8]) -> Result<Value, FileFault>
    ensures ok { IfOk result (λ value. Holds bytes.now (view value)) }
    ensures err { IfErr result (ReadFails bytes.now) }
{
    if bytes.len() > MOST_BYTES {
        return Err(FileFault::TooLong);
    }
    let value = match Value::from_slice(alloc, without_mark(bytes)) {
        Ok(value) => value,
        Err(error) if error.is_memory() => return Err(FileFault::NoMemory),
        Err(error) => return Err(FileFault::NotJson(error)),
    };
    if nests_within(&value, MOST_LEVELS) {
        Ok(value)
    } else {
        Err(FileFault::TooDeep)
    }
}

/// The commands that set up the competition of a file in the WCA Competition Interchange Format,
/// and what is to be known of rounds that they do not open. A byte-order mark at the front is
/// dropped.
///
/// # Errors
///
/// - Those of [`read_file`].
/// - `Refused` where a desk cannot hold all of the competition: every fault, as [`import`] has
///   them.
/// - `NoMemory` where memory ran out.
pub fn import_file(
    alloc: Global,
    bytes: &[u8],
    options: Options,
) -> Result<ImportedCompetition, FileFault>
    ensures ok { IfOk result (λ made. SetsUp options bytes.now made.commands.items) }
    ensures later { IfOk result (λ made. SaysLater options bytes.now made.later.items) }
    ensures err { IfErr result (FileFails options bytes.now) }
{
    let value = read_file(alloc, bytes)?;
    match import(alloc, &value, options) {
        Ok(made) => Ok(made),
        Err(ImportFault::Refused(faults)) => Err(FileFault::Refused(faults)),
        Err(ImportFault::NoMemory) => Err(FileFault::NoMemory),
    }
}
