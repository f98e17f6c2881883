//! A key that is made.

ghost use Rattle.std.specs.Prelude.{IfOk, OnOk};
ghost use Rattle.keys.specs.key_file.KeyFiles.{PrintsDrawn, PrintsKey, PrintsSomeKey};

use crate::key_file::fault::MakeFault;
use crate::key_file::files::KeySource;
use crate::print_key;
use std::alloc::Global;
use std::fs;
use std::fs::OpenOptions;
use std::io::{ErrorKind, Write};
use std::os::unix::fs::OpenOptionsExt;
use std::rt::Files;

/// Writes a key as its file has it: 64 hexadecimal digits in lower case and a line feed.
///
/// # Errors
///
/// - `NoMemory` where memory runs out: nothing was written then.
/// - `CannotWrite` where a write fails.
pub fn print_key_line<W: Write>(
    alloc: Global,
    writer: &mut W,
    key: &[u8; 32],
) -> Result<(), MakeFault>
    ensures { OnOk result (PrintsKey key.now (W.contents writer.old) (W.contents writer.new)) }
{
    let mut line = print_key(alloc, key)?;
    line.push('\n')?;
    match writer.write_all(line.as_bytes()) {
        Ok(()) => Ok(()),
        Err(_) => Err(MakeFault::CannotWrite),
    }
}

/// Makes a key of 32 random bytes of the system, and writes it as a key's file has it.
///
/// # Errors
///
/// - `NoRandom` where the system gives no random bytes: nothing was written then.
/// - `NoMemory` where memory runs out: nothing was written then.
/// - `CannotWrite` where a write fails.
pub fn make_key<T: KeySource + AllocGlobal, W: Write>(
    rt: &T,
    writer: &mut W,
) -> Result<(), MakeFault>
    ensures some { OnOk result (PrintsSomeKey (W.contents writer.old) (W.contents writer.new)) }
    ensures drawn { OnOk result
        (PrintsDrawn (T.gives rt.now) (W.contents writer.old) (W.contents writer.new)) }
{
    let Some(key) = rt.draw_key() else {
        return Err(MakeFault::NoRandom);
    };
    print_key_line(rt.alloc(), writer, &key)
}

/// A file that only its owner may read and write, made where there is none at the path.
fn create_alone<R: Files>(files: &R, path: &str) -> Result<R::File, MakeFault> {
    let mut options = OpenOptions::new();
    options.write(true).create_new(true).mode(0o600);
    match options.open(files, path) {
        Ok(file) => Ok(file),
        Err(error) if error.kind() == ErrorKind::AlreadyExists => Err(MakeFault::IsThere),
        Err(error) if error.kind() == ErrorKind::OutOfMemory => Err(MakeFault::NoMemory),
        Err(_) => Err(MakeFault::CannotWrite),
    }
}

/// Makes a key as [`make_key`] does, in a file of its own that only its owner may read and write.
///
/// # Errors
///
/// - `NoRandom` where the system gives no random bytes.
/// - `IsThere` where there is a file at the path, or anything else: it is left as it is.
/// - `CannotWrite` where the file cannot be made, or a write fails.
/// - `NoMemory` where memory runs out.
///
/// Where a write fails or memory runs out, the file is removed again.
pub fn make_key_at<R: Files + KeySource + AllocGlobal>(
    rt: &R,
    path: &str,
) -> Result<(), MakeFault> {
    let Some(key) = rt.draw_key() else {
        return Err(MakeFault::NoRandom);
    };
    let mut file = create_alone(rt, path)?;
    let made = print_key_line(rt.alloc(), &mut file, &key);
    if made.is_err() {
        let _ = fs::remove_file(rt, path);
    }
    made
}
