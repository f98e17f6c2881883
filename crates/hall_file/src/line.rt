//! Lines of a file, and the line on which a member begins.

ghost use Rattle.std.specs.Prelude.{◌≡◌, ◌≤◌, ◌<◌, ◌+◌, ◌↔◌, length, take, slice_index, IfOk};
ghost use Rattle.std.specs.Prelude.{IsTrue};
ghost use Rattle.hall_file.specs.Files.{most_bytes};
ghost use Rattle.hall_file.specs.Lines.{IsWithout, BeginsAt, IsLineOf, line_at, line_feed};

use std::alloc::{AllocError, Global};

/// The number of the line on which a byte is.
pub(crate) fn line_at(bytes: &[u8], place: usize) -> usize
    requires short { length bytes.now ≤ most_bytes }
    requires within { place ≤ length bytes.now }
    ensures { result ≡ line_at bytes.now place }
{
    1 + bytes[..place].iter().filter(|byte| **byte == b'\n').count()
}

/// Whether a text is a document without a member.
fn is_without(alloc: Global, text: &[u8], name: &str) -> Result<bool, AllocError>
    ensures { IfOk result (λ without. IsTrue without ↔ IsWithout name.now text.now) }
{
    match toml::table_from_slice(alloc, text) {
        Ok(table) => Ok(table.get(name).is_none()),
        Err(error) if error.is_memory() => Err(AllocError),
        Err(_) => Ok(false),
    }
}

/// Whether a line ends at this place, and the lines up to it are a document without a member.
fn ends_run(alloc: Global, bytes: &[u8], name: &str, end: usize) -> Result<bool, AllocError>
    requires { end < length bytes.now }
    ensures { IfOk result (λ ends. IsTrue ends ↔ (slice_index bytes.now end ≡ line_feed)
        × IsWithout name.now (take (end + 1) bytes.now)) }
{
    if bytes[end] != b'\n' {
        return Ok(false);
    }
    is_without(alloc, &bytes[..end + 1], name)
}

/// Where the line begins on which a member begins.
fn place_of(alloc: Global, bytes: &[u8], name: &str) -> Result<usize, AllocError>
    ensures { IfOk result (BeginsAt bytes.now name.now) }
{
    let mut place = 0;
    for i in 0..bytes.len() {
        let ends = ends_run(alloc, bytes, name, i)?;
        if ends {
            place = i + 1;
        }
    }
    Ok(place)
}

/// The number of the line on which a member begins.
pub(crate) fn line_of(alloc: Global, bytes: &[u8], name: &str) -> Result<usize, AllocError>
    requires { length bytes.now ≤ most_bytes }
    ensures { IfOk result (IsLineOf bytes.now name.now) }
{
    let place = place_of(alloc, bytes, name)?;
    Ok(line_at(bytes, place))
}
