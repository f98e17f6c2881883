//! The parts of a body.

ghost use Rattle.std.specs.Prelude.{◌≡◌, IfOk, map, option_map};
ghost use Rattle.std.specs.Option.{option_copied};
ghost use Rattle.form_data.specs.Bodies.{after_first, at_line_end, closes, delimiter, ends_line};
ghost use Rattle.form_data.specs.Bodies.{next_part, part_of, parts_after, parts_of, shown};

use crate::cutting::{cut, without_blanks, without_front};
use crate::headers::name_in;
use std::alloc::{AllocError, Global};

/// The most parts of a body that is read.
const MOST_PARTS: usize = 64;

/// A named part of a body, in the body's memory.
#[derive(Clone, Copy, Debug)]
pub struct Part<'a> {
    /// The name that its Content-Disposition gives, as it is between the quotes: a browser writes
    /// `%22` for a quote, `%0D` and `%0A` for an end of a line.
    pub name: &'a [u8],
    /// The bytes after its header fields.
    pub content: &'a [u8],
}

/// What is after blanks, where it begins with an end of a line.
fn at_line_end(bytes: &[u8]) -> Option<&[u8]>
    ensures { option_copied result ≡ at_line_end bytes.now }
{
    let left = without_blanks(bytes);
    if left.starts_with(b"\r\n") {
        Some(left)
    } else {
        None
    }
}

/// A part, from what is between a delimiter and the next.
fn part_of(bytes: &[u8]) -> Option<Part<'_>>
    ensures { option_map shown result ≡ part_of bytes.now }
{
    let left = at_line_end(bytes)?;
    let (fields, content) = cut(b"\r\n\r\n", left)?;
    let name = name_in(fields)?;
    Some(Part { name, content })
}

/// The part after a delimiter, and what is after the delimiter that ends it.
#[tactic(auto, unfolding(crate::specs::Bodies::next_part))]
fn next_part<'a>(mark: &[u8], bytes: &'a [u8]) -> Option<(Part<'a>, &'a [u8])>
    ensures { option_map (λ x. (shown x.0, x.1.now)) result
        ≡ next_part mark.now bytes.now }
{
    let (inner, after) = cut(mark, bytes)?;
    let part = part_of(inner)?;
    Some((part, after))
}

/// Whether a line ends here, or all.
fn ends_line(bytes: &[u8]) -> bool
    ensures { result ≡ ends_line bytes.now }
{
    bytes.is_empty() || bytes.starts_with(b"\r\n")
}

/// Whether the delimiter before these bytes is the last one.
#[tactic(auto, unfolding(crate::specs::Bodies::closes))]
fn closes(bytes: &[u8]) -> bool
    ensures { result ≡ closes bytes.now }
{
    bytes.starts_with(b"--") && ends_line(without_blanks(without_front(2, bytes)))
}

/// The parts after a delimiter.
fn parts_after<'a>(
    alloc: Global,
    mark: &[u8],
    bytes: &'a [u8],
) -> Result<Option<Vec<Part<'a>>>, AllocError>
    ensures { IfOk result (λ found.
        option_map (λ parts. map shown parts.items) found
        ≡ parts_after 64 mark.now bytes.now) }
{
    let mut parts = Vec::new(alloc);
    let mut left = bytes;
    for taken in 0..MOST_PARTS {
        if closes(left) {
            return Ok(Some(parts));
        }
        let Some((part, after)) = next_part(mark, left) else {
            return Ok(None);
        };
        parts.push(part)?;
        left = after;
    }
    if closes(left) {
        Ok(Some(parts))
    } else {
        Ok(None)
    }
}

/// What is after the first delimiter. At the front of a body it has no end of a line.
fn after_first<'a>(mark: &[u8], body: &'a [u8]) -> Option<&'a [u8]>
    ensures { option_copied result ≡ after_first mark.now body.now }
{
    let front = without_front(2, mark);
    if body.starts_with(front) {
        return Some(without_front(front.len(), body));
    }
    match cut(mark, body) {
        Some((_, after)) => Some(after),
        None => None,
    }
}

/// The delimiter of a boundary.
fn delimiter(alloc: Global, boundary: &[u8]) -> Result<Vec<u8>, AllocError>
    ensures { IfOk result (λ mark. mark.items ≡ delimiter boundary.now) }
{
    let mut mark = Vec::from_slice(alloc, b"\r\n--")?;
    mark.extend_from_slice(boundary)?;
    Ok(mark)
}

/// The parts of a body of `multipart/form-data` with this boundary, in order (RFC 2046, section
/// 5.1.1; RFC 7578, section 4). What is before the first delimiter and after the last one is passed
/// over, and so are all fields of a part but its Content-Disposition. The time is linear in the
/// body, and memory is taken for the list alone.
///
/// None where it is no such body: where the first delimiter or the last one is missing, where
/// something else than blanks is beside one, where a part has no empty line or no name, and where
/// there are more than 64 parts. AllocError where memory was refused.
pub fn parts<'a>(
    alloc: Global,
    boundary: &[u8],
    body: &'a [u8],
) -> Result<Option<Vec<Part<'a>>>, AllocError>
    ensures { IfOk result (λ found.
        option_map (λ parts. map shown parts.items) found
        ≡ parts_of boundary.now body.now) }
{
    let mark = delimiter(alloc, boundary)?;
    match after_first(&mark, body) {
        Some(left) => parts_after(alloc, &mark, left),
        None => Ok(None),
    }
}
