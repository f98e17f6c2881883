//! Entity tags (RFC 9110, sections 8.8.3 and 13.1.2).

ghost use Rattle.std.specs.Prelude.{◌≡◌, IfOk, IsErrOf, false};
ghost use Rattle.http_header.specs.FieldValue.{IsFieldValue, plain_value};
ghost use Rattle.markup.specs.replies.Tags.{begins, is_listed, is_open_after, names, tag_text};

use http::HeaderValue;
use http::header::HeaderValueError;
use itoa::Buffer;
use std::alloc::{AllocError, Global};

/// The bytes of a tag.
fn tag_bytes(alloc: Global, position: u64, name: &[u8]) -> Result<Vec<u8>, AllocError>
    ensures { IfOk result (λ bytes. bytes.items ≡ tag_text position name.now) }
{
    let mut buffer = Buffer::new();
    let mut bytes = Vec::from_slice(alloc, b"\"")?;
    bytes.extend_from_slice(buffer.format(position).as_bytes())?;
    bytes.extend_from_slice(b"-")?;
    bytes.extend_from_slice(name)?;
    bytes.extend_from_slice(b"\"")?;
    Ok(bytes)
}

/// The tag of a page that shows this position under a name, as `"17-hall"`. The name is to have no
/// quotation mark. It is refused as invalid where it has bytes that a header field can't have.
pub fn entity_tag(
    alloc: Global,
    position: u64,
    name: &[u8],
) -> Result<HeaderValue, HeaderValueError>
    ensures tag { IfOk result (λ tag. tag ≡ plain_value (tag_text position name.now)) }
    ensures invalid { IsErrOf result HeaderValueError.Invalid
        → ¬ (IsFieldValue (tag_text position name.now)) }
{
    match tag_bytes(alloc, position, name) {
        Ok(bytes) => HeaderValue::from_vec(bytes),
        Err(_) => Err(HeaderValueError::OutOfMemory),
    }
}

/// Whether a tag begins here, where no other tag is open.
fn begins(quoted: bool, rest: &[u8], tag: &[u8]) -> bool
    ensures { result ≡ begins quoted rest.now tag.now }
{
    !quoted && rest.starts_with(tag)
}

/// Whether a tag is open after this byte.
fn is_open_after(quoted: bool, byte: u8) -> bool
    ensures { result ≡ is_open_after quoted byte }
{
    if byte == b'"' { !quoted } else { quoted }
}

/// Whether a tag is in a list of tags. What is within another tag doesn't count. Weak tags
/// (`W/"17-hall"`) and others are compared alike.
fn is_listed(value: &[u8], tag: &[u8]) -> bool
    ensures { result ≡ is_listed false value.now tag.now }
{
    let mut quoted = false;
    for i in 0..value.len() {
        if begins(quoted, &value[i..], tag) {
            return true;
        }
        quoted = is_open_after(quoted, value[i]);
    }
    false
}

/// Whether a value of `If-None-Match` names a tag: it is `*`, or lists the tag.
pub fn names(value: &[u8], tag: &[u8]) -> bool
    ensures { result ≡ names value.now tag.now }
{
    value == b"*".as_slice() || is_listed(value, tag)
}
