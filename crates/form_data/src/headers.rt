//! Header fields and their parameters.

ghost use Rattle.std.specs.Prelude.{◌≡◌, false, position};
ghost use Rattle.std.specs.{List.list_all, Option.option_copied};
ghost use Rattle.form_data.specs.Headers.{as_boundary, boundary_of, ends_plain, ends_with_space};
ghost use Rattle.form_data.specs.Headers.{field_after, has_boundary_length, is_boundary};
ghost use Rattle.form_data.specs.Headers.{is_boundary_byte, name_in, parameter, parameter_after};
ghost use Rattle.form_data.specs.Headers.{parameter_of, plain_value, quoted_value, value_of};

use crate::cutting::{
    after_word, begins_as, cut, front, is_blank, line_of, without_blanks, without_front,
};

/// The bytes up to the next quote; none where there is no quote.
fn quoted_value(bytes: &[u8]) -> Option<&[u8]>
    ensures { option_copied result ≡ quoted_value bytes.now }
{
    match cut(b"\"", bytes) {
        Some((value, _)) => Some(value),
        None => None,
    }
}

/// Whether a byte ends a value without quotes.
fn ends_plain(byte: u8) -> bool
    ensures { result ≡ ends_plain byte }
{
    byte == b';' || is_blank(byte)
}

/// The place of the first byte that ends a value without quotes.
fn end_of_plain(bytes: &[u8]) -> Option<usize>
    ensures { result ≡ position ends_plain bytes.now }
{
    bytes.iter().position(|byte| ends_plain(*byte))
}

/// The bytes up to the next semicolon or blank, or all.
fn plain_value(bytes: &[u8]) -> &[u8]
    ensures { result.now ≡ plain_value bytes.now }
{
    let end = end_of_plain(bytes).unwrap_or(bytes.len());
    front(end, bytes)
}

/// The value of a parameter, quoted or not, from what is after its equals sign.
fn value_of(bytes: &[u8]) -> Option<&[u8]>
    ensures { option_copied result ≡ value_of bytes.now }
{
    let Some((first, more)) = bytes.split_first() else {
        return Some(bytes);
    };
    if *first == b'"' {
        quoted_value(more)
    } else {
        Some(plain_value(bytes))
    }
}

/// The value of the first parameter of a name, which has its equals sign. A parameter is after a
/// semicolon that is in no quotes.
fn parameter<'a>(name: &[u8], bytes: &'a [u8]) -> Option<&'a [u8]>
    ensures { option_copied result ≡ parameter name.now false bytes.now }
{
    let mut quoted = false;
    for (place, byte) in bytes.iter().enumerate() {
        if *byte == b'"' {
            quoted = !quoted;
            continue;
        }
        if quoted || *byte != b';' {
            continue;
        }
        if let Some(value) = after_word(name, bytes.split_at(place + 1).1) {
            return value_of(value);
        }
    }
    None
}

/// The value of a parameter, where parameters are there.
fn parameter_after<'a>(name: &[u8], more: &'a [u8]) -> Option<&'a [u8]>
    ensures { option_copied result ≡ parameter_after name.now more.now }
{
    if more.starts_with(b";") {
        parameter(name, more)
    } else {
        None
    }
}

/// The value of a parameter of a field that says this kind, without case, and then parameters.
fn parameter_of<'a>(kind: &[u8], name: &[u8], field: &'a [u8]) -> Option<&'a [u8]>
    ensures { option_copied result ≡ parameter_of kind.now name.now field.now }
{
    match after_word(kind, field) {
        Some(more) => parameter_after(name, without_blanks(more)),
        None => None,
    }
}

/// Whether a boundary may have this byte.
fn is_boundary_byte(byte: u8) -> bool
    ensures { result ≡ is_boundary_byte byte }
{
    byte.is_ascii_digit()
        || byte.is_ascii_uppercase()
        || byte.is_ascii_lowercase()
        || b"'()+_,-./:=? ".contains(&byte)
}

/// Whether the last byte is a space.
fn ends_with_space(bytes: &[u8]) -> bool
    ensures { result ≡ ends_with_space bytes.now }
{
    match bytes.last() {
        Some(byte) => *byte == b' ',
        None => false,
    }
}

/// Whether there are 1 to 70 bytes.
fn has_boundary_length(bytes: &[u8]) -> bool
    ensures { result ≡ has_boundary_length bytes.now }
{
    1 <= bytes.len() && bytes.len() <= 70
}

/// Whether a boundary may have all of these bytes.
fn are_boundary_bytes(bytes: &[u8]) -> bool
    ensures { result ≡ list_all is_boundary_byte bytes.now }
{
    bytes.iter().all(|byte| is_boundary_byte(*byte))
}

/// Whether bytes are a boundary.
fn is_boundary(bytes: &[u8]) -> bool
    ensures { result ≡ is_boundary bytes.now }
{
    has_boundary_length(bytes) && are_boundary_bytes(bytes) && !ends_with_space(bytes)
}

/// The value, where it is a boundary.
fn as_boundary(value: &[u8]) -> Option<&[u8]>
    ensures { option_copied result ≡ as_boundary value.now }
{
    if is_boundary(value) {
        Some(value)
    } else {
        None
    }
}

/// The boundary that a Content-Type of `multipart/form-data` gives: the value of the first
/// parameter `boundary`, quoted or not, without its quotes. The type and the parameter's name are
/// compared without case.
///
/// None where the type is another one, where it has no such parameter, and where the value is no
/// boundary: 1 to 70 bytes, each a digit, a letter, one of `'()+_,-./:=?` or a space, the last one
/// no space (RFC 2046, section 5.1.1).
pub fn boundary_of(content_type: &[u8]) -> Option<&[u8]>
    ensures { option_copied result ≡ boundary_of content_type.now }
{
    match parameter_of(b"multipart/form-data", b"boundary=", content_type) {
        Some(value) => as_boundary(value),
        None => None,
    }
}

/// What a field of a name says: what is on its line after its name. The name is given in lower case
/// with an end of a line before it and a colon after it.
fn field_after<'a>(name: &[u8], fields: &'a [u8]) -> Option<&'a [u8]>
    ensures { option_copied result ≡ field_after name.now fields.now }
{
    for place in 0..fields.len() {
        let left = fields.split_at(place).1;
        if begins_as(name, left) {
            return Some(line_of(without_front(name.len(), left)));
        }
    }
    None
}

/// The name that the fields of a part say, by `Content-Disposition: form-data; name="..."`. An end
/// of a line is before each field.
pub fn name_in(fields: &[u8]) -> Option<&[u8]>
    ensures { option_copied result ≡ name_in fields.now }
{
    match field_after(b"\r\ncontent-disposition:", fields) {
        Some(field) => parameter_of(b"form-data", b"name=", field),
        None => None,
    }
}
