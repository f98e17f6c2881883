//! How the values of arguments are read.

ghost use Rattle.std.specs.Prelude.{◌≡◌, decimal, IfSome};
ghost use Rattle.clap.specs.Words.{first_of, found_of, rows_of};
ghost use Rattle.arguments.specs.Arguments.{IsGiven, IsNumberAt, IsNumberOr, IsText};
ghost use Rattle.wire.specs.Ranges.{IsId};

use clap::ArgMatches;
use command_line::plain_number;
use replay_arguments::text_at;

/// The first value of an argument as a number. No number where the value has a sign or leading
/// zeros, which the parser accepts.
pub fn number_at(found: &ArgMatches<'_>, id: &str) -> Option<u64>
    ensures { IfSome result (λ n. IsNumberAt id.now (rows_of (found_of found.now)) n) }
{
    plain_number(text_at(found, id)?)
}

/// As `number_at`, where four bytes hold the number.
pub fn four_bytes_at(found: &ArgMatches<'_>, id: &str) -> Option<u32>
    ensures { IfSome result (λ n. IsNumberAt id.now (rows_of (found_of found.now)) n) }
{
    let number = number_at(found, id)?;
    if number > 4_294_967_295 {
        return None;
    }
    Some(number as u32)
}

/// As `number_at`, where a byte holds the number.
pub fn byte_at(found: &ArgMatches<'_>, id: &str) -> Option<u8>
    ensures { IfSome result (λ n. IsNumberAt id.now (rows_of (found_of found.now)) n) }
{
    let number = number_at(found, id)?;
    if number > 255 {
        return None;
    }
    Some(number as u8)
}

/// A text as an id, 1 to 9,223,372,036,854,775,807. No id where it has a sign or leading zeros.
pub fn id_in(text: &str) -> Option<u64>
    ensures id { IfSome result (λ n. text.now ≡ decimal n) }
    ensures in_range { IfSome result IsId }
{
    let number = plain_number(text)?;
    if number == 0 || number > 9_223_372_036_854_775_807 {
        return None;
    }
    Some(number)
}

/// As `number_at`, where the number is an id: 1 to 9,223,372,036,854,775,807.
pub fn id_at(found: &ArgMatches<'_>, id: &str) -> Option<u64>
    ensures id { IfSome result (λ n. IsNumberAt id.now (rows_of (found_of found.now)) n) }
    ensures in_range { IfSome result IsId }
{
    id_in(text_at(found, id)?)
}

/// The number that is given, or `Some(None)` where none is. None: it has a sign or leading zeros,
/// or no four bytes hold it.
pub fn optional_at(found: &ArgMatches<'_>, id: &str) -> Option<Option<u32>>
    ensures { IfSome result (λ n. IsGiven id.now (rows_of (found_of found.now)) n) }
{
    match found.get_str(id) {
        None => Some(None),
        Some(_) => Some(Some(four_bytes_at(found, id)?)),
    }
}

/// As `optional_at`, where a byte holds the number.
pub fn optional_byte_at(found: &ArgMatches<'_>, id: &str) -> Option<Option<u8>>
    ensures { IfSome result (λ n. IsGiven id.now (rows_of (found_of found.now)) n) }
{
    match found.get_str(id) {
        None => Some(None),
        Some(_) => Some(Some(byte_at(found, id)?)),
    }
}

/// As `optional_at`, where the number is an id.
pub fn optional_id_at(found: &ArgMatches<'_>, id: &str) -> Option<Option<u64>>
    ensures id { IfSome result (λ n. IsGiven id.now (rows_of (found_of found.now)) n) }
    ensures in_range { IfSome result (λ n. IfSome n IsId) }
{
    match found.get_str(id) {
        None => Some(None),
        Some(_) => Some(Some(id_at(found, id)?)),
    }
}

/// The number that is given, or another one where none is. None: as `optional_at`.
pub fn number_or(found: &ArgMatches<'_>, id: &str, other: u32) -> Option<u32>
    ensures { IfSome result (λ n. IsNumberOr id.now other (rows_of (found_of found.now)) n) }
{
    Some(optional_at(found, id)?.unwrap_or(other))
}

/// The text that is given, or None where none is.
pub fn given_text<'a>(found: &ArgMatches<'a>, id: &str) -> Option<&'a str>
    ensures { IsText id.now (rows_of (found_of found.now)) result }
{
    found.get_str(id)
}

/// Some where an argument has no value.
pub fn without(found: &ArgMatches<'_>, id: &str) -> Option<()>
    ensures { IfSome result (λ _. first_of id.now (rows_of (found_of found.now)) ≡ None) }
{
    match found.get_str(id) {
        Some(_) => None,
        None => Some(()),
    }
}
