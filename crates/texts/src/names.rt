//! The names of competitors, as the editions spell them.

ghost use Rattle.std.specs.Prelude.{◌≡◌, ◌&&◌};
ghost use Rattle.std.specs.{List.list_all, Str.is_utf8, Str.chars};
ghost use Rattle.texts.specs.Names.{has_single_spaces, is_early_name, is_name_character, is_remark};
ghost use Rattle.texts.specs.Names.{is_name_byte, is_seen, is_clear_name, is_name_in, is_name};

use ucd_category::GeneralCategory;

/// The most bytes of a name in editions 1 and 2.
const MOST_EARLY_NAME: usize = 80;

/// The most bytes of a remark.
const MOST_REMARK: usize = 80;

/// The most bytes of a name in edition 3: Latin letters and a local form of the name, each letter
/// of which may have three bytes.
const MOST_NAME: usize = 160;

/// Whether the bytes are UTF-8.
fn is_text(bytes: &[u8]) -> bool
    ensures { result ≡ is_utf8 bytes.now }
{
    str::from_utf8(bytes).is_ok()
}

/// Whether there is no control character of ASCII.
fn is_printable(bytes: &[u8]) -> bool
    ensures { result ≡ list_all is_name_byte bytes.now }
{
    for byte in bytes {
        if *byte < b' ' || *byte == 127 {
            return false;
        }
    }
    true
}

/// Whether no space is at an end, and no two are in a row.
pub fn has_single_spaces(bytes: &[u8]) -> bool
    ensures { result ≡ has_single_spaces bytes.now }
{
    bytes
        .split(|byte| *byte == b' ')
        .all(|part| !part.is_empty())
}

/// Whether it is a name of editions 1 and 2: 1 to 80 bytes of UTF-8 without control characters of
/// ASCII, whose words are parted by one space each.
fn is_early_name(bytes: &[u8]) -> bool
    ensures { result ≡ is_early_name bytes.now }
{
    !bytes.is_empty()
        && bytes.len() <= MOST_EARLY_NAME
        && is_text(bytes)
        && is_printable(bytes)
        && has_single_spaces(bytes)
}

/// Whether characters of the category are seen, and Unicode says what they are.
fn is_seen(category: GeneralCategory) -> bool
    ensures { result ≡ is_seen category }
{
    !matches!(
        category,
        GeneralCategory::Control
            | GeneralCategory::Format
            | GeneralCategory::PrivateUse
            | GeneralCategory::Unassigned
            | GeneralCategory::LineSeparator
            | GeneralCategory::ParagraphSeparator
    )
}

/// Whether names of edition 3 may have the character.
fn is_name_character(character: char) -> bool
    ensures { result ≡ is_name_character character }
{
    character != '"' && is_seen(GeneralCategory::for_char(character))
}

/// Whether the bytes are UTF-8, and each of the characters may be in a name of edition 3.
fn is_clear_text(bytes: &[u8]) -> bool
    ensures { result ≡ (is_utf8 bytes.now && list_all is_name_character (chars bytes.now)) }
{
    match str::from_utf8(bytes) {
        Ok(text) => text.chars().all(is_name_character),
        Err(_) => false,
    }
}

/// Whether it is a name of edition 3: 1 to 160 bytes of UTF-8, whose words are parted by one space
/// each, without double quotes and without characters of Unicode's categories Cc, Cf, Co, Cn, Zl
/// and Zp, which are not seen or turn the text round.
#[tactic(auto, unfolding(crate::specs::Names::is_clear_name))]
pub fn is_clear_name(bytes: &[u8]) -> bool
    ensures { result ≡ is_clear_name bytes.now }
{
    !bytes.is_empty()
        && bytes.len() <= MOST_NAME
        && is_clear_text(bytes)
        && is_printable(bytes)
        && has_single_spaces(bytes)
}

/// Whether it is a name that an edition spells.
pub fn is_name_in(edition: u8, bytes: &[u8]) -> bool
    ensures { result ≡ is_name_in edition bytes.now }
{
    if edition < 3 {
        is_early_name(bytes)
    } else {
        is_clear_name(bytes)
    }
}

/// Whether it is a name that some edition spells.
pub fn is_name(bytes: &[u8]) -> bool
    ensures { result ≡ is_name bytes.now }
{
    is_early_name(bytes) || is_clear_name(bytes)
}

/// Whether it is a remark: a name of edition 3 of at most 80 bytes.
pub fn is_remark(bytes: &[u8]) -> bool
    ensures { result ≡ is_remark bytes.now }
{
    bytes.len() <= MOST_REMARK && is_clear_name(bytes)
}
