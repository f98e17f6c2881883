//! Competitors.

ghost use Rattle.std.specs.Prelude.{◌≡◌, ◌++◌, OnOk};
ghost use Rattle.markup.specs.board_page.Escaped.{escaped};
ghost use Rattle.scorecard.specs.Spelling.{trimmed};
ghost use Rattle.table_views.specs.People.{number_in, name_in};

use acceptor::NoMemory;
use commands::Meet;
use markup::board_page::push_escaped;
use texts::number_between;

/// The bytes without the white space around them.
fn trimmed(bytes: &[u8]) -> &[u8]
    ensures { result.now ≡ trimmed bytes.now }
{
    bytes.trim_ascii()
}

/// The competitor's number that a text is, 1 to 9,999, with white space around it or without.
pub fn number_of(text: &[u8]) -> Option<u16>
    ensures { result ≡ number_in text.now }
{
    match number_between(1, 9_999, trimmed(text)) {
        Some(number) => Some(number as u16),
        None => None,
    }
}

/// The name of a competitor; nothing where nobody has the number.
pub(crate) fn name_of(meet: &Meet, number: u16) -> &[u8]
    ensures { result.now ≡ name_in meet.now.accepted number }
{
    match meet.name(number) {
        Some(name) => name,
        None => &[],
    }
}

/// Adds the name of a competitor; nothing where nobody has the number.
pub fn push_name(out: &mut Vec<u8>, meet: &Meet, number: u16) -> Result<(), NoMemory>
    ensures { OnOk result (out.new.items
        ≡ out.old.items ++ escaped (name_in meet.now.accepted number)) }
{
    match meet.name(number) {
        Some(name) => push_escaped(out, name),
        None => Ok(()),
    }
}
