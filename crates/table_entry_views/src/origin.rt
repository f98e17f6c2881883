//! Where what is on a card comes from.

ghost use Rattle.std.specs.Prelude.{◌≡◌, ◌++◌, OnOk};
ghost use Rattle.std.specs.Option.{option_copied};
ghost use Rattle.table_entry_views.specs.Origin.{entry_words, origin_line, origin_words};
ghost use Rattle.table_entry_views.specs.Origin.{place_words, remark_words};

use acceptor::NoMemory;
use markup::Piece::{Html, Number, Text};
use markup::fill;

/// Which entry of the log said last what counts of a competitor's attempts.
#[derive(Clone, Copy)]
pub struct Origin<'a> {
    /// How many entries the log has up to and with this one, 1 to 65,536.
    pub position: u32,
    /// Whether it is known to have been entered at this table.
    pub here: bool,
    /// Its remark, if it has one: who entered it, when, why. It is shown, and nothing depends on
    /// it.
    pub remark: Option<&'a [u8]>,
}

/// Where an entry was entered.
fn place_words(here: bool) -> &'static [u8]
    ensures { result.now ≡ place_words here }
{
    if here {
        b"entered at this table"
    } else {
        b"from no card of this table"
    }
}

const ENTRY: &[u8] = b"<p class=\"origin\">Result $, $";

/// Adds which entry it is, and where it was entered.
fn push_entry(out: &mut Vec<u8>, position: u32, here: bool) -> Result<(), NoMemory>
    ensures { OnOk result (out.new.items ≡ out.old.items ++ entry_words position here) }
{
    fill(
        out,
        ENTRY,
        &[Number(position as u64), Html(place_words(here))],
    )
}

const REMARK: &[u8] = b", with the remark <q dir=\"auto\">$</q>";

/// Adds the remark of an entry, if it has one.
fn push_remark(out: &mut Vec<u8>, remark: Option<&[u8]>) -> Result<(), NoMemory>
    ensures { OnOk result (out.new.items
        ≡ out.old.items ++ remark_words (option_copied remark.entry)) }
{
    match remark {
        Some(remark) => fill(out, REMARK, &[Text(remark)]),
        None => Ok(()),
    }
}

fn push_words(out: &mut Vec<u8>, origin: Origin<'_>) -> Result<(), NoMemory>
    ensures { OnOk result (out.new.items ≡ out.old.items ++ origin_words origin.entry) }
{
    push_entry(out, origin.position, origin.here)?;
    push_remark(out, origin.remark)?;
    out.extend_from_slice(b"</p>\n")?;
    Ok(())
}

/// Adds where what counts comes from, if that is known.
pub(crate) fn push_origin(out: &mut Vec<u8>, origin: Option<Origin<'_>>) -> Result<(), NoMemory>
    ensures { OnOk result (out.new.items ≡ out.old.items ++ origin_line origin.entry) }
{
    match origin {
        Some(origin) => push_words(out, origin),
        None => Ok(()),
    }
}
