//! Labels for all who are registered.

ghost use Rattle.std.specs.Prelude.{◌≡◌, ◌≤◌, ◌<◌, ◌++◌, IfOk, OnOk};
ghost use Rattle.std.specs.Option.{option_copied};
ghost use Rattle.table_entry_views.specs.paper.Labels.{country, label, labels, labels_page};
ghost use Rattle.table_entry_views.specs.paper.Labels.{next_label};
ghost use Rattle.table_entry_views.specs.paper.Wall.{accepted_in};

use crate::paper::card_order::wca_id;
use crate::paper::frame::{push_bottom, push_top};
use attempts::NoMemory;
use commands::Meet;
use competition_file::CompetitionFile;
use markup::Piece::{Number, Text};
use markup::fill;
use std::alloc::Global;
use table_views::PageContext;

/// The greatest number of a competitor.
const LAST_NUMBER: u16 = 9_999;

/// Number, name, WCA ID, and the letters of the country.
const LABEL: &[u8] = b"\
<p class=\"label\"><b>$</b> <bdi>$</bdi> <span>$ $</span></p>
";

/// The letters of the country of the person with a number, by the file; the empty text where there
/// are none.
fn country(file: Option<&CompetitionFile>, number: u16) -> &[u8]
    ensures { result.now ≡ country (option_copied file.entry) number }
{
    match file {
        Some(file) => file.country(number),
        None => b"",
    }
}

/// Adds the label of a competitor with this number and name.
fn push_label<'a>(
    out: &mut Vec<u8>,
    file: Option<&'a CompetitionFile>,
    number: u16,
    name: &'a [u8],
) -> Result<(), NoMemory>
    ensures { OnOk result (out.new.items
        ≡ out.old.items ++ label (option_copied file.entry) number name.now) }
{
    let pieces = [
        Number(number as u64),
        Text(name),
        Text(wca_id(file, number)),
        Text(country(file, number)),
    ];
    fill(out, LABEL, &pieces)
}

/// Adds the label of the number after this one, where it is registered.
fn push_next_label(
    out: &mut Vec<u8>,
    meet: &Meet,
    file: Option<&CompetitionFile>,
    number: u16,
) -> Result<(), NoMemory>
    requires { number < 9999 }
    ensures { OnOk result (out.new.items
        ≡ out.old.items ++ next_label meet.now.accepted (option_copied file.entry) number) }
{
    match meet.name(number + 1) {
        Some(name) => push_label(out, file, number + 1, name),
        None => Ok(()),
    }
}

/// Adds the labels of the numbers up to this one.
#[tactic(auto, unfolding(crate::specs::paper::Labels::labels))]
fn push_labels(
    out: &mut Vec<u8>,
    meet: &Meet,
    file: Option<&CompetitionFile>,
    last: u16,
) -> Result<(), NoMemory>
    requires { last ≤ 9999 }
    ensures { OnOk result (out.new.items
        ≡ out.old.items ++ labels meet.now.accepted (option_copied file.entry) last) }
{
    for number in 0..last {
        push_next_label(out, meet, file, number)?;
    }
    Ok(())
}

/// Labels for all who are registered, 24 on a page of A4, to be printed, in the order of the
/// numbers: number and name, and by the competition's file, where there is one, WCA ID and country.
pub fn labels_page(
    alloc: Global,
    around: &PageContext<'_>,
    file: Option<&CompetitionFile>,
) -> Result<Vec<u8>, NoMemory>
    ensures { IfOk result (λ page. page.items
        ≡ labels_page (accepted_in around.entry.now.mirror.now) (option_copied file.entry)) }
{
    let mut page = Vec::new(alloc);
    push_top(&mut page, b"labels", b"labels")?;
    push_labels(&mut page, around.mirror.meet(), file, LAST_NUMBER)?;
    push_bottom(&mut page)?;
    Ok(page)
}
