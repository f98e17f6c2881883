//! The pages of a file: their sections, in one frame.

ghost use Rattle.std.specs.Prelude.{◌≡◌, ◌++◌, IfOk, OnOk};
ghost use Rattle.competition_file.specs.Files.{data_of};
ghost use Rattle.file_views.specs.Pages.{IsFilePage, IsSectionOf, body_tag, framed, what};
ghost use Rattle.http_header.specs.FieldValue.{plain_value};

use crate::paths::FileView;
use crate::psych::push_psych;
use attempts::NoMemory;
use bytes::Bytes;
use commands::Meet;
use competition_file::CompetitionFile;
use http::HeaderValue;
use markup::replies::{Page, entity_tag};
use markup::{Piece, fill};
use record_views::push_records;
use round_words::event_words;
use schedule_views::{push_schedule, push_today};
use sha2::{Digest, Sha256};
use std::alloc::{AllocError, Global};

/// The frame: what the page is of, the competition, the competition again, and the section.
const FRAME: &[u8] = b"\
<!DOCTYPE html>
<html lang=\"en\"><head><meta charset=\"utf-8\">
<meta name=\"viewport\" content=\"width=device-width, initial-scale=1\">
<title>$ - $</title><link rel=\"stylesheet\" href=\"/style.css\"></head>
<body class=\"one\"><main>
<h1 dir=\"auto\">$</h1>
<nav>
<a href=\"/\">all rounds</a>
<a href=\"/people\">find a name</a>
<a href=\"/schedule\">schedule</a></nav>
$</main></body></html>
";

const TODAY: &[u8] = b"Competitor $ today";

const RECORDS: &[u8] = b"Personal records, $, Round $";

/// Adds what a page is of.
fn push_what(out: &mut Vec<u8>, view: FileView) -> Result<(), NoMemory>
    ensures { OnOk result (out.new.items ≡ out.old.items ++ what view) }
{
    match view {
        FileView::Psych(event) => out.extend_from_slice(event_words(event).as_bytes()),
        FileView::Schedule => out.extend_from_slice(b"Schedule"),
        FileView::Today(number) => fill(out, TODAY, &[Piece::Number(u64::from(number))]),
        FileView::Records(id) => {
            let event = Piece::Html(event_words(id.event).as_bytes());
            fill(out, RECORDS, &[event, Piece::Number(u64::from(id.round))])
        }
    }
}

/// The section of a view.
fn section_of(
    alloc: Global,
    file: &CompetitionFile,
    meet: &Meet,
    view: FileView,
) -> Result<Vec<u8>, NoMemory>
    ensures { IfOk result
        (λ section. IsSectionOf (data_of file.now) meet.now.accepted view section.items) }
{
    let mut section = Vec::new(alloc);
    match view {
        FileView::Psych(event) => push_psych(&mut section, file, event)?,
        FileView::Schedule => push_schedule(&mut section, file, meet)?,
        FileView::Today(number) => push_today(&mut section, file, number)?,
        FileView::Records(id) => push_records(&mut section, file, meet, id)?,
    }
    Ok(section)
}

/// A section in the frame.
fn framed(alloc: Global, title: &[u8], view: FileView, section: &[u8]) -> Result<Vec<u8>, NoMemory>
    ensures { IfOk result (λ page. page.items ≡ framed (what view) title.now section.now) }
{
    let mut name = Vec::new(alloc);
    push_what(&mut name, view)?;
    let mut page = Vec::new(alloc);
    let title = Piece::Text(title);
    let pieces = [Piece::Html(&name), title, title, Piece::Html(section)];
    fill(&mut page, FRAME, &pieces)?;
    Ok(page)
}

/// The entity tag of a body. It has only bytes that a header field can have, so that it is refused
/// only for memory.
fn tag_of(alloc: Global, body: &[u8]) -> Result<HeaderValue, NoMemory>
    ensures { IfOk result (λ tag. tag ≡ plain_value (body_tag body.now)) }
{
    let digest = hex::encode(alloc, Sha256::digest(body).as_slice())?;
    match entity_tag(alloc, body.len() as u64, digest.as_bytes()) {
        Ok(tag) => Ok(tag),
        Err(_) => Err(AllocError),
    }
}

/// A page of a file, under the title of the competition, in HTML. What it says of a round is of the
/// competition so far. A browser has to ask each time; its entity tag is made of the body alone.
///
/// # Errors
///
/// Where memory runs out.
pub fn file_page(
    alloc: Global,
    file: &CompetitionFile,
    meet: &Meet,
    title: &[u8],
    view: FileView,
) -> Result<Page, NoMemory>
    ensures { IfOk result (λ page.
        IsFilePage title.now (data_of file.now) meet.now.accepted view page) }
{
    let section = section_of(alloc, file, meet, view)?;
    let body = framed(alloc, title, view, &section)?;
    let tag = tag_of(alloc, &body)?;
    Ok(Page {
        content_type: HeaderValue::from_static("text/html; charset=utf-8"),
        cache_control: HeaderValue::from_static("no-cache"),
        tag,
        body: Bytes::from_vec(body)?,
    })
}
