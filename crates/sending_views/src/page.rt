//! The page.

ghost use Rattle.std.specs.Prelude.{◌≡◌, ◌++◌, IfOk, OnOk};
ghost use Rattle.std.specs.Option.{option_copied};
ghost use Rattle.table_views.specs.Logs.{accepted_in};
ghost use Rattle.sending_views.specs.Page.{IsBeforePage, IsBody, IsCompared, found_text, lines};

use crate::named::named_meet;
use crate::open_lines::{push_faults, push_notes};
use acceptor::NoMemory;
use commands::Meet;
use competition_file::CompetitionFile;
use exports::opens_any;
use mirror::Mirror;
use std::alloc::Global;
use table_views::{PageContext, push_end, start_page};
use wcif_results::{Findings, findings_of};

const HEAD: &[u8] = b"\
<section><h1>Before you send</h1>
<p>What an export of the list so far over the competition's file would refuse or remark.</p>
";

/// What a page says that needs the competition's file, where there is none.
pub const NO_FILE: &[u8] = b"\
<p>This score table was started without the competition's file: start it with \
<code>--wcif FILE</code>.</p>
";

const UNREAD: &[u8] = b"\
<p>An export does not read the competition's file: fetch it again.</p>
";

const NO_ROUNDS: &[u8] = b"\
<p>The list opens no round: there is nothing to send.</p>
";

const NOTHING: &[u8] = b"\
<p><strong>nothing is open</strong></p>
<p>Each round of the list is closed, and the file has a place for each of its results: \
<code>desk export</code> prints the file with them.</p>
";

const TABLE: &[u8] = b"\
<table><caption>First what is refused, then what is remarked, by rounds</caption>
<thead><tr><th>round</th><th>what is open</th><th>what to do</th></tr></thead><tbody>
";

/// Adds a line for each fault, and then for each note.
fn push_lines(out: &mut Vec<u8>, meet: &Meet, found: &Findings) -> Result<(), NoMemory>
    ensures { OnOk result (out.new.items
        ≡ out.old.items ++ lines meet.now.accepted found.now) }
{
    out.extend_from_slice(TABLE)?;
    push_faults(out, meet, &found.faults)?;
    push_notes(out, meet, &found.notes)?;
    out.extend_from_slice(b"</tbody></table>\n")
}

/// Adds what was found, or that there is nothing.
fn push_found(out: &mut Vec<u8>, meet: &Meet, found: Option<Findings>) -> Result<(), NoMemory>
    ensures { OnOk result (out.new.items
        ≡ out.old.items ++ found_text meet.now.accepted found) }
{
    let Some(found) = found else {
        return out.extend_from_slice(UNREAD);
    };
    if !opens_any(meet) {
        return out.extend_from_slice(NO_ROUNDS);
    }
    if found.faults.is_empty() && found.notes.is_empty() {
        return out.extend_from_slice(NOTHING);
    }
    push_lines(out, meet, &found)
}

/// What is found of a list over the bytes of a file.
fn compared(alloc: Global, mirror: &Mirror, bytes: &[u8]) -> Result<Vec<u8>, NoMemory>
    ensures { IfOk result
        (λ text. IsCompared (accepted_in mirror.now) bytes.now text.items) }
{
    let meet = named_meet(alloc, mirror.log())?;
    let found = findings_of(alloc, bytes, &meet)?;
    let mut text = Vec::new(alloc);
    push_found(&mut text, meet.meet(), found)?;
    Ok(text)
}

/// What is said of a list, given the competition's file, where there is one.
fn body_of(
    alloc: Global,
    mirror: &Mirror,
    file: Option<&CompetitionFile>,
) -> Result<Vec<u8>, NoMemory>
    ensures { IfOk result (λ text. IsBody (accepted_in mirror.now)
        (option_copied file.entry) text.items) }
{
    if let Some(file) = file {
        return compared(alloc, mirror, file.bytes());
    }
    let mut text = Vec::new(alloc);
    text.extend_from_slice(NO_FILE)?;
    Ok(text)
}

/// The page that says what an export of the list over the competition's file would refuse or
/// remark: a line for each thing, with the round and what to do, or that nothing is open. It says
/// nothing is open exactly where a round was opened, and the export has no fault and no note.
///
/// # Errors
///
/// Where memory runs out.
pub fn before_page(
    alloc: Global,
    around: &PageContext<'_>,
    file: Option<&CompetitionFile>,
) -> Result<Vec<u8>, NoMemory>
    ensures { IfOk result (λ page. IsBeforePage around.entry.now
        (option_copied file.entry) page.items) }
{
    let body = body_of(alloc, around.mirror, file)?;
    let mut page = start_page(alloc, around, b"Before you send")?;
    page.extend_from_slice(HEAD)?;
    page.extend_from_slice(&body)?;
    page.extend_from_slice(b"</section>\n")?;
    push_end(&mut page, around)?;
    Ok(page)
}
