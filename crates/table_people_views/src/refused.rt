//! The pages of a form that asks for no command.

ghost use Rattle.std.specs.Prelude.{◌≡◌, ◌++◌, IfOk, OnOk};
ghost use Rattle.table_people_views.specs.Refused.{faults_page, refused_page, why_page, why_section};

use acceptor::NoMemory;
use markup::Piece::{Html, Text};
use markup::fill;
use std::alloc::Global;
use table_views::{PageContext, push_bottom, start_page};

const WHY: &[u8] = b"$$$<p><a href=\"$\">Back to the form</a></p></section>\n";

/// Adds why, between these, with a link back.
fn push_why<'a>(
    out: &mut Vec<u8>,
    start: &'a [u8],
    end: &'a [u8],
    back: &'a [u8],
    why: &'a [u8],
) -> Result<(), NoMemory>
    ensures { OnOk result (out.new.items
        ≡ out.old.items ++ why_section start.now end.now back.now why.now) }
{
    fill(out, WHY, &[Html(start), Text(why), Html(end), Text(back)])
}

/// A page of this title that says why, between these, with a link back.
fn why_page(
    alloc: Global,
    title: &[u8],
    start: &[u8],
    end: &[u8],
    around: &PageContext<'_>,
    back: &[u8],
    why: &[u8],
) -> Result<Vec<u8>, NoMemory>
    ensures { IfOk result (λ page. page.items
        ≡ why_page title.now start.now end.now around.entry.now back.now why.now) }
{
    let mut page = start_page(alloc, around, title)?;
    push_why(&mut page, start, end, back, why)?;
    push_bottom(&mut page)?;
    Ok(page)
}

/// The page that says why a form asks for no command, with a link back to the page of the form.
pub fn refused_page(
    alloc: Global,
    around: &PageContext<'_>,
    back: &[u8],
    why: &[u8],
) -> Result<Vec<u8>, NoMemory>
    ensures { IfOk result (λ page. page.items ≡ refused_page around.entry.now back.now why.now) }
{
    why_page(
        alloc,
        b"Not sent",
        b"<section><h1>Not sent</h1>\n<p><strong role=\"alert\">",
        b"</strong></p>\n",
        around,
        back,
        why,
    )
}

/// The page that says in several lines why nothing of a file or of lines can be entered, with a
/// link back to the page of the form.
pub fn faults_page(
    alloc: Global,
    around: &PageContext<'_>,
    back: &[u8],
    faults: &[u8],
) -> Result<Vec<u8>, NoMemory>
    ensures { IfOk result (λ page. page.items ≡ faults_page around.entry.now back.now faults.now) }
{
    why_page(
        alloc,
        b"Not entered",
        b"<section><h1>Not entered</h1>\n<pre role=\"alert\">",
        b"</pre>\n",
        around,
        back,
        faults,
    )
}
