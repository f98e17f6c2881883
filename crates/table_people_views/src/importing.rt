//! The page that accepts a competition's file, or lines of commands.

ghost use Rattle.std.specs.Prelude.{◌≡◌, ◌++◌, IfOk, OnOk};
ghost use Rattle.table_people_views.specs.Importing.{import_page, import_section};

use acceptor::NoMemory;
use std::alloc::Global;
use table_views::{PageContext, id_at, push_end, push_hidden, start_page};

const FILE_START: &[u8] = b"\
<section><h1>From a file or from lines</h1>
<p>Nothing is entered yet: what would be entered is shown first.</p>
<h2>A competition's file</h2>
<form method=\"post\" action=\"/import\" enctype=\"multipart/form-data\">
";

const FILE_END: &[u8] = b"\
<label>A competition in the WCA Competition Interchange Format \
<input type=\"file\" name=\"file\" accept=\".json\"></label>
<label><input type=\"checkbox\" name=\"cumulative\" value=\"as-single\"> \
A time limit for several attempts together becomes the limit of each</label>
<label><input type=\"checkbox\" name=\"same-names\" value=\"id\"> \
Each of several persons with one name gets the WCA ID behind it</label>
<button>Look at it</button></form>
<h2>Lines of commands</h2>
<form method=\"post\" action=\"/lines\" autocomplete=\"off\">
";

const LINES_END: &[u8] = b"\
<input type=\"hidden\" name=\"back\" value=\"/import\">
<label>One command a line, as in REG 17 Ann Li \
<textarea name=\"lines\" rows=\"12\" cols=\"60\"></textarea></label>
<button>Look at them</button></form></section>
";

/// Adds the two forms.
fn push_section(out: &mut Vec<u8>, around: &PageContext<'_>) -> Result<(), NoMemory>
    ensures { OnOk result (out.new.items ≡ out.old.items ++ import_section around.entry.now) }
{
    out.extend_from_slice(FILE_START)?;
    push_hidden(out, around.token, id_at(around.ids, 0))?;
    out.extend_from_slice(FILE_END)?;
    push_hidden(out, around.token, id_at(around.ids, 1))?;
    out.extend_from_slice(LINES_END)
}

/// The page that accepts a competition's file, to `/import`, or lines of commands, to `/lines`.
/// Both only show what would be entered.
pub fn import_page(alloc: Global, around: &PageContext<'_>) -> Result<Vec<u8>, NoMemory>
    ensures { IfOk result (λ page. page.items ≡ import_page around.entry.now) }
{
    let mut page = start_page(alloc, around, b"From a file or from lines")?;
    push_section(&mut page, around)?;
    push_end(&mut page, around)?;
    Ok(page)
}
