//! The frame of a page that is printed.

ghost use Rattle.std.specs.Prelude.{◌≡◌, ◌++◌, OnOk};
ghost use Rattle.table_entry_views.specs.declared.paper.frame.TheConstants.{BOTTOM};
ghost use Rattle.table_entry_views.specs.paper.Frame.{top};

use attempts::NoMemory;
use markup::Piece::{Html, Text};
use markup::fill;

const TOP: &[u8] = b"\
<!DOCTYPE html>
<html lang=\"en\"><head><meta charset=\"utf-8\">
<title>$</title><link rel=\"stylesheet\" href=\"/table.css\"></head>
<body class=\"$\"><main>
";

const BOTTOM: &[u8] = b"</main></body></html>\n";

/// Adds what is before what is printed, under a class of the style.
pub(crate) fn push_top<'a>(
    out: &mut Vec<u8>,
    class: &'a [u8],
    title: &'a [u8],
) -> Result<(), NoMemory>
    ensures { OnOk result (out.new.items ≡ out.old.items ++ top class.now title.now) }
{
    fill(out, TOP, &[Text(title), Html(class)])
}

/// Adds what is after it.
pub(crate) fn push_bottom(out: &mut Vec<u8>) -> Result<(), NoMemory>
    ensures { OnOk result (out.new.items ≡ out.old.items ++ BOTTOM.now) }
{
    out.extend_from_slice(BOTTOM)
}
