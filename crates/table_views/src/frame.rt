//! The frame of every page.

ghost use Rattle.std.specs.Prelude.{◌≡◌, ◌++◌, OnOk};
ghost use Rattle.table_views.specs.Frame.{bottom, head, refresh, top};

use crate::around::PageContext;
use crate::bar::push_bar;
use acceptor::NoMemory;
use markup::Piece::{Html, Text};
use markup::fill;

const HEAD: &[u8] = b"\
<!DOCTYPE html>
<html lang=\"en\"><head><meta charset=\"utf-8\">
<meta name=\"viewport\" content=\"width=device-width, initial-scale=1\">
<title>$</title><link rel=\"stylesheet\" href=\"/table.css\">
<script src=\"/table.js\" defer></script>$</head>
<body class=\"$\">
";

/// Without scripts the page asks for itself again after a second.
const REFRESH: &[u8] = b"<noscript><meta http-equiv=\"refresh\" content=\"1\"></noscript>";

const LINKS: &[u8] = b"\
<nav><a href=\"/\">all rounds</a>
<a href=\"/rounds\">open and close</a>
<a href=\"/people\">competitors</a></nav>
";

const BOTTOM: &[u8] = b"</main></body></html>\n";

/// What the head of a page has besides, where what was sent waits.
#[tactic(auto, unfolding(crate::specs::Frame::refresh))]
fn refresh(waits: bool) -> &'static [u8]
    ensures { result.now ≡ refresh waits }
{
    if waits { REFRESH } else { b"" }
}

fn push_head<'a>(
    out: &mut Vec<u8>,
    class: &'a [u8],
    title: &'a [u8],
    waits: bool,
) -> Result<(), NoMemory>
    ensures { OnOk result (out.new.items ≡ out.old.items ++ head class.now title.now waits) }
{
    fill(out, HEAD, &[Text(title), Html(refresh(waits)), Html(class)])
}

/// Adds what is before the sections of a page: its head with this title, the links, and how the
/// desks are doing. The class is one of the style.
pub fn push_top<'a>(
    out: &mut Vec<u8>,
    around: &PageContext<'_>,
    class: &'a [u8],
    title: &'a [u8],
) -> Result<(), NoMemory>
    ensures { OnOk result (out.new.items ≡ out.old.items
        ++ top class.now title.now around.entry.now) }
{
    push_head(out, class, title, around.waits)?;
    out.extend_from_slice(LINKS)?;
    push_bar(out, around.desks, around.mirror.len())?;
    out.extend_from_slice(b"<main>\n")
}

/// Adds what is after the sections of a page.
pub fn push_bottom(out: &mut Vec<u8>) -> Result<(), NoMemory>
    ensures { OnOk result (out.new.items ≡ out.old.items ++ bottom) }
{
    out.extend_from_slice(BOTTOM)
}
