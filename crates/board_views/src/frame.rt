//! The frame of a page of HTML: what is before, between and after its rounds.

ghost use Rattle.std.specs.Prelude.{◌≡◌, IfOk};
ghost use Rattle.markup.specs.Pieces.{piece_text};
ghost use Rattle.board_views.specs.Frame.{framed, inside};

use acceptor::NoMemory;
use markup::Piece::{Html, Text};
use markup::{Piece, fill};
use std::alloc::Global;

/// A page: what it shows, the competition, its class of the style, the competition again, links
/// between its own, and its rounds.
const FRAME: &[u8] = b"\
<!DOCTYPE html>
<html lang=\"en\"><head><meta charset=\"utf-8\">
<meta name=\"viewport\" content=\"width=device-width, initial-scale=1\">
<title>$ - $</title><link rel=\"stylesheet\" href=\"/style.css\">
<noscript><meta http-equiv=\"refresh\" content=\"5\"></noscript>
<script src=\"/update.js\" defer></script></head>
<body class=\"$\"><main>
<h1 dir=\"auto\">$</h1>
<nav>
<a href=\"/\">all rounds</a>
<a href=\"/people\">find a name</a>
<a href=\"/podiums\">podiums</a>
$<a href=\"/hall\">projector</a></nav>
$</main></body></html>
";

const NO_ROUND: &[u8] = b"<p class=\"none\">No round is open yet.</p>\n";

/// What is shown, or that no round is open.
#[tactic(auto, unfolding(crate::specs::Frame::inside))]
fn inside(shown: &[u8]) -> &[u8]
    ensures { result.now ≡ inside shown.now }
{
    if shown.is_empty() {
        return NO_ROUND;
    }
    shown
}

/// A page of a title, further links and what is shown, under a class of the style and a name of
/// what is shown.
pub(crate) fn page_of<'a>(
    alloc: Global,
    class: &'a [u8],
    shows: Piece<'a>,
    title: &'a [u8],
    between: &'a [u8],
    shown: &'a [u8],
) -> Result<Vec<u8>, NoMemory>
    ensures { IfOk result (λ page. page.items
        ≡ framed class.now (piece_text shows.entry) title.now between.now shown.now) }
{
    let mut page = Vec::new(alloc);
    let shown = inside(shown);
    let title = Text(title);
    let pieces = [shows, title, Html(class), title, Html(between), Html(shown)];
    fill(&mut page, FRAME, &pieces)?;
    Ok(page)
}
