//! The form that sends several commands, one a line, or shows what would become of them.

ghost use Rattle.std.specs.Prelude.{◌≡◌, ◌++◌, OnOk};
ghost use Rattle.table_views.specs.Lines.{line, lines_form};

use crate::hidden::push_hidden;
use acceptor::NoMemory;
use card_forms::FormId;
use markup::Piece::{Html, Text};
use markup::fill;

/// The beginning of a form that enters its lines.
pub const ENTERS: &[u8] = b"<form method=\"post\" action=\"/commands\" autocomplete=\"off\">\n";

/// The beginning of a form that only shows what its lines would enter.
pub const LOOKS: &[u8] = b"<form method=\"post\" action=\"/lines\" autocomplete=\"off\">\n";

/// Adds a command, after a break.
///
/// # Errors
///
/// Where memory runs out. A front part may have been added then.
pub fn push_line(out: &mut Vec<u8>, text: &[u8]) -> Result<(), NoMemory>
    ensures { OnOk result (out.new.items ≡ out.old.items ++ line text.now) }
{
    out.extend_from_slice(b"\n")?;
    out.extend_from_slice(text)
}

const LINES_FORM: &[u8] = b"\
<input type=\"hidden\" name=\"back\" value=\"$\">
<details><summary>What is sent</summary>
<textarea name=\"lines\" rows=\"12\" cols=\"60\" readonly>$</textarea></details>
<button>$</button></form>
";

/// Adds a form with this beginning that shows these lines of commands, each after a break, and
/// sends them. After it the browser goes to the path `back`; its button says these words.
///
/// # Errors
///
/// Where memory runs out. A front part may have been added then.
#[tactic(auto, unfolding(crate::specs::Lines::lines_form))]
pub fn push_lines_form<'a>(
    out: &mut Vec<u8>,
    start: &[u8],
    token: &[u8],
    id: FormId,
    back: &'a [u8],
    lines: &'a [u8],
    words: &'a [u8],
) -> Result<(), NoMemory>
    ensures { OnOk result (out.new.items
        ≡ out.old.items ++ lines_form start.now token.now id back.now lines.now words.now) }
{
    out.extend_from_slice(start)?;
    push_hidden(out, token, id)?;
    fill(out, LINES_FORM, &[Text(back), Text(lines), Html(words)])
}
