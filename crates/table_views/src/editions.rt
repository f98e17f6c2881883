//! Edition 4 of the commands, in which a scorecard is one command.

ghost use Rattle.std.specs.Prelude.{◌≡◌, ◌++◌, OnOk};
ghost use Rattle.table_views.specs.Editions.{edition_form, edition_rest, is_latest};

use crate::hidden::push_hidden;
use acceptor::NoMemory;
use card_forms::FormId;
use commands::Meet;
use markup::Piece::Text;
use markup::fill;

const EDITION_START: &[u8] = b"\
<h2>Edition 4</h2>
<p>An earlier edition of the commands holds in this hall, and this table accepts no card under it. \
With edition 4 a scorecard is one command, which counts over what its scoretaker saw, or not at \
all. The commands can also change a name, the settings of a round and a scramble, withdraw a \
competitor, and open a closed round again. First each desk has to run a program that knows \
edition 4. It can't be taken back. This is sent: <code>EDITION 4</code></p>
<form method=\"post\" action=\"/command\" autocomplete=\"off\">
";

/// Whether edition 4 holds.
pub fn is_latest(meet: &Meet) -> bool
    ensures { result ≡ is_latest meet.now.accepted }
{
    meet.edition() >= 4
}

const EDITION_REST: &[u8] = b"\
<input type=\"hidden\" name=\"command\" value=\"EDITION\">
<input type=\"hidden\" name=\"back\" value=\"$\">
<input type=\"hidden\" name=\"text\" value=\"EDITION 4\">
<button>Change to edition 4</button></form>
";

fn push_edition_rest(out: &mut Vec<u8>, back: &[u8]) -> Result<(), NoMemory>
    ensures { OnOk result (out.new.items ≡ out.old.items ++ edition_rest back.now) }
{
    fill(out, EDITION_REST, &[Text(back)])
}

/// Adds the form that moves to edition 4. After it the browser goes to the path `back`.
#[tactic(auto, unfolding(crate::specs::Editions::edition_form))]
pub fn push_edition_form(
    out: &mut Vec<u8>,
    token: &[u8],
    form: FormId,
    back: &[u8],
) -> Result<(), NoMemory>
    ensures { OnOk result (out.new.items ≡ out.old.items ++ edition_form token.now form back.now) }
{
    out.extend_from_slice(EDITION_START)?;
    push_hidden(out, token, form)?;
    push_edition_rest(out, back)
}
