//! What a form carries unseen.

ghost use Rattle.std.specs.Prelude.{◌≡◌, ◌++◌, OnOk};
ghost use Rattle.table_views.specs.Hidden.{hidden};

use acceptor::NoMemory;
use card_forms::FormId;
use markup::Piece::{Number, Text};
use markup::fill;

const HIDDEN_NUMBER: &[u8] = b"\
<input type=\"hidden\" name=\"token\" value=\"$\"><input type=\"hidden\" name=\"id\" value=\"$\">
";

/// Adds the token of a form, and a number as its id.
pub(crate) fn push_hidden_number(
    out: &mut Vec<u8>,
    token: &[u8],
    number: u64,
) -> Result<(), NoMemory>
    ensures { OnOk result (out.new.items ≡ out.old.items ++ hidden token.now number) }
{
    fill(out, HIDDEN_NUMBER, &[Text(token), Number(number)])
}

/// Adds the token and the id of a form.
pub fn push_hidden(out: &mut Vec<u8>, token: &[u8], id: FormId) -> Result<(), NoMemory>
    ensures { OnOk result (out.new.items ≡ out.old.items ++ hidden token.now id) }
{
    push_hidden_number(out, token, id.number())
}
