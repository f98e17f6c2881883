//! The form that opens a closed round again.

ghost use Rattle.std.specs.Prelude.{◌≡◌, ◌++◌, OnOk};
ghost use Rattle.table_round_views.specs.Reopening.{again, again_form, is_followed};

use acceptor::NoMemory;
use card_forms::FormId;
use commands::Meet;
use formats::LAST_ROUND;
use round_counts::round_opened;
use table_views::{PageContext, id_at, is_latest, push_button, push_round_form};
use texts::RoundId;

/// Whether the next round is opened.
fn is_followed(meet: &Meet, id: RoundId) -> bool
    ensures { result ≡ is_followed meet.now.accepted id }
{
    if id.round >= LAST_ROUND {
        return false;
    }
    let next = RoundId {
        event: id.event,
        round: id.round + 1,
    };
    round_opened(meet, next).is_some()
}

/// Adds the form that opens a closed round again.
fn push_again_form(
    out: &mut Vec<u8>,
    token: &[u8],
    form: FormId,
    id: RoundId,
) -> Result<(), NoMemory>
    ensures { OnOk result (out.new.items ≡ out.old.items ++ again_form token.now form id) }
{
    out.extend_from_slice(b"<p>It can be opened again until the next round is opened.</p>\n")?;
    push_round_form(out, token, form, b"REOPEN", id)?;
    push_button(out, b"Open it again")
}

/// Adds the form that opens a closed round again, unless the next one is opened: in edition 4;
/// before it, what edition 4 would allow.
pub(crate) fn push_again(
    out: &mut Vec<u8>,
    around: &PageContext<'_>,
    id: RoundId,
) -> Result<(), NoMemory>
    ensures { OnOk result (out.new.items ≡ out.old.items ++ again around.entry.now id) }
{
    let meet = around.mirror.meet();
    if is_followed(meet, id) {
        return Ok(());
    }
    if is_latest(meet) {
        return push_again_form(out, around.token, id_at(around.ids, 0), id);
    }
    out.extend_from_slice(
        b"<p>With <a href=\"/rounds\">edition 4</a> it could be opened again.</p>\n",
    )
}
