//! The form that changes how a round is run.

ghost use Rattle.std.specs.Prelude.{◌≡◌, ◌++◌, OnOk};
ghost use Rattle.table_round_views.specs.Changing.{changing, early_words, settings_form};

use crate::opening::push_rule_fields;
use acceptor::NoMemory;
use card_forms::FormId;
use formats::Event;
use round_counts::OpenedRound;
use table_views::{PageContext, id_at, is_latest, push_button, push_round_form};
use texts::{RoundId, Settings};

const SETTINGS_HEAD: &[u8] = b"\
<h2>Change format, cutoff and limit</h2>
<p>The button sets these to what the fields say, until the first attempt.</p>
";

/// Adds the form that changes format, cutoff and limit, with what holds now chosen beforehand.
#[tactic(auto, unfolding(crate::specs::Changing::settings_form))]
fn push_settings_form(
    out: &mut Vec<u8>,
    token: &[u8],
    form: FormId,
    id: RoundId,
    settings: Settings,
) -> Result<(), NoMemory>
    ensures { OnOk result (out.new.items
        ≡ out.old.items ++ settings_form token.now form id settings) }
{
    out.extend_from_slice(SETTINGS_HEAD)?;
    push_round_form(out, token, form, b"SET", id)?;
    push_rule_fields(
        out,
        id.event,
        Some(settings.format),
        settings.cutoff,
        settings.limit,
    )?;
    push_button(out, b"Change format, cutoff and limit")
}

const EARLY_RULES: &[u8] = b"\
<p>With <a href=\"/rounds\">edition 4</a> format, cutoff and limit could be changed before the \
first attempt.</p>
";

const EARLY_SCRAMBLE: &[u8] = b"\
<p>With <a href=\"/rounds\">edition 4</a> a scramble could be changed, and before the first \
attempt format and cutoff.</p>
";

/// What edition 4 would allow in an open round.
fn early_words(event: Event, attempted: bool) -> &'static [u8]
    ensures { result.now ≡ early_words event attempted }
{
    match event {
        Event::FewestMoves => { EARLY_SCRAMBLE }
        _ if attempted => b"",
        _ => { EARLY_RULES }
    }
}

/// Adds the form that changes how an open round is run, in edition 4 and while nobody has an
/// attempt; before edition 4, what it would allow.
pub(crate) fn push_changing(
    out: &mut Vec<u8>,
    around: &PageContext<'_>,
    id: RoundId,
    round: OpenedRound<'_>,
) -> Result<(), NoMemory>
    ensures { OnOk result (out.new.items ≡ out.old.items ++ changing around.entry.now id
        (round.entry.settings, round.entry.table.now)) }
{
    let attempted = round.table.is_attempted(1);
    if !is_latest(around.mirror.meet()) {
        return out.extend_from_slice(early_words(id.event, attempted));
    }
    if attempted {
        return Ok(());
    }
    push_settings_form(out, around.token, id_at(around.ids, 5), id, round.settings)
}
