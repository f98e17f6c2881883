//! The scrambles of fewest moves.

ghost use Rattle.std.specs.Prelude.{◌≡◌, ◌++◌, ◌≤◌, OnOk};
ghost use Rattle.formats.specs.Events.{attempts_of};
ghost use Rattle.table_round_views.specs.Scrambles.{scramble_at, scramble_form, scramble_if};
ghost use Rattle.table_round_views.specs.Scrambles.{all_scrambles, rescrambling};
ghost use Rattle.table_round_views.specs.Scrambles.{scrambles, standing_scramble};

use acceptor::NoMemory;
use card_forms::FormId;
use commands::Meet;
use cube::Move;
use formats::{Event, Format, attempts_of};
use markup::Piece::{Number, Text};
use markup::fill;
use table_views::{
    PageContext, digits_of, id_at, is_latest, push_button, push_round_form, push_text_field,
};
use texts::RoundId;

/// What a form with a scramble says.
#[derive(Clone, Copy)]
pub(crate) struct Wording<'a> {
    /// The word of its command.
    pub command: &'a [u8],
    /// What the field of the moves is filled in with.
    pub moves: &'a [u8],
    /// What its button says.
    pub button: &'a [u8],
}

/// Adds a form with the scramble of an attempt.
fn push_scramble_form(
    out: &mut Vec<u8>,
    wording: Wording<'_>,
    token: &[u8],
    form: FormId,
    id: RoundId,
    attempt: u8,
) -> Result<(), NoMemory>
    ensures { OnOk result (out.new.items ≡ out.old.items
        ++ scramble_form wording.entry.command.now wording.entry.moves.now
        wording.entry.button.now token.now form id attempt) }
{
    let digits = digits_of(*out.allocator(), attempt as u32)?;
    push_round_form(out, token, form, wording.command, id)?;
    push_text_field(out, b"attempt", b"Scramble of attempt", &digits)?;
    push_text_field(out, b"moves", b"moves", wording.moves)?;
    push_button(out, wording.button)
}

/// Adds the form that changes the scramble of an attempt from these moves, in edition 4.
fn push_rescrambling(
    out: &mut Vec<u8>,
    mends: bool,
    moves: &[u8],
    token: &[u8],
    form: FormId,
    id: RoundId,
    attempt: u8,
) -> Result<(), NoMemory>
    ensures { OnOk result (out.new.items
        ≡ out.old.items ++ rescrambling mends moves.now token.now form id attempt) }
{
    if !mends {
        return Ok(());
    }
    let wording = Wording {
        command: b"RSC",
        moves,
        button: b"Change the scramble",
    };
    push_scramble_form(out, wording, token, form, id, attempt)
}

const STANDING: &[u8] = b"<p>Scramble $: <code>$</code></p>\n";

/// Adds the scramble that an attempt has, and the form that changes it.
#[tactic(auto, unfolding(crate::specs::Scrambles::standing_scramble))]
fn push_standing(
    out: &mut Vec<u8>,
    mends: bool,
    moves: &[Move],
    token: &[u8],
    form: FormId,
    id: RoundId,
    attempt: u8,
) -> Result<(), NoMemory>
    ensures { OnOk result (out.new.items
        ≡ out.old.items ++ standing_scramble mends moves.now token.now form id attempt) }
{
    let text = cube::notation::print(*out.allocator(), moves)?;
    fill(out, STANDING, &[Number(attempt as u64), Text(&text)])?;
    push_rescrambling(out, mends, &text, token, form, id, attempt)
}

/// Adds the scramble of an attempt, or the form that sets it.
fn push_scramble(
    out: &mut Vec<u8>,
    meet: &Meet,
    token: &[u8],
    form: FormId,
    id: RoundId,
    attempt: u8,
) -> Result<(), NoMemory>
    requires { 1 ≤ attempt }
    ensures { OnOk result (out.new.items
        ≡ out.old.items ++ scramble_at meet.now.accepted token.now form id attempt) }
{
    match meet.scramble(id.event, id.round, attempt) {
        Some(moves) => push_standing(out, is_latest(meet), moves, token, form, id, attempt),
        None => {
            let wording = Wording {
                command: b"SCR",
                moves: b"",
                button: b"Set the scramble",
            };
            push_scramble_form(out, wording, token, form, id, attempt)
        }
    }
}

/// Adds the scramble of an attempt, or its form, where the round has this many attempts.
fn push_scramble_if(
    out: &mut Vec<u8>,
    around: &PageContext<'_>,
    form: FormId,
    id: RoundId,
    count: u8,
    attempt: u8,
) -> Result<(), NoMemory>
    requires { 1 ≤ attempt }
    ensures { OnOk result (out.new.items
        ≡ out.old.items ++ scramble_if around.entry.now form id count attempt) }
{
    if attempt <= count {
        push_scramble(out, around.mirror.meet(), around.token, form, id, attempt)
    } else {
        Ok(())
    }
}

const NO_SCRAMBLES: &[u8] = b"\
<h2>Scrambles</h2>
<p>Each button sets the scramble of its attempt to the moves in its field.</p>
";

/// Adds the scrambles of a round of this many attempts, at most three.
fn push_all(
    out: &mut Vec<u8>,
    around: &PageContext<'_>,
    id: RoundId,
    count: u8,
) -> Result<(), NoMemory>
    ensures { OnOk result (out.new.items
        ≡ out.old.items ++ all_scrambles around.entry.now id count) }
{
    out.extend_from_slice(NO_SCRAMBLES)?;
    push_scramble_if(out, around, id_at(around.ids, 2), id, count, 1)?;
    push_scramble_if(out, around, id_at(around.ids, 3), id, count, 2)?;
    push_scramble_if(out, around, id_at(around.ids, 4), id, count, 3)
}

/// Adds the scrambles of a round of fewest moves; nothing at other events.
pub(crate) fn push_scrambles(
    out: &mut Vec<u8>,
    around: &PageContext<'_>,
    id: RoundId,
    format: Format,
) -> Result<(), NoMemory>
    ensures { OnOk result (out.new.items ≡ out.old.items
        ++ scrambles id.event around.entry.now id (attempts_of format)) }
{
    match id.event {
        Event::FewestMoves => push_all(out, around, id, attempts_of(format)),
        _ => Ok(()),
    }
}
