//! A card as it was typed.

ghost use Rattle.std.specs.Prelude.{◌≡◌, ◌++◌, OnOk};
ghost use Rattle.attempts.specs.Texts.{multi_text, time_text};
ghost use Rattle.cube.specs.notation.Notation.{spelling as moves_text};
ghost use Rattle.card_forms.specs.Readings.{shown_at};
ghost use Rattle.scorecard.specs.Typed.{entered_typed, penalty_text};
ghost use Rattle.table_views.specs.Typed.{outcome_span, outcome_typed, span_start, typed_from};

use acceptor::NoMemory;
use attempts::{Unit, Value, push_two_digits};
use cube::Move;
use markup::Piece::Number;
use markup::fill;
use round_words::push_value;
use texts::Entered;

const PENALTIES: &[u8] = b"+$";

/// Adds the seconds that penalties add, after a plus; nothing where there is none.
#[tactic(auto, unfolding(markup::specs::Pieces::fill))]
fn push_penalties(out: &mut Vec<u8>, penalties: u8) -> Result<(), NoMemory>
    ensures { OnOk result (out.new.items ≡ out.old.items ++ penalty_text penalties) }
{
    if penalties == 0 {
        return Ok(());
    }
    fill(out, PENALTIES, &[Number(2 * penalties as u64)])
}

/// Adds hundredths of a second, as they are typed.
fn push_time(out: &mut Vec<u8>, hundredths: u32) -> Result<(), NoMemory>
    ensures { OnOk result (out.new.items ≡ out.old.items ++ time_text hundredths) }
{
    push_value(out, Value::Number(hundredths), Unit::Time)
}

/// Adds the moves of a solution.
fn push_moves(out: &mut Vec<u8>, moves: &[Move]) -> Result<(), NoMemory>
    ensures { OnOk result (out.new.items ≡ out.old.items ++ moves_text moves.now) }
{
    let text = cube::notation::print(*out.allocator(), moves)?;
    out.extend_from_slice(&text)
}

const MULTI: &[u8] = b"$/$ $:";

/// Adds a result of multi-blind.
#[tactic(auto, unfolding(markup::specs::Pieces::fill))]
fn push_multi(out: &mut Vec<u8>, solved: u8, attempted: u8, seconds: u16) -> Result<(), NoMemory>
    ensures { OnOk result (out.new.items
        ≡ out.old.items ++ multi_text solved attempted seconds) }
{
    fill(
        out,
        MULTI,
        &[
            Number(solved as u64),
            Number(attempted as u64),
            Number(seconds as u64 / 60),
        ],
    )?;
    push_two_digits(out, seconds as u32 % 60)
}

/// Adds what is entered for an attempt, as a scoretaker may type it.
pub fn push_entered(out: &mut Vec<u8>, entered: &Entered) -> Result<(), NoMemory>
    ensures { OnOk result (out.new.items ≡ out.old.items ++ entered_typed entered.now) }
{
    match entered {
        Entered::Time {
            hundredths,
            penalties,
        } => {
            push_time(out, *hundredths)?;
            push_penalties(out, *penalties)
        }
        Entered::Solution { moves } => push_moves(out, moves.as_slice()),
        Entered::Multi {
            solved,
            attempted,
            seconds,
        } => push_multi(out, *solved, *attempted, *seconds),
        Entered::Dnf => out.extend_from_slice(b"DNF"),
        Entered::Dns => out.extend_from_slice(b"DNS"),
    }
}

/// Adds the value at a place, counted from 0, if there is one.
pub fn push_shown(
    out: &mut Vec<u8>,
    unit: Unit,
    was: &[Value],
    place: usize,
) -> Result<(), NoMemory>
    ensures { OnOk result (out.new.items ≡ out.old.items ++ shown_at unit was.now place) }
{
    match was.get(place) {
        Some(value) => push_value(out, *value, unit),
        None => Ok(()),
    }
}

/// Adds what a card says of the attempt at a place, counted from 0; if it leaves the attempt as it
/// is, what counted before.
fn push_outcome(
    out: &mut Vec<u8>,
    unit: Unit,
    was: &[Value],
    place: usize,
    outcome: &Option<Entered>,
) -> Result<(), NoMemory>
    ensures { OnOk result (out.new.items
        ≡ out.old.items ++ outcome_typed unit was.now place outcome.now) }
{
    match outcome {
        Some(entered) => push_entered(out, entered),
        None => push_shown(out, unit, was, place),
    }
}

/// How the words of an attempt begin: one that stays is marked.
fn span_start(outcome: &Option<Entered>) -> &'static [u8]
    ensures { result.now ≡ span_start outcome.now }
{
    match outcome {
        Some(_) => b"<span>",
        None => b"<span class=\"kept\">",
    }
}

fn push_span(
    out: &mut Vec<u8>,
    unit: Unit,
    was: &[Value],
    place: usize,
    outcome: &Option<Entered>,
) -> Result<(), NoMemory>
    ensures { OnOk result (out.new.items
        ≡ out.old.items ++ outcome_span unit was.now place outcome.now) }
{
    out.extend_from_slice(span_start(outcome))?;
    push_outcome(out, unit, was, place, outcome)?;
    out.extend_from_slice(b"</span>")
}

/// Adds what a card says of each attempt.
pub(crate) fn push_typed(
    out: &mut Vec<u8>,
    unit: Unit,
    was: &[Value],
    now: &[Option<Entered>],
) -> Result<(), NoMemory>
    ensures { OnOk result (out.new.items ≡ out.old.items ++ typed_from unit was.now 0 now.now) }
{
    for (place, outcome) in now.iter().enumerate() {
        push_span(out, unit, was, place, outcome)?;
    }
    Ok(())
}
