//! What is said of the fields of a card.

ghost use Rattle.std.specs.Prelude.{◌≡◌, ◌++◌, IfOk, OnOk, flat_map};
ghost use Rattle.std.specs.List.{list_any};
ghost use Rattle.markup.specs.Pieces.{holes};
ghost use Rattle.table_entry_views.specs.Notes.{below_words};
ghost use Rattle.table_entry_views.specs.Notes.{card_words, invalid_if, is_wrong_at, other_words};
ghost use Rattle.table_entry_views.specs.Notes.{field_end, is_changed, note_line, note_words};
ghost use Rattle.table_entry_views.specs.Notes.{field_words, is_fault, number_words, refused_words};
ghost use Rattle.table_entry_views.specs.Notes.{note_at, note_word, numbered, place_of, said_at};
ghost use Rattle.table_entry_views.specs.Notes.{place_of_code, place_of_fault, unsolved_words};

use acceptor::NoMemory;
use attempts::{Unit, Value, print_value};
use card_forms::{CardFault, NumberFault};
use markup::Piece::{Html, Number};
use markup::fill;
use std::alloc::Global;
use texts::Code;
use texts::meanings::meaning_of;

/// What is said of a card. Attempts are 1 to 5.
#[derive(Clone, Copy, Debug, PartialEq, Eq)]
pub enum CardNote {
    /// The competitor's number is not read.
    Number(NumberFault),
    /// An attempt is not read.
    Field {
        attempt: u8,
        fault: scorecard::ScorecardFault,
    },
    /// The fields, each of which is read, are no card.
    Card(CardFault),
    /// By the log that is followed, the card would be refused with this code.
    Refused(Code),
    /// A time is below what anybody has ever done.
    Fast {
        attempt: u8,
    },
    /// A time is less than half of the best single of the round, or of the competitor's in another.
    Half {
        attempt: u8,
    },
    /// A time is less than 0.8 of the competitor's best single in the competition's file.
    BelowBest {
        attempt: u8,
        time: u32,
        best: u32,
    },
    /// A time is less than half of the least best single, in the competition's file, of those who
    /// are in the round.
    BelowField {
        attempt: u8,
        time: u32,
        best: u32,
    },
    /// A time is more than twice or less than half of the others.
    Unlike {
        attempt: u8,
    },
    /// A solution does not solve its scramble.
    Unsolved {
        attempt: u8,
    },
    /// The times of attempts 3 and 4 are those of 1 and 2 again.
    Repeats,
    /// An attempt that counts would change.
    Changes {
        attempt: u8,
    },
}

const HALF: &[u8] = b"\
less than half of the best of this round, or of this competitor's in another: \
is it right?";

/// The place of what is said of no field.
pub(crate) const WHOLE: u8 = 6;

/// The place of what is said of a whole card, or of one of its attempts.
fn place_of_fault(fault: CardFault) -> u8
    ensures { result ≡ place_of_fault fault }
{
    match fault {
        CardFault::Gap { field } => field,
        CardFault::Nothing | CardFault::TooLong => WHOLE,
    }
}

/// The place of the code with which a card would be refused.
fn place_of_code(code: Code) -> u8
    ensures { result ≡ place_of_code code }
{
    match code {
        Code::UnknownCompetitor | Code::NotEntered => 0,
        _ => WHOLE,
    }
}

/// Where a note is: 0 is the competitor's number, 1 to 5 are the attempts, 6 is the card.
fn place_of(note: CardNote) -> u8
    ensures { result ≡ place_of note }
{
    match note {
        CardNote::Number(_) => 0,
        CardNote::Card(fault) => place_of_fault(fault),
        CardNote::Refused(code) => place_of_code(code),
        CardNote::Field { attempt, .. }
        | CardNote::Fast { attempt }
        | CardNote::Half { attempt }
        | CardNote::BelowBest { attempt, .. }
        | CardNote::BelowField { attempt, .. }
        | CardNote::Unlike { attempt }
        | CardNote::Unsolved { attempt }
        | CardNote::Changes { attempt } => attempt,
        CardNote::Repeats => 3,
    }
}

/// Whether a card with this note can't be confirmed.
fn is_fault(note: CardNote) -> bool
    ensures { result ≡ is_fault note }
{
    match note {
        CardNote::Number(_) | CardNote::Field { .. } | CardNote::Card(_) => true,
        CardNote::Refused(_)
        | CardNote::Fast { .. }
        | CardNote::Half { .. }
        | CardNote::BelowBest { .. }
        | CardNote::BelowField { .. }
        | CardNote::Unlike { .. }
        | CardNote::Unsolved { .. }
        | CardNote::Repeats
        | CardNote::Changes { .. } => false,
    }
}

/// Whether a note is a fault.
pub(crate) fn has_fault(notes: &[CardNote]) -> bool
    ensures { result ≡ list_any is_fault notes.now }
{
    notes.iter().any(|note| is_fault(*note))
}

/// What is wrong with a competitor's number, in words.
fn number_words(fault: NumberFault) -> &'static [u8]
    ensures { result.now ≡ number_words fault }
{
    match fault {
        NumberFault::Empty => b"whose card is it?",
        NumberFault::NotANumber => b"a number is 1 to 9999",
    }
}

const MORE_SOLVED: &[u8] = b"more solved than the $ attempted";

/// Adds what is wrong with a field, in words.
fn push_field_words(out: &mut Vec<u8>, fault: scorecard::ScorecardFault) -> Result<(), NoMemory>
    ensures { OnOk result (out.new.items ≡ out.old.items ++ field_words fault) }
{
    use scorecard::ScorecardFault;
    match fault {
        ScorecardFault::Empty => out.extend_from_slice(b"nothing is written"),
        ScorecardFault::NotATime => out.extend_from_slice(b"a time is like 1043, 10.43 or 1:02.33"),
        ScorecardFault::BadSeconds => out.extend_from_slice(b"seconds are below 60"),
        ScorecardFault::OutOfRange => out.extend_from_slice(b"a time is 0.01 to 166:39.99"),
        ScorecardFault::BadPenalty => out.extend_from_slice(b"penalties are +2, +4 to +18"),
        ScorecardFault::NotAResult => out.extend_from_slice(b"a result is like 11/13 58:20"),
        ScorecardFault::BadAttempted => out.extend_from_slice(b"2 to 99 cubes are attempted"),
        ScorecardFault::MoreSolved { attempted } => fill(
            out,
            MORE_SOLVED,
            &[Number(attempted as u64)],
        ),
        ScorecardFault::NoSeconds => out.extend_from_slice(b"a time is 0:01 to 99:59"),
        ScorecardFault::NotMoves => out.extend_from_slice(
            b"write its moves, as R U' F2 Rw x: a number of moves alone is no solution",
        ),
        ScorecardFault::NoMemory => out.extend_from_slice(b"memory ran out"),
    }
}

const GAP: &[u8] = b"attempt $ is empty";

/// Adds why fields are no card.
fn push_card_words(out: &mut Vec<u8>, fault: CardFault) -> Result<(), NoMemory>
    ensures { OnOk result (out.new.items ≡ out.old.items ++ card_words fault) }
{
    match fault {
        CardFault::Gap { field } => fill(out, GAP, &[Number(field as u64)]),
        CardFault::Nothing => out.extend_from_slice(b"nothing is typed"),
        CardFault::TooLong => out.extend_from_slice(
            b"too long for one command: enter one attempt after the other",
        ),
    }
}

/// Whether a code says that what counts was changed.
fn is_changed(code: Code) -> bool
    ensures { result ≡ is_changed code }
{
    matches!(code, Code::Changed)
}

/// Adds what another code means.
fn push_other(out: &mut Vec<u8>, code: Code) -> Result<(), NoMemory>
    ensures { OnOk result (out.new.items ≡ out.old.items ++ other_words code) }
{
    out.extend_from_slice(meaning_of(code).as_bytes())?;
    out.extend_from_slice(b": send it all the same?")?;
    Ok(())
}

/// Adds with which code a card would be refused.
fn push_refused(out: &mut Vec<u8>, code: Code) -> Result<(), NoMemory>
    ensures { OnOk result (out.new.items ≡ out.old.items ++ refused_words code) }
{
    if is_changed(code) {
        out.extend_from_slice(b"the page showed other attempts: is it still right?")
    } else {
        push_other(out, code)
    }
}

const UNSOLVED: &[u8] = b"does not solve scramble $: DNF?";

/// Adds that a solution does not solve the scramble of its attempt.
fn push_unsolved(out: &mut Vec<u8>, attempt: u8) -> Result<(), NoMemory>
    ensures { OnOk result (out.new.items ≡ out.old.items ++ unsolved_words attempt) }
{
    fill(out, UNSOLVED, &[Number(attempt as u64)])
}

const BELOW_BEST: &[u8] = b"\
$ is less than 0.8 of $, this competitor's best by the competition's file: is it right?";

const BELOW_FIELD: &[u8] = b"\
$ is less than half of $, the best in this round by the competition's file: is it right?";

/// Adds with which best a time is compared, in these words.
fn push_below(out: &mut Vec<u8>, words: &[u8], time: u32, best: u32) -> Result<(), NoMemory>
    requires { holes words.now ≡ 2 }
    ensures { OnOk result (out.new.items ≡ out.old.items ++ below_words words.now time best) }
{
    let alloc = *out.allocator();
    let time = print_value(alloc, Value::Number(time), Unit::Time)?;
    let best = print_value(alloc, Value::Number(best), Unit::Time)?;
    fill(out, words, &[Html(&time), Html(&best)])
}

/// Adds a note in words.
fn push_words(out: &mut Vec<u8>, note: CardNote) -> Result<(), NoMemory>
    ensures { OnOk result (out.new.items ≡ out.old.items ++ note_words note) }
{
    match note {
        CardNote::Number(fault) => out.extend_from_slice(number_words(fault)),
        CardNote::Field { fault, .. } => push_field_words(out, fault),
        CardNote::Card(fault) => push_card_words(out, fault),
        CardNote::Refused(code) => push_refused(out, code),
        CardNote::Fast { .. } => {
            out.extend_from_slice(b"nobody has ever been that fast: is it right?")
        }
        CardNote::Half { .. } => out.extend_from_slice(HALF),
        CardNote::BelowBest { time, best, .. } => push_below(out, BELOW_BEST, time, best),
        CardNote::BelowField { time, best, .. } => push_below(out, BELOW_FIELD, time, best),
        CardNote::Unlike { .. } => {
            out.extend_from_slice(b"more than twice or less than half of the others: is it right?")
        }
        CardNote::Unsolved { attempt } => push_unsolved(out, attempt),
        CardNote::Repeats => {
            out.extend_from_slice(b"the times of attempts 1 and 2 again: is it right?")
        }
        CardNote::Changes { .. } => out.extend_from_slice(b"another result counts: change it?"),
    }
}

const NUMBERED: &[u8] = b"$$";

fn push_numbered<'a>(out: &mut Vec<u8>, word: &'a [u8], number: u8) -> Result<(), NoMemory>
    ensures { OnOk result (out.new.items ≡ out.old.items ++ numbered word.now number) }
{
    fill(out, NUMBERED, &[Html(word), Number(number as u64)])
}

/// Adds the word by which a form says that a scoretaker has confirmed a note; for a fault, which
/// can't be confirmed, `-`.
pub(crate) fn push_note_word(out: &mut Vec<u8>, note: CardNote) -> Result<(), NoMemory>
    ensures { OnOk result (out.new.items ≡ out.old.items ++ note_word note) }
{
    match note {
        CardNote::Number(_) | CardNote::Field { .. } | CardNote::Card(_) => out.extend_from_slice(
            b"-",
        ),
        CardNote::Refused(code) => push_numbered(out, b"refused-", code.number()),
        CardNote::Fast { attempt } => push_numbered(out, b"fast-", attempt),
        CardNote::Half { attempt } => push_numbered(out, b"half-", attempt),
        CardNote::BelowBest { attempt, .. } => push_numbered(out, b"best-", attempt),
        CardNote::BelowField { attempt, .. } => push_numbered(out, b"field-", attempt),
        CardNote::Unlike { attempt } => push_numbered(out, b"unlike-", attempt),
        CardNote::Unsolved { attempt } => push_numbered(out, b"unsolved-", attempt),
        CardNote::Repeats => out.extend_from_slice(b"repeats"),
        CardNote::Changes { attempt } => push_numbered(out, b"changes-", attempt),
    }
}

/// The word by which a form says that a scoretaker has confirmed a note; for a fault, which can't
/// be confirmed, `-`.
pub fn note_word(alloc: Global, note: CardNote) -> Result<Vec<u8>, NoMemory>
    ensures { IfOk result (λ word. word.items ≡ note_word note) }
{
    let mut word = Vec::new(alloc);
    push_note_word(&mut word, note)?;
    Ok(word)
}

fn push_note(out: &mut Vec<u8>, note: CardNote) -> Result<(), NoMemory>
    ensures { OnOk result (out.new.items ≡ out.old.items ++ note_line note) }
{
    out.extend_from_slice(b"<strong role=\"alert\">")?;
    push_words(out, note)?;
    out.extend_from_slice(b"</strong>")
}

fn push_note_at(out: &mut Vec<u8>, place: u8, note: CardNote) -> Result<(), NoMemory>
    ensures { OnOk result (out.new.items ≡ out.old.items ++ note_at place note) }
{
    if place_of(note) == place {
        push_note(out, note)
    } else {
        Ok(())
    }
}

/// Adds the notes of a place.
pub(crate) fn push_notes(out: &mut Vec<u8>, place: u8, notes: &[CardNote]) -> Result<(), NoMemory>
    ensures { OnOk result (out.new.items
        ≡ out.old.items ++ flat_map (note_at place) notes.now) }
{
    for note in notes {
        push_note_at(out, place, *note)?;
    }
    Ok(())
}

const SAID_START: &[u8] = b"<span class=\"said\" id=\"said$\">";

/// Adds the notes of a field, at a place, under the id by which the field names what describes it.
#[tactic(auto, unfolding(crate::specs::Notes::said_at))]
pub(crate) fn push_said(out: &mut Vec<u8>, place: u8, notes: &[CardNote]) -> Result<(), NoMemory>
    ensures { OnOk result (out.new.items ≡ out.old.items ++ said_at place notes.now) }
{
    fill(out, SAID_START, &[Number(place as u64)])?;
    push_notes(out, place, notes)?;
    out.extend_from_slice(b"</span>")?;
    Ok(())
}

/// Whether a note is a fault of this place.
fn is_wrong_at(place: u8, note: CardNote) -> bool
    ensures { result ≡ is_wrong_at place note }
{
    place_of(note) == place && is_fault(note)
}

/// Whether one of the notes is a fault of this place.
fn is_wrong(place: u8, notes: &[CardNote]) -> bool
    ensures { result ≡ list_any (is_wrong_at place) notes.now }
{
    notes.iter().any(|note| is_wrong_at(place, *note))
}

/// What says in a field that it has a fault.
fn invalid_if(wrong: bool) -> &'static [u8]
    ensures { result.now ≡ invalid_if wrong }
{
    if wrong {
        b" aria-invalid=\"true\""
    } else {
        b""
    }
}

const FIELD_END: &[u8] = b"\" aria-describedby=\"said$\"";

/// Adds the end of a field, at a place: what describes it, and whether it has a fault.
#[tactic(auto, unfolding(crate::specs::Notes::field_end))]
pub(crate) fn push_field_end(
    out: &mut Vec<u8>,
    place: u8,
    notes: &[CardNote],
) -> Result<(), NoMemory>
    ensures { OnOk result (out.new.items ≡ out.old.items ++ field_end place notes.now) }
{
    fill(out, FIELD_END, &[Number(place as u64)])?;
    out.extend_from_slice(invalid_if(is_wrong(place, notes)))?;
    out.extend_from_slice(b">")?;
    Ok(())
}
