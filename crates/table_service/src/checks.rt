//! What is said of a card before it is taken.

ghost use Rattle.std.specs.Prelude.{◌≡◌, ◌++◌, ◌∷◌, [], ◌<◌, ◌≤◌, ◌^◌, IfOk, IfSome, OnOk, All};
ghost use Rattle.std.specs.{Prelude.length, List.list_all, List.list_any, Option.option_copied};
ghost use Rattle.texts.specs.Spelling.{IsEntered};
ghost use Rattle.commands.specs.Accepted.{is_solution, scramble_of};
ghost use Rattle.table_service.specs.Checks.{all_doubts, best_elsewhere, file_doubts};
ghost use Rattle.table_service.specs.Checks.{is_unlike_those, unsolved_notes};
ghost use Rattle.table_service.specs.Checks.{best_here, change_notes, refused_notes, single_beside};
ghost use Rattle.table_service.specs.Checks.{bounds_of, change_at, fast_at, left_notes, time_notes};
ghost use Rattle.table_service.specs.Checks.{doubts, half_at, is_again, is_fast, is_half, is_short};
ghost use Rattle.table_service.specs.Checks.{enters, is_left, is_long, left_of, time_at};
ghost use Rattle.table_service.specs.Checks.{field_note, is_entered, is_half_of, unsolved_at};
ghost use Rattle.table_service.specs.Checks.{field_notes, number_notes, repeat_notes, unread_notes};
ghost use Rattle.table_service.specs.Checks.{has_time, is_failed, is_repeat, is_unlike, unlike_at};

use crate::refusing::{refusal_of, value_at, values_left};
use attempts::Value;
use card_forms::{FieldFaults, NumberFault};
use commands::Meet;
use competition_file::CompetitionFile;
use round_counts::round_opened;
use std::alloc::{AllocError, Global};
use table_entry_views::{CardNote, best_in, floor_of, note_by_file, single_of, time_of};
use table_views::standing;
use texts::{CardEntry, Code, Entered, RoundId};

/// The rounds that an event may have.
const ROUNDS: &[u8] = &[1, 2, 3, 4];

/// Puts a note after the others.
fn put(notes: &mut Vec<CardNote>, note: CardNote) -> Result<(), AllocError>
    ensures { OnOk result (notes.new.items ≡ notes.old.items ++ note ∷ []) }
{
    notes.push(note)?;
    Ok(())
}

/// Whether a field has a time.
fn has_time(field: &Option<Entered>) -> bool
    ensures { result ≡ has_time field.now }
{
    time_of(field).is_some()
}

/// Whether a field's time, if it has one, is less than half of this one.
fn is_short(time: u64, field: &Option<Entered>) -> bool
    ensures { result ≡ is_short time field.now }
{
    match time_of(field) {
        Some(other) => 2 * other < time,
        None => true,
    }
}

/// Whether a field's time, if it has one, is more than twice this one.
fn is_long(time: u64, field: &Option<Entered>) -> bool
    requires { time < 2 ^ 33 }
    ensures { result ≡ is_long time field.now }
{
    match time_of(field) {
        Some(other) => 2 * time < other,
        None => true,
    }
}

/// Whether each time of these fields is less than half of this one.
fn are_short(time: u64, fields: &[Option<Entered>]) -> bool
    ensures { result ≡ list_all (is_short time) fields.now }
{
    fields.iter().all(|field| is_short(time, field))
}

/// Whether each time of these fields is more than twice this one.
fn are_long(time: u64, fields: &[Option<Entered>]) -> bool
    requires { time < 2 ^ 33 }
    ensures { result ≡ list_all (is_long time) fields.now }
{
    fields.iter().all(|field| is_long(time, field))
}

/// Whether one of these fields has a time.
fn have_time(fields: &[Option<Entered>]) -> bool
    ensures { result ≡ list_any has_time fields.now }
{
    fields.iter().any(|field| has_time(field))
}

/// Whether a time is more than twice the greatest, or less than half of the least, of the times in
/// these fields, which come before and after it. There has to be one.
fn is_unlike_those(time: u64, before: &[Option<Entered>], after: &[Option<Entered>]) -> bool
    requires { time < 2 ^ 33 }
    ensures { result ≡ is_unlike_those time (before.now ++ after.now) }
{
    let is_one = have_time(before) || have_time(after);
    let is_greater = are_short(time, before) && are_short(time, after);
    let is_less = are_long(time, before) && are_long(time, after);
    is_one && (is_greater || is_less)
}

/// Whether the time of a field is more than twice the greatest, or less than half of the least, of
/// the times in the other fields.
fn is_unlike(fields: &[Option<Entered>], place: usize) -> bool
    requires { place < length fields.now }
    ensures { result ≡ is_unlike fields.now place }
{
    match time_of(&fields[place]) {
        Some(time) => is_unlike_those(time, &fields[..place], &fields[place + 1..]),
        None => false,
    }
}

/// What the times of a card are compared with, in hundredths of a second.
#[derive(Clone, Copy)]
pub(crate) struct Bounds {
    /// No result of the event has ever been below this; 0 where it is not known.
    floor: u32,
    /// The best single of the round.
    here: Option<u32>,
    /// The competitor's best single in the other rounds of the event.
    elsewhere: Option<u32>,
}

/// Whether a field's time is below a floor.
fn is_fast(floor: u32, field: &Option<Entered>) -> bool
    ensures { result ≡ is_fast floor field.now }
{
    match time_of(field) {
        Some(time) => time < u64::from(floor),
        None => false,
    }
}

/// Whether a time is less than half of a single, if there is one.
fn is_half_of(time: u64, single: Option<u32>) -> bool
    requires { time < 2 ^ 33 }
    ensures { result ≡ is_half_of time single }
{
    match single {
        Some(single) => 2 * time < u64::from(single),
        None => false,
    }
}

/// Whether a field's time is less than half of the best single of the round, or of the
/// competitor's in another.
fn is_half(bounds: Bounds, field: &Option<Entered>) -> bool
    ensures { result ≡ is_half bounds field.now }
{
    match time_of(field) {
        Some(time) => is_half_of(time, bounds.here) || is_half_of(time, bounds.elsewhere),
        None => false,
    }
}

/// Notes a time that nobody has ever been below.
fn note_if_fast(
    notes: &mut Vec<CardNote>,
    bounds: Bounds,
    fields: &[Option<Entered>],
    place: usize,
) -> Result<(), AllocError>
    requires within { place < length fields.now }
    requires few { place < 5 }
    ensures { OnOk result (notes.new.items ≡ notes.old.items ++ fast_at bounds fields.now place) }
{
    if is_fast(bounds.floor, &fields[place]) {
        let attempt = place as u8 + 1;
        put(notes, CardNote::Fast { attempt })
    } else {
        Ok(())
    }
}

/// Notes a time that is less than half of the singles before it.
fn note_if_half(
    notes: &mut Vec<CardNote>,
    bounds: Bounds,
    fields: &[Option<Entered>],
    place: usize,
) -> Result<(), AllocError>
    requires within { place < length fields.now }
    requires few { place < 5 }
    ensures { OnOk result (notes.new.items ≡ notes.old.items ++ half_at bounds fields.now place) }
{
    if is_half(bounds, &fields[place]) {
        let attempt = place as u8 + 1;
        put(notes, CardNote::Half { attempt })
    } else {
        Ok(())
    }
}

/// Notes a time that is unlike the others.
fn note_if_unlike(
    notes: &mut Vec<CardNote>,
    fields: &[Option<Entered>],
    place: usize,
) -> Result<(), AllocError>
    requires within { place < length fields.now }
    requires few { place < 5 }
    ensures { OnOk result (notes.new.items ≡ notes.old.items ++ unlike_at fields.now place) }
{
    if is_unlike(fields, place) {
        let attempt = place as u8 + 1;
        put(notes, CardNote::Unlike { attempt })
    } else {
        Ok(())
    }
}

/// Notes what is asked of the time at a place.
fn note_time(
    notes: &mut Vec<CardNote>,
    bounds: Bounds,
    fields: &[Option<Entered>],
    place: usize,
) -> Result<(), AllocError>
    requires within { place < length fields.now }
    requires few { place < 5 }
    ensures { OnOk result (notes.new.items ≡ notes.old.items ++ time_at bounds fields.now place) }
{
    note_if_fast(notes, bounds, fields, place)?;
    note_if_half(notes, bounds, fields, place)?;
    note_if_unlike(notes, fields, place)?;
    Ok(())
}

/// Notes what is asked of the times.
fn note_times(
    notes: &mut Vec<CardNote>,
    bounds: Bounds,
    fields: &[Option<Entered>],
) -> Result<(), AllocError>
    ensures { OnOk result (notes.new.items ≡ notes.old.items ++ time_notes bounds fields.now) }
{
    for place in 0..fields.len().min(5) {
        note_time(notes, bounds, fields, place)?;
    }
    Ok(())
}

/// The best single that counts in a round, if it was opened.
fn best_here(meet: &Meet, id: RoundId) -> Result<Option<u32>, AllocError>
    ensures { IfOk result (λ best. best ≡ best_here meet.now.accepted id) }
{
    match round_opened(meet, id) {
        Some(round) => best_in(round.table),
        None => Ok(None),
    }
}

/// The best single that counts of a competitor in a round of the event that is not this one.
fn single_beside(meet: &Meet, id: RoundId, number: u16, round: u8) -> Option<u32>
    ensures { result ≡ single_beside meet.now.accepted id number round }
{
    if round == id.round {
        return None;
    }
    let other = RoundId {
        event: id.event,
        round,
    };
    single_of(standing(meet, other, number))
}

/// The best single that counts of a competitor in the other rounds of the event.
fn best_elsewhere(meet: &Meet, id: RoundId, number: u16) -> Option<u32>
    ensures { result ≡ best_elsewhere meet.now.accepted id number }
{
    ROUNDS
        .iter()
        .filter_map(|round| single_beside(meet, id, number, *round))
        .min()
}

/// What the times of a card are compared with.
fn bounds_of(meet: &Meet, card: &CardEntry) -> Result<Bounds, AllocError>
    ensures { IfOk result (λ bounds. bounds ≡ bounds_of meet.now.accepted card.entry.now) }
{
    Ok(Bounds {
        floor: floor_of(card.id.event),
        here: best_here(meet, card.id)?,
        elsewhere: best_elsewhere(meet, card.id, card.number),
    })
}

/// Notes that a card would be refused with a code.
fn note_refusal(notes: &mut Vec<CardNote>, code: Option<Code>) -> Result<(), AllocError>
    ensures { OnOk result (notes.new.items ≡ notes.old.items ++ refused_notes code) }
{
    match code {
        Some(code) => put(notes, CardNote::Refused(code)),
        None => Ok(()),
    }
}

/// Whether what counts for an attempt is what a card leaves there.
pub(crate) fn is_left(was: Option<Value>, left: Option<Value>) -> bool
    ensures { result ≡ is_left was left }
{
    match (was, left) {
        (Some(was), Some(left)) => was == left,
        (None, None) => true,
        _ => false,
    }
}

/// Notes an attempt that counts and would change, by its place, counted from 0.
fn note_change(
    notes: &mut Vec<CardNote>,
    was: &[Value],
    left: &[Value],
    place: usize,
) -> Result<(), AllocError>
    requires { place < 5 }
    ensures { OnOk result (notes.new.items
        ≡ notes.old.items ++ change_at was.now left.now place) }
{
    if is_left(value_at(was, place), value_at(left, place)) {
        return Ok(());
    }
    let attempt = place as u8 + 1;
    put(notes, CardNote::Changes { attempt })
}

/// Notes each attempt that counts and would change: these count, and the card leaves those.
fn note_changes(notes: &mut Vec<CardNote>, was: &[Value], left: &[Value]) -> Result<(), AllocError>
    ensures { OnOk result (notes.new.items
        ≡ notes.old.items ++ change_notes was.now left.now) }
{
    for place in 0..was.len().min(5) {
        note_change(notes, was, left, place)?;
    }
    Ok(())
}

/// Whether a solution is entered.
fn enters_solution(field: &Option<Entered>) -> bool
    ensures { result ≡ enters is_solution field.now }
{
    matches!(field, Some(Entered::Solution { .. }))
}

/// Whether a value is there, and is a DNF.
fn is_failed(value: Option<Value>) -> bool
    ensures { result ≡ is_failed value }
{
    match value {
        Some(Value::Dnf) => true,
        _ => false,
    }
}

/// Notes a solution, at a place, that counts DNF under the scramble of its attempt.
fn note_if_unsolved(
    notes: &mut Vec<CardNote>,
    meet: &Meet,
    id: RoundId,
    now: &[Option<Entered>],
    left: &[Value],
    at: usize,
) -> Result<(), AllocError>
    requires within { at < length now.now }
    requires few { at < 5 }
    ensures { OnOk result (notes.new.items ≡ notes.old.items
        ++ unsolved_at (scramble_of meet.now.accepted id.event id.round) now.now left.now at) }
{
    let attempt = at as u8 + 1;
    if enters_solution(&now[at])
        && meet.scramble(id.event, id.round, attempt).is_some()
        && is_failed(value_at(left, at))
    {
        put(notes, CardNote::Unsolved { attempt })
    } else {
        Ok(())
    }
}

/// Notes the solutions that do not solve their scrambles, where a card leaves these values.
fn note_unsolved(
    notes: &mut Vec<CardNote>,
    meet: &Meet,
    id: RoundId,
    now: &[Option<Entered>],
    left: &[Value],
) -> Result<(), AllocError>
    ensures { OnOk result (notes.new.items ≡ notes.old.items
        ++ unsolved_notes (scramble_of meet.now.accepted id.event id.round) now.now left.now) }
{
    for at in 0..now.len().min(5) {
        note_if_unsolved(notes, meet, id, now, left, at)?;
    }
    Ok(())
}

/// Whether two attempts are results, and the same.
fn is_again(first: Option<Value>, again: Option<Value>) -> bool
    ensures { result ≡ is_again first again }
{
    match (first, again) {
        (Some(Value::Number(first)), Some(Value::Number(again))) => first == again,
        _ => false,
    }
}

/// Whether something is entered for the attempt at a place, counted from 0.
fn is_entered(now: &[Option<Entered>], at: usize) -> bool
    ensures { result ≡ is_entered now.now at }
{
    match now.get(at) {
        Some(field) => field.is_some(),
        None => false,
    }
}

/// Whether attempts 3 and 4, or 4 and 5, one of which is entered, are left as results, those of 1
/// and 2 again.
fn is_repeat(now: &[Option<Entered>], left: &[Value]) -> bool
    ensures { result ≡ is_repeat now.now left.now }
{
    (is_entered(now, 2) || is_entered(now, 3))
        && is_again(value_at(left, 0), value_at(left, 2))
        && is_again(value_at(left, 1), value_at(left, 3))
        || (is_entered(now, 3) || is_entered(now, 4))
            && is_again(value_at(left, 0), value_at(left, 3))
            && is_again(value_at(left, 1), value_at(left, 4))
}

/// Notes that the first two results come again.
fn note_repeats(
    notes: &mut Vec<CardNote>,
    now: &[Option<Entered>],
    left: &[Value],
) -> Result<(), AllocError>
    ensures { OnOk result (notes.new.items
        ≡ notes.old.items ++ repeat_notes now.now left.now) }
{
    if is_repeat(now, left) {
        put(notes, CardNote::Repeats)
    } else {
        Ok(())
    }
}

/// Notes what is asked of the values that a card leaves.
fn note_left(
    notes: &mut Vec<CardNote>,
    meet: &Meet,
    card: &CardEntry,
    left: &[Value],
) -> Result<(), AllocError>
    ensures { OnOk result (notes.new.items ≡ notes.old.items
        ++ left_notes (scramble_of meet.now.accepted card.entry.now.id.event
        card.entry.now.id.round) card.entry.now left.now) }
{
    note_unsolved(notes, meet, card.id, card.now.as_slice(), left)?;
    note_repeats(notes, card.now.as_slice(), left)?;
    note_changes(notes, card.was.as_slice(), left)?;
    Ok(())
}

/// The values that a card leaves in its round; none, where the round was not opened.
fn left_of(alloc: Global, meet: &Meet, card: &CardEntry) -> Result<Vec<Value>, AllocError>
    requires few { length card.now.now < 256 }
    requires entered { All (λ o. IfSome o IsEntered) card.now.now }
    ensures { IfOk result (λ left. left.items ≡ left_of meet.now.accepted card.entry.now) }
{
    match meet.settings(card.id.event, card.id.round) {
        Some(settings) => values_left(alloc, meet, card, settings),
        None => Ok(Vec::new(alloc)),
    }
}

/// What is to be confirmed of a card, where the commands so far come to this meet: with which code
/// it would be refused; each time that is below every result that the event ever had, that is less
/// than half of the best single of the round or of the competitor's in another, or that is unlike
/// the others; each solution that does not solve its scramble; the first two results again; and
/// each attempt that counts and would change.
fn doubts_of(alloc: Global, card: &CardEntry, meet: &Meet) -> Result<Vec<CardNote>, AllocError>
    requires few { length card.now.now < 256 }
    requires entered { All (λ o. IfSome o IsEntered) card.now.now }
    ensures { IfOk result (λ notes. notes.items ≡ doubts meet.now.accepted card.entry.now) }
{
    let mut notes = Vec::new(alloc);
    note_refusal(&mut notes, refusal_of(alloc, meet, card)?)?;
    note_times(&mut notes, bounds_of(meet, card)?, card.now.as_slice())?;
    let left = left_of(alloc, meet, card)?;
    note_left(&mut notes, meet, card, &left)?;
    Ok(notes)
}

/// Notes what is to be confirmed of a card by the competition's file, where there is one.
fn note_file(
    notes: &mut Vec<CardNote>,
    competition: Option<&CompetitionFile>,
    meet: &Meet,
    card: &CardEntry,
) -> Result<(), AllocError>
    requires { length card.now.now < 256 }
    ensures { OnOk result (notes.new.items ≡ notes.old.items
        ++ file_doubts (option_copied competition.entry) meet.now.accepted card.entry.now) }
{
    match competition {
        Some(file) => note_by_file(notes, file, meet, card),
        None => Ok(()),
    }
}

/// All that is to be confirmed of a card: what `doubts_of` says, and what the competition's file
/// says, where there is one.
pub(crate) fn all_doubts_of(
    alloc: Global,
    card: &CardEntry,
    meet: &Meet,
    competition: Option<&CompetitionFile>,
) -> Result<Vec<CardNote>, AllocError>
    requires few { length card.now.now < 256 }
    requires entered { All (λ o. IfSome o IsEntered) card.now.now }
    ensures { IfOk result (λ notes. notes.items
        ≡ all_doubts (option_copied competition.entry) meet.now.accepted card.entry.now) }
{
    let mut notes = doubts_of(alloc, card, meet)?;
    note_file(&mut notes, competition, meet, card)?;
    Ok(notes)
}

/// A note alone.
pub(crate) fn only(alloc: Global, note: CardNote) -> Result<Vec<CardNote>, AllocError>
    ensures { IfOk result (λ notes. notes.items ≡ note ∷ []) }
{
    let mut notes = Vec::new(alloc);
    put(&mut notes, note)?;
    Ok(notes)
}

/// Notes what is wrong with the competitor's number.
fn note_number(notes: &mut Vec<CardNote>, fault: Option<NumberFault>) -> Result<(), AllocError>
    ensures { OnOk result (notes.new.items ≡ notes.old.items ++ number_notes fault) }
{
    match fault {
        Some(fault) => put(notes, CardNote::Number(fault)),
        None => Ok(()),
    }
}

/// Notes what is wrong with the field of an attempt.
fn note_field(
    notes: &mut Vec<CardNote>,
    attempt: u8,
    fault: Option<scorecard::ScorecardFault>,
) -> Result<(), AllocError>
    ensures { OnOk result (notes.new.items ≡ notes.old.items ++ field_note attempt fault) }
{
    match fault {
        Some(fault) => put(notes, CardNote::Field { attempt, fault }),
        None => Ok(()),
    }
}

/// Notes what is wrong with the fields of the attempts.
fn note_fields(
    notes: &mut Vec<CardNote>,
    faults: &[Option<scorecard::ScorecardFault>],
) -> Result<(), AllocError>
    requires { length faults.now ≤ 5 }
    ensures { OnOk result (notes.new.items ≡ notes.old.items ++ field_notes 1 faults.now) }
{
    for (place, fault) in faults.iter().enumerate() {
        note_field(notes, place as u8 + 1, *fault)?;
    }
    Ok(())
}

/// What is said of a card that was not read.
pub(crate) fn unread(alloc: Global, faults: &FieldFaults) -> Result<Vec<CardNote>, AllocError>
    ensures { IfOk result (λ notes. notes.items ≡ unread_notes faults.now) }
{
    let mut notes = Vec::new(alloc);
    note_number(&mut notes, faults.number)?;
    note_fields(&mut notes, &faults.attempts)?;
    Ok(notes)
}
