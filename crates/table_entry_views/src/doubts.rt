//! What a competition's file lets one ask of the times of a card.

ghost use Rattle.std.specs.Prelude.{◌≡◌, ◌++◌, ◌<◌, ◌^◌, OnOk, length};
ghost use Rattle.table_entry_views.specs.Doubts.{asked_of, best_notes, field_notes};
ghost use Rattle.table_entry_views.specs.Doubts.{bests_of, file_notes, notes_from, own_best};
ghost use Rattle.table_entry_views.specs.Doubts.{round_best};

use crate::bounds::time_of;
use crate::notes::CardNote;
use attempts::{NoMemory, Unit};
use commands::Meet;
use competition_file::{CompetitionFile, ResultKind, best_of, field_best};
use formats::unit_of;
use round_counts::round_opened;
use texts::{CardEntry, Entered, RoundId};

/// The best singles of a competition's file that the times of a card are compared with, in
/// hundredths of a second.
#[derive(Clone, Copy)]
struct FileBests {
    /// The competitor's.
    own: Option<u32>,
    /// The least of those who are in the round.
    field: Option<u32>,
}

/// The competitor's best single in the event.
fn own_best(file: &CompetitionFile, card: &CardEntry) -> Option<u32>
    ensures { result ≡ own_best file.now card.entry.now }
{
    match file.person(card.number) {
        Some(person) => best_of(person, card.id.event, ResultKind::Single),
        None => None,
    }
}

/// The least best single of those who are in a round, if it was opened.
fn round_best(file: &CompetitionFile, meet: &Meet, id: RoundId) -> Option<u32>
    ensures { result ≡ round_best file.now meet.now.accepted id }
{
    match round_opened(meet, id) {
        Some(round) => field_best(file.persons(), id.event, round.table),
        None => None,
    }
}

/// What the times of a card are compared with: nothing where times are not what counts.
fn bests_of(file: &CompetitionFile, meet: &Meet, card: &CardEntry) -> FileBests
    ensures { result ≡ bests_of file.now meet.now.accepted card.entry.now }
{
    match unit_of(card.id.event) {
        Unit::Time => FileBests {
            own: own_best(file, card),
            field: round_best(file, meet, card.id),
        },
        Unit::Moves | Unit::Multi => FileBests {
            own: None,
            field: None,
        },
    }
}

/// Notes a time that is less than 0.8 of the competitor's best.
fn note_best(
    notes: &mut Vec<CardNote>,
    attempt: u8,
    time: u64,
    best: Option<u32>,
) -> Result<(), NoMemory>
    requires { time < 2 ^ 33 }
    ensures { OnOk result (notes.new.items ≡ notes.old.items ++ best_notes attempt time best) }
{
    match best {
        Some(best) if 10 * time < 8 * u64::from(best) => {
            let time = time as u32;
            notes.push(CardNote::BelowBest {
                attempt,
                time,
                best,
            })?;
            Ok(())
        }
        _ => Ok(()),
    }
}

/// Notes a time that is less than half of the best of those who are in the round.
fn note_field(
    notes: &mut Vec<CardNote>,
    attempt: u8,
    time: u64,
    best: Option<u32>,
) -> Result<(), NoMemory>
    requires { time < 2 ^ 33 }
    ensures { OnOk result (notes.new.items ≡ notes.old.items ++ field_notes attempt time best) }
{
    match best {
        Some(best) if 2 * time < u64::from(best) => {
            let time = time as u32;
            notes.push(CardNote::BelowField {
                attempt,
                time,
                best,
            })?;
            Ok(())
        }
        _ => Ok(()),
    }
}

/// Notes what is asked of a field, if it is a time.
fn note_time(
    notes: &mut Vec<CardNote>,
    bests: FileBests,
    attempt: u8,
    field: &Option<Entered>,
) -> Result<(), NoMemory>
    ensures { OnOk result (notes.new.items
        ≡ notes.old.items ++ asked_of bests attempt field.now) }
{
    let Some(time) = time_of(field) else {
        return Ok(());
    };
    note_best(notes, attempt, time, bests.own)?;
    note_field(notes, attempt, time, bests.field)
}

/// Notes what is asked of the fields.
fn note_times(
    notes: &mut Vec<CardNote>,
    bests: FileBests,
    fields: &[Option<Entered>],
) -> Result<(), NoMemory>
    requires { length fields.now < 256 }
    ensures { OnOk result (notes.new.items
        ≡ notes.old.items ++ notes_from bests 1 fields.now) }
{
    for (place, field) in fields.iter().enumerate() {
        note_time(notes, bests, place as u8 + 1, field)?;
    }
    Ok(())
}

/// Notes what a competition's file lets one ask of a card, in an event in which times count: of
/// each time that is less than 0.8 of the competitor's best single in the file, and of each that is
/// less than half of the least best single of those who are in the round.
pub fn note_by_file(
    notes: &mut Vec<CardNote>,
    competition: &CompetitionFile,
    meet: &Meet,
    card: &CardEntry,
) -> Result<(), NoMemory>
    requires { length card.now.now < 256 }
    ensures { OnOk result (notes.new.items ≡ notes.old.items
        ++ file_notes competition.now meet.now.accepted card.entry.now) }
{
    let bests = bests_of(competition, meet, card);
    note_times(notes, bests, card.now.as_slice())
}
