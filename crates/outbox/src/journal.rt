//! The file beside the program: what was taken.

ghost use Rattle.std.specs.Prelude.{◌≡◌, ◌+◌, ◌≤◌, IfErr, IfOk, bytes_eq, length, nat_lt};
ghost use Rattle.std.specs.Option.{option_map};
ghost use Rattle.outbox.specs.Journals.{FollowsIf, IsFaultOf, after_lines, fault_of_first};
ghost use Rattle.outbox.specs.Journals.{is_earlier_word, read_back};
ghost use Rattle.outbox.specs.{Items.no_items, Outboxes.new_outbox};
ghost use Rattle.outbox.specs.Lines.{IsFirstLine, cut_line, hall_line, said, whole_lines};
ghost use Rattle.texts.specs.Fields.{cut};
ghost use Rattle.wire.specs.Ranges.{IsDesk};

use crate::hall_name::HallName;
use crate::items::Items;
use crate::journal_lines::{JournalLine, read_line};
use crate::outbox::Outbox;
use std::alloc::{AllocError, Global};
use texts::cut;
use thiserror::Error;

/// What a journal says.
#[derive(Drop)]
pub struct Journal {
    /// What was taken, and which of it was answered.
    pub outbox: Outbox,
    /// The bytes of its whole lines. The file is to be cut there before more is appended.
    pub whole: usize,
    /// Whether something is after the whole lines: a line that was not written to its end.
    pub cut: bool,
}

/// Why a journal is not read.
#[derive(Clone, Copy, Debug, PartialEq, Eq, Error)]
pub enum JournalFault {
    /// No line was written to its end. The file is to be emptied, and begun with the hall's line.
    #[error("it is empty")]
    Empty,
    /// It is of the program that knows no edition 4.
    #[error("it is of an earlier scoretable: enter what waits in it with that one")]
    Earlier,
    /// Its first line names another hall.
    #[error("it is of another hall")]
    OtherHall,
    /// The line of this number, from 1 on, is no line of a journal.
    #[error("line {line} is damaged")]
    Damaged { line: u64 },
    /// Memory ran out.
    #[error("no memory")]
    NoMemory,
}

impl From<AllocError> for JournalFault {
    ghost use Rattle.std.specs.Prelude.{◌≡◌};
    ghost use Rattle.outbox.specs.declared.journal.JournalFault.TheVariants.{NoMemory};

    ghost from_gives = { λ _ fault. fault ≡ NoMemory };

    fn from(_: AllocError) -> JournalFault {
        JournalFault::NoMemory
    }
}

/// Does what a line says. Whether it fits what was said before.
fn follow(items: &mut Items, line: JournalLine, now: u64) -> Result<bool, AllocError>
    ensures { IfOk result (λ fits. FollowsIf items.old now (Some line) fits items.new) }
{
    match line {
        JournalLine::Item(entry) => items.restore(entry, now),
        JournalLine::Answered(id) => items.restore_answer(id),
    }
}

/// Does what a line says, if it says something. Whether it fits what was said before.
fn follow_line(alloc: Global, items: &mut Items, line: &[u8], now: u64) -> Result<bool, AllocError>
    ensures { IfOk result (λ fits. FollowsIf items.old now (said line.now) fits items.new) }
{
    match read_line(alloc, line)? {
        Some(said) => follow(items, said, now),
        None => Ok(false),
    }
}

/// The bytes in front of the first line's end, and those after it. None: no line ends.
fn first_line(bytes: &[u8]) -> Option<(&[u8], &[u8])>
    ensures { IsFirstLine bytes.now (option_map (λ r. (r.0.now, r.1.now)) result) }
{
    match cut(bytes, b'\n') {
        (line, Some(left)) => Some((line, left)),
        (_, None) => None,
    }
}

/// Whether a line is one of the program that knows no edition 4.
fn is_earlier_word(word: &[u8]) -> bool
    ensures { result ≡ is_earlier_word word.now }
{
    word == b"card".as_slice() || word == b"command".as_slice() || word == b"done".as_slice()
}

/// Why a first line is not that of the hall.
fn fault_of_first(first: &[u8]) -> JournalFault
    ensures { result ≡ fault_of_first (cut 32 first.now).0 }
{
    let (word, _) = cut(first, b' ');
    if is_earlier_word(word) {
        JournalFault::Earlier
    } else if word == b"hall".as_slice() {
        JournalFault::OtherHall
    } else {
        JournalFault::Damaged { line: 1 }
    }
}

/// Whether a line, without its end, is the one that names the hall.
fn is_of_hall(alloc: Global, hall: &HallName, line: &[u8]) -> Result<bool, AllocError>
    ensures { IfOk result (λ is. is ≡ bytes_eq line.now (hall_line hall.now)) }
{
    let named = hall.line(alloc)?;
    Ok(line == named.as_slice())
}

/// What the lines after the first say, and how many bytes are after them.
fn read_items(alloc: Global, bytes: &[u8], now: u64) -> Result<(Items, usize), JournalFault>
    ensures items { IfOk result (λ read.
        after_lines no_items now 2 (whole_lines bytes.now) ≡ Ok read.0) }
    ensures left { IfOk result (λ read. read.1 ≡ length (cut_line bytes.now)) }
    ensures most { IfOk result (λ read. read.1 ≤ length bytes.now) }
    ensures refused { IfErr result
        (IsFaultOf (after_lines no_items now 2 (whole_lines bytes.now))) }
{
    let mut items = Items::new(alloc);
    let mut left = bytes;
    let mut number: u64 = 1;
    while let Some((line, next)) = first_line(left) {
        number += 1;
        if !follow_line(alloc, &mut items, line, now)? {
            return Err(JournalFault::Damaged { line: number });
        }
        left = next;
    }
    Ok((items, left.len()))
}

/// What a journal of a hall says, and no connection yet to the desk with this number, 1 to 5. `now`
/// is when its items are said to have been taken, in milliseconds.
///
/// A line that was not written to its end is left out. Where no line was, the fault is Empty. Where
/// the first line is not that of the hall, it is Earlier, OtherHall or Damaged. Else it is the
/// first line that is no line of a journal, that says an item whose id another one has or for which
/// there is no room, or that says to be answered what is no item.
pub fn read_journal(
    alloc: Global,
    hall: &HallName,
    desk: u8,
    bytes: &[u8],
    now: u64,
) -> Result<Journal, JournalFault>
    requires { IsDesk desk }
    ensures items { IfOk result
        (λ journal. read_back hall.now now bytes.now ≡ Ok journal.outbox.list) }
    ensures new { IfOk result
        (λ journal. journal.outbox ≡ new_outbox hall.now.number desk journal.outbox.list) }
    ensures whole { IfOk result
        (λ journal. journal.whole + length (cut_line bytes.now) ≡ length bytes.now) }
    ensures is_cut { IfOk result
        (λ journal. journal.cut ≡ nat_lt 0 (length (cut_line bytes.now))) }
    ensures refused { IfErr result (IsFaultOf (read_back hall.now now bytes.now)) }
{
    let Some((first, lines)) = first_line(bytes) else {
        return Err(JournalFault::Empty);
    };
    if !is_of_hall(alloc, hall, first)? {
        return Err(fault_of_first(first));
    }
    let (items, left) = read_items(alloc, lines, now)?;
    Ok(Journal {
        outbox: Outbox::over(alloc, hall.number(), desk, items),
        whole: bytes.len() - left,
        cut: left > 0,
    })
}
