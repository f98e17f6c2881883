//! The forms that lead to the withdrawal of those who never came.

ghost use Rattle.std.specs.Prelude.{◌≡◌, ◌++◌, IfOk, OnOk, filter};
ghost use Rattle.commands.specs.Accepted.{round_by, who_wait};
ghost use Rattle.table_round_views.specs.Absent.{emptying, is_outside, leave_lines, leaving};
ghost use Rattle.table_round_views.specs.Absent.{leaving_form, leaving_or_told, leaving_words};
ghost use Rattle.table_round_views.specs.{Absent.never_came, Absent.to_come, Proposal.round_before};

use acceptor::NoMemory;
use advancement::waiting;
use card_forms::FormId;
use commands::Meet;
use round_counts::{OpenedRound, Progress, numbers_with, round_opened};
use rounds::RoundTable;
use std::alloc::Global;
use table_views::{LOOKS, PageContext, id_at, is_latest, path_of, push_line, push_lines_form};
use texts::{Command, RoundId, print};

/// The commands that withdraw these competitors, one a line.
fn leave_lines(alloc: Global, id: RoundId, numbers: &[u16]) -> Result<Vec<u8>, NoMemory>
    ensures { IfOk result (λ lines. lines.items ≡ leave_lines id numbers.now) }
{
    let mut lines = Vec::new(alloc);
    for number in numbers {
        let command = Command::Withdraw {
            id,
            number: *number,
        };
        let text = print(alloc, &command)?;
        push_line(&mut lines, &text)?;
    }
    Ok(lines)
}

const LATER_LEAVING: &[u8] = b"\
<p>Who never came is withdrawn, and has no result in this round then. It can't be taken back: the \
best of the round before who has a result, did not advance and has not taken a place yet takes the \
place, and is shown here until the first attempt. If one of these still comes, withdraw each of \
the others on the page of that competitor. The button enters nothing yet: it shows each command, \
with the name.</p>
";

const FIRST_LEAVING: &[u8] = b"\
<p>Who never came is withdrawn, and has no result in this round then. While the round is open it \
is taken back by entering the competitor once more, under <a href=\"/people\">competitors</a>. If \
one of these still comes, withdraw each of the others on the page of that competitor. The button \
enters nothing yet: it shows each command, with the name.</p>
";

/// What withdrawing from this round of an event means.
fn leaving_words(round: u8) -> &'static [u8]
    ensures { result.now ≡ leaving_words round }
{
    if round <= 1 {
        FIRST_LEAVING
    } else {
        LATER_LEAVING
    }
}

/// What it means that those are withdrawn too who would take the places.
const EMPTYING_WORDS: &[u8] = b"\
<p>Where nobody is to come any more, all who would take a place are withdrawn too, one after the \
other, and the places stay empty. That can't be taken back either. This button enters nothing yet \
too.</p>
";

/// Adds words, and the form that shows the commands that withdraw these competitors.
fn push_leaving_form(
    out: &mut Vec<u8>,
    token: &[u8],
    form: FormId,
    id: RoundId,
    words: &[u8],
    button: &[u8],
    numbers: &[u16],
) -> Result<(), NoMemory>
    ensures { OnOk result (out.new.items
        ≡ out.old.items ++ leaving_form token.now form id words.now button.now numbers.now) }
{
    let back = path_of(*out.allocator(), id)?;
    let lines = leave_lines(*out.allocator(), id, numbers)?;
    out.extend_from_slice(words)?;
    push_lines_form(out, LOOKS, token, form, &back, &lines, button)
}

/// Those who wait for a place in a round, in order: the first of them takes the first.
fn who_wait(alloc: Global, meet: &Meet, id: RoundId) -> Result<Vec<u16>, NoMemory>
    ensures { IfOk result (λ numbers.
        numbers.items ≡ who_wait (round_by meet.now.accepted (round_before id))) }
{
    let before = RoundId {
        event: id.event,
        round: id.round.saturating_sub(1),
    };
    match round_opened(meet, before) {
        Some(round) => waiting(alloc, round.table, round.settings.advance),
        None => Ok(Vec::new(alloc)),
    }
}

/// Whether a competitor is not in a round.
fn is_outside(table: &RoundTable, number: u16) -> bool
    ensures { result ≡ is_outside table.now number }
{
    table.place(number).is_none()
}

/// Those of these competitors who are not in a round.
fn outside(alloc: Global, table: &RoundTable, numbers: &[u16]) -> Result<Vec<u16>, NoMemory>
    ensures { IfOk result (λ kept. kept.items ≡ filter (is_outside table.now) numbers.now) }
{
    numbers
        .iter()
        .copied()
        .filter(|number| is_outside(table, *number))
        .collect(alloc)
}

/// Those of the round before who wait for a place in this one and are not in it. Somebody who got a
/// place and withdrew again is among them. It is supposed that nothing in the round before was
/// changed since this one was opened: if that is wrong, the answers to the commands say it.
fn to_come(
    alloc: Global,
    meet: &Meet,
    id: RoundId,
    table: &RoundTable,
) -> Result<Vec<u16>, NoMemory>
    ensures { IfOk result (λ numbers. numbers.items ≡ to_come meet.now.accepted id table.now) }
{
    let numbers = who_wait(alloc, meet, id)?;
    outside(alloc, table, &numbers)
}

/// Adds the form for those without an attempt, and those who would get their places, if there are
/// any.
fn push_emptying(
    out: &mut Vec<u8>,
    around: &PageContext<'_>,
    id: RoundId,
    numbers: &[u16],
    others: &[u16],
) -> Result<(), NoMemory>
    ensures { OnOk result (out.new.items
        ≡ out.old.items ++ emptying around.entry.now id numbers.now others.now) }
{
    if others.is_empty() {
        return Ok(());
    }
    let mut all = Vec::from_slice(*out.allocator(), numbers)?;
    all.extend_from_slice(others)?;
    push_leaving_form(
        out,
        around.token,
        id_at(around.ids, 17),
        id,
        EMPTYING_WORDS,
        b"Withdraw these and all who wait",
        &all,
    )
}

/// Adds the form for those without an attempt, and the other one.
fn push_leaving(
    out: &mut Vec<u8>,
    around: &PageContext<'_>,
    id: RoundId,
    numbers: &[u16],
    table: &RoundTable,
) -> Result<(), NoMemory>
    ensures { OnOk result (out.new.items
        ≡ out.old.items ++ leaving around.entry.now id numbers.now table.now) }
{
    let others = to_come(*out.allocator(), around.mirror.meet(), id, table)?;
    push_leaving_form(
        out,
        around.token,
        id_at(around.ids, 16),
        id,
        leaving_words(id.round),
        b"Withdraw who never came",
        numbers,
    )?;
    push_emptying(out, around, id, numbers, &others)
}

/// Adds the forms, in edition 4; before it, what edition 4 would allow.
fn push_leaving_or_told(
    out: &mut Vec<u8>,
    around: &PageContext<'_>,
    id: RoundId,
    numbers: &[u16],
    table: &RoundTable,
) -> Result<(), NoMemory>
    ensures { OnOk result (out.new.items
        ≡ out.old.items ++ leaving_or_told around.entry.now id numbers.now table.now) }
{
    if is_latest(around.mirror.meet()) {
        return push_leaving(out, around, id, numbers, table);
    }
    out.extend_from_slice(
        b"<p>With <a href=\"/rounds\">edition 4</a> they could be withdrawn.</p>\n",
    )
}

/// Adds the forms for all who have no attempt; nothing where there is nobody.
pub(crate) fn push_never_came(
    out: &mut Vec<u8>,
    around: &PageContext<'_>,
    id: RoundId,
    round: OpenedRound<'_>,
) -> Result<(), NoMemory>
    ensures { OnOk result (out.new.items ≡ out.old.items ++ never_came around.entry.now id
        (round.entry.settings, round.entry.table.now)) }
{
    let alloc = *out.allocator();
    let absent = numbers_with(alloc, round.table, round.settings.format, Progress::Absent)?;
    if absent.is_empty() {
        return Ok(());
    }
    push_leaving_or_told(out, around, id, &absent, round.table)
}
