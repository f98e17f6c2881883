//! What is printed of the answers of a hall's desks, as text.

ghost use Rattle.std.specs.Prelude.{◌≡◌, ◌≤◌, ◌++◌, IfOk, OnOk, decimal, flat_map, length};
ghost use Rattle.standings.specs.AsText.{all_stand_text, all_text, commands_text, count_text};
ghost use Rattle.standings.specs.AsText.{every_lag_text, works_text, going_text, in_order};
ghost use Rattle.standings.specs.AsText.{is_other, lag_text, lags_text, line_text, more_text};
ghost use Rattle.standings.specs.AsText.{name_text, order_text, place_text, reply_text, text_of};
ghost use Rattle.standings.specs.AsText.{role_name, some_elsewhere, some_stand_text, state_text};
ghost use Rattle.standings.specs.AsText.{unasked_text, verb_text, waiting_text, difference_text};
ghost use Rattle.standings.specs.AsText.{differs_text, other_text, shorter_text, wanted_text};
ghost use Rattle.standings.specs.declared.polled.StatusReply.TheVariants as reply;

use crate::meaning::{
    answered, behind_by, difference, every_desk, is_majority, missing, newest, size_of,
    some_behind, standing_count, unasked,
};
use crate::polled::{PolledDesk, StatusReply};
use client::refusal_name;
use itoa::Buffer;
use std::alloc::{AllocError, Global};
use wire::{DeskRole, DeskStatus, Difference};

/// Adds a number in decimal.
fn push_number(out: &mut Vec<u8>, number: u32) -> Result<(), AllocError>
    ensures { OnOk result (out.new.items ≡ out.old.items ++ decimal number) }
{
    let mut buffer = Buffer::new();
    out.extend_from_slice(buffer.format(number).as_bytes())
}

pub(crate) fn role_name(role: DeskRole) -> &'static str
    ensures { result.now ≡ role_name role }
{
    match role {
        DeskRole::Idle => "idle",
        DeskRole::Gathering => "gathering",
        DeskRole::Proposing => "proposing",
        DeskRole::Leading => "leading",
    }
}

fn push_commands(out: &mut Vec<u8>, number: u32) -> Result<(), AllocError>
    ensures { OnOk result (out.new.items ≡ out.old.items ++ commands_text number) }
{
    push_number(out, number)?;
    if number == 1 {
        out.extend_from_slice(b" command")
    } else {
        out.extend_from_slice(b" commands")
    }
}

fn push_name(out: &mut Vec<u8>, asked: u8, desk: u8) -> Result<(), AllocError>
    ensures { OnOk result (out.new.items ≡ out.old.items ++ name_text asked desk) }
{
    if desk == asked {
        return Ok(());
    }
    out.extend_from_slice(b"this is desk ")?;
    push_number(out, u32::from(desk))?;
    out.extend_from_slice(b"  ")
}

fn push_standing(
    out: &mut Vec<u8>,
    asked: u8,
    desk: u8,
    standing: DeskStatus,
) -> Result<(), AllocError>
    ensures { OnOk result (out.new.items
        ≡ out.old.items ++ reply_text asked (reply.Stands desk standing)) }
{
    push_name(out, asked, desk)?;
    out.extend_from_slice(role_name(standing.role).as_bytes())?;
    out.extend_from_slice(b"  ")?;
    push_commands(out, standing.length)?;
    out.extend_from_slice(b"  ")?;
    push_number(out, u32::from(standing.waiting))?;
    out.extend_from_slice(b" waiting")
}

/// Adds what came of asking for the desk of a number.
fn push_reply(out: &mut Vec<u8>, asked: u8, reply: &StatusReply) -> Result<(), AllocError>
    ensures { OnOk result (out.new.items ≡ out.old.items ++ reply_text asked reply.now) }
{
    match reply {
        StatusReply::Stands { desk, standing } => push_standing(out, asked, *desk, *standing),
        StatusReply::Earlier { desk } => {
            push_name(out, asked, *desk)?;
            out.extend_from_slice(b"an earlier program")
        }
        StatusReply::CannotConnect => out.extend_from_slice(b"cannot connect"),
        StatusReply::NoAnswer => out.extend_from_slice(b"no answer"),
        StatusReply::Late => out.extend_from_slice(b"no answer in time"),
        StatusReply::NoKey => out.extend_from_slice(b"the desk has no key"),
        StatusReply::OtherKey => out.extend_from_slice(b"the desk has another key"),
        StatusReply::HasKey => out.extend_from_slice(b"the desk has a key"),
        StatusReply::Refused { refusal } => {
            out.extend_from_slice(b"refused ")?;
            out.extend_from_slice(refusal_name(*refusal).as_bytes())
        }
    }
}

/// Adds which desk of how many it is.
fn push_place(out: &mut Vec<u8>, size: u32, asked: u8) -> Result<(), AllocError>
    ensures { OnOk result (out.new.items ≡ out.old.items ++ place_text size asked) }
{
    out.extend_from_slice(b"desk ")?;
    push_number(out, u32::from(asked))?;
    out.extend_from_slice(b" of ")?;
    push_number(out, size)?;
    out.extend_from_slice(b"  ")
}

/// Adds the line of a desk of this many.
fn push_line(out: &mut Vec<u8>, size: u32, polled: &PolledDesk<'_>) -> Result<(), AllocError>
    ensures { OnOk result (out.new.items ≡ out.old.items ++ line_text size polled.now) }
{
    push_place(out, size, polled.asked)?;
    push_reply(out, polled.asked, &polled.reply)?;
    out.extend_from_slice(b"  ")?;
    out.extend_from_slice(polled.address.as_bytes())?;
    out.extend_from_slice(b"\n")
}

/// Adds a line for each.
fn push_lines(out: &mut Vec<u8>, size: u32, polled: &[PolledDesk<'_>]) -> Result<(), AllocError>
    ensures { OnOk result
        (out.new.items ≡ out.old.items ++ flat_map (line_text size) polled.now) }
{
    for one in polled {
        push_line(out, size, one)?;
    }
    Ok(())
}

fn is_other(asked: u8, reply: &StatusReply) -> bool
    ensures { result ≡ is_other asked reply.now }
{
    match reply {
        StatusReply::Stands { desk, .. } | StatusReply::Earlier { desk } => *desk != asked,
        _ => false,
    }
}

/// Whether another desk than was asked for answered at an address.
fn some_elsewhere(polled: &[PolledDesk<'_>]) -> bool
    ensures { result ≡ some_elsewhere polled.now }
{
    polled.iter().any(|one| is_other(one.asked, &one.reply))
}

/// Whether the addresses are in the order of the desks, as far as these answered.
pub(crate) fn in_order(polled: &[PolledDesk<'_>]) -> bool
    ensures { result ≡ in_order polled.now }
{
    !some_elsewhere(polled)
}

fn push_order(out: &mut Vec<u8>, polled: &[PolledDesk<'_>]) -> Result<(), AllocError>
    ensures { OnOk result (out.new.items ≡ out.old.items ++ order_text polled.now) }
{
    if in_order(polled) {
        Ok(())
    } else {
        out.extend_from_slice(b"the addresses are not in the order of the desks\n")
    }
}

fn verb_of(answered: u32) -> &'static str
    ensures { result.now ≡ verb_text answered }
{
    if answered == 1 {
        " desks answers: "
    } else {
        " desks answer: "
    }
}

fn push_count(out: &mut Vec<u8>, answered: u32, size: u32) -> Result<(), AllocError>
    ensures { OnOk result (out.new.items ≡ out.old.items ++ count_text answered size) }
{
    push_number(out, answered)?;
    out.extend_from_slice(b" of ")?;
    push_number(out, size)?;
    out.extend_from_slice(verb_of(answered).as_bytes())
}

fn push_lag(out: &mut Vec<u8>, desk: u8, by: u32) -> Result<(), AllocError>
    ensures { OnOk result (out.new.items ≡ out.old.items ++ lag_text desk by) }
{
    out.extend_from_slice(b"desk ")?;
    push_number(out, u32::from(desk))?;
    out.extend_from_slice(b" is ")?;
    push_commands(out, by)?;
    out.extend_from_slice(b" behind")
}

/// Adds what each of these desks lacks.
fn push_lags(
    out: &mut Vec<u8>,
    follows: bool,
    polled: &[PolledDesk<'_>],
    desks: &[u8],
) -> Result<(), AllocError>
    ensures { OnOk result
        (out.new.items ≡ out.old.items ++ lags_text follows polled.now desks.now) }
{
    let [desk, rest @ ..] = desks else {
        return Ok(());
    };
    let by = behind_by(polled, *desk);
    if by == 0 {
        return push_lags(out, follows, polled, rest);
    }
    if follows {
        out.extend_from_slice(b"; ")?;
    }
    push_lag(out, *desk, by)?;
    push_lags(out, true, polled, rest)
}

/// Adds what each desk of the hall lacks.
#[tactic(auto, unfolding(crate::specs::AsText::every_lag_text))]
fn push_every_lag(
    out: &mut Vec<u8>,
    follows: bool,
    polled: &[PolledDesk<'_>],
) -> Result<(), AllocError>
    ensures { OnOk result (out.new.items ≡ out.old.items ++ every_lag_text follows polled.now) }
{
    push_lags(out, follows, polled, &every_desk())
}

fn push_all(out: &mut Vec<u8>, size: u32, newest: u32) -> Result<(), AllocError>
    ensures { OnOk result (out.new.items ≡ out.old.items ++ all_text size newest) }
{
    out.extend_from_slice(b"all ")?;
    push_number(out, size)?;
    out.extend_from_slice(b" desks have all ")?;
    push_commands(out, newest)
}

/// Adds what it means where each desk said how it is.
fn push_all_stand(out: &mut Vec<u8>, polled: &[PolledDesk<'_>]) -> Result<(), AllocError>
    requires { length polled.now ≤ 5 }
    ensures { OnOk result (out.new.items ≡ out.old.items ++ all_stand_text polled.now) }
{
    if some_behind(polled) {
        push_every_lag(out, false, polled)
    } else {
        push_all(out, size_of(polled), newest(polled))
    }
}

/// Adds that the hall works, and what desks lack.
fn push_works(out: &mut Vec<u8>, polled: &[PolledDesk<'_>]) -> Result<(), AllocError>
    ensures { OnOk result (out.new.items ≡ out.old.items ++ works_text polled.now) }
{
    out.extend_from_slice(b"the hall works")?;
    push_every_lag(out, true, polled)?;
    Ok(())
}

/// Adds what it means where a majority answered, and not each said how it is.
fn push_some_stand(out: &mut Vec<u8>, polled: &[PolledDesk<'_>]) -> Result<(), AllocError>
    requires { length polled.now ≤ 5 }
    ensures { OnOk result (out.new.items ≡ out.old.items ++ some_stand_text polled.now) }
{
    push_count(out, answered(polled), size_of(polled))?;
    push_works(out, polled)
}

/// Adds what it means where a majority answered.
fn push_going(out: &mut Vec<u8>, polled: &[PolledDesk<'_>]) -> Result<(), AllocError>
    requires { length polled.now ≤ 5 }
    ensures { OnOk result (out.new.items ≡ out.old.items ++ going_text polled.now) }
{
    if standing_count(polled) == size_of(polled) {
        push_all_stand(out, polled)
    } else {
        push_some_stand(out, polled)
    }
}

fn push_more(out: &mut Vec<u8>, missing: u32) -> Result<(), AllocError>
    ensures { OnOk result (out.new.items ≡ out.old.items ++ more_text missing) }
{
    out.extend_from_slice(b"nothing is decided until ")?;
    if missing == 1 {
        out.extend_from_slice(b"another one runs")
    } else {
        push_number(out, missing)?;
        out.extend_from_slice(b" more run")
    }
}

fn push_unasked(out: &mut Vec<u8>, unasked: u32) -> Result<(), AllocError>
    ensures { OnOk result (out.new.items ≡ out.old.items ++ unasked_text unasked) }
{
    push_number(out, unasked)?;
    if unasked == 1 {
        out.extend_from_slice(b" was not asked")
    } else {
        out.extend_from_slice(b" were not asked")
    }
}

/// Adds what is wanted for a majority.
fn push_wanted(out: &mut Vec<u8>, polled: &[PolledDesk<'_>]) -> Result<(), AllocError>
    requires { length polled.now ≤ 5 }
    ensures { OnOk result (out.new.items ≡ out.old.items ++ wanted_text polled.now) }
{
    let unasked = unasked(polled);
    if unasked == 0 {
        push_more(out, missing(polled))
    } else {
        push_unasked(out, unasked)
    }
}

/// Adds what it means where no majority answered.
fn push_waiting(out: &mut Vec<u8>, polled: &[PolledDesk<'_>]) -> Result<(), AllocError>
    requires { length polled.now ≤ 5 }
    ensures { OnOk result (out.new.items ≡ out.old.items ++ waiting_text polled.now) }
{
    push_count(out, answered(polled), size_of(polled))?;
    push_wanted(out, polled)
}

/// Adds which desk has another command, and where.
fn push_other(out: &mut Vec<u8>, desk: u8, position: u32) -> Result<(), AllocError>
    ensures { OnOk result (out.new.items ≡ out.old.items ++ other_text desk position) }
{
    push_number(out, u32::from(desk))?;
    out.extend_from_slice(b" has another command at ")?;
    push_number(out, position)?;
    Ok(())
}

/// Adds which desk has fewer commands than it had, and how many.
fn push_shorter(out: &mut Vec<u8>, desk: u8, length: u32) -> Result<(), AllocError>
    ensures { OnOk result (out.new.items ≡ out.old.items ++ shorter_text desk length) }
{
    push_number(out, u32::from(desk))?;
    out.extend_from_slice(b" has ")?;
    push_commands(out, length)?;
    out.extend_from_slice(b" and had more")
}

fn push_differs(out: &mut Vec<u8>, difference: Difference) -> Result<(), AllocError>
    ensures { OnOk result (out.new.items ≡ out.old.items ++ differs_text difference) }
{
    match difference {
        Difference::OtherEntry { desk, position } => push_other(out, desk, position),
        Difference::Shorter { desk, length } => push_shorter(out, desk, length),
    }
}

/// Adds how a desk differs, and what to do.
fn push_difference(out: &mut Vec<u8>, difference: Difference) -> Result<(), AllocError>
    ensures { OnOk result (out.new.items ≡ out.old.items ++ difference_text difference) }
{
    out.extend_from_slice(b"desk ")?;
    push_differs(out, difference)?;
    out.extend_from_slice(b": enter nothing more; see HALL, 'Two desks differ'")
}

fn push_state(out: &mut Vec<u8>, polled: &[PolledDesk<'_>]) -> Result<(), AllocError>
    requires { length polled.now ≤ 5 }
    ensures { OnOk result (out.new.items ≡ out.old.items ++ state_text polled.now) }
{
    if let Some(difference) = difference(polled) {
        return push_difference(out, difference);
    }
    if is_majority(polled) {
        push_going(out, polled)
    } else {
        push_waiting(out, polled)
    }
}

/// What is printed of the desks that were asked, at most five: a line for each, and one that says
/// what these mean. Where a desk has another number than it was asked for, a line in front of that
/// one says so.
pub(crate) fn text_of(alloc: Global, polled: &[PolledDesk<'_>]) -> Result<Vec<u8>, AllocError>
    requires { length polled.now ≤ 5 }
    ensures { IfOk result (λ text. text.items ≡ text_of polled.now) }
{
    let mut out = Vec::new(alloc);
    push_lines(&mut out, size_of(polled), polled)?;
    push_order(&mut out, polled)?;
    push_state(&mut out, polled)?;
    out.extend_from_slice(b"\n")?;
    Ok(out)
}
