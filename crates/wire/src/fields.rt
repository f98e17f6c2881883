//! The fields of a frame, from bytes: each gives a value and what is after it. None takes memory.

ghost use Rattle.std.specs.Prelude.{◌≡◌, ◌≤◌, IfOk, IfErr, IfSome, option_map};
ghost use Rattle.std.specs.Int.{w16, w32, w64};
ghost use Rattle.acceptor.specs.Entries.{IsId, IsText};
ghost use Rattle.formats.specs.Events.{all_events, event_number};
ghost use Rattle.wire.specs.Fields.{number_at, byte_at, many, numbered, ended};
ghost use Rattle.wire.specs.Numbers.{answers, answer_number, refusals, refusal_number, styles};
ghost use Rattle.wire.specs.Numbers.{style_number, roles, role_number};
ghost use Rattle.wire.specs.Reading.{ballot_at, limited_at, position_at, id_at, text_at, entry_at};
ghost use Rattle.wire.specs.Reading.{report_at, member_at, event_at, answer_at, state_at};
ghost use Rattle.wire.specs.Reading.{log_length_at, promised_at, lengths_at, desk_at, refusal_at};
ghost use Rattle.wire.specs.Reading.{difference_at, differs_at};
ghost use Rattle.wire.specs.{declared.fault.WireFault.TheVariants.NoMemory, model.Gives.GivesField};
ghost use Rattle.wire.specs.model.Parts.{part_entry, part_report, IsPart};

use crate::fault::WireFault;
use crate::standing::{Difference, Lengths};
use crate::values::{ClientRefusal, CommandState, DeskRole, Version, number_of, style_numbered};
use acceptor::MOST_ENTRIES;
use acceptor::ballot::Ballot;
use acceptor::entry::{Entry, EntryFault};
use acceptor::message::Report;
use formats::{Event, SheetStyle};
use std::alloc::Global;
use texts::{Answer, Code};

#[tactic(auto, unfolding(crate::specs::Fields::number_at))]
pub(crate) fn u16_of(bytes: &[u8]) -> Result<(u16, &[u8]), WireFault>
    ensures { GivesField (λ x. (x.0, x.1.now)) result (number_at w16 bytes.now) }
{
    if bytes.len() < 2 {
        return Err(WireFault::BadBody);
    }
    let (front, rest) = bytes.split_at(2);
    Ok((u16::from_be_bytes([front[0], front[1]]), rest))
}

#[tactic(auto, unfolding(crate::specs::Fields::number_at))]
pub(crate) fn u32_of(bytes: &[u8]) -> Result<(u32, &[u8]), WireFault>
    ensures { GivesField (λ x. (x.0, x.1.now)) result (number_at w32 bytes.now) }
{
    if bytes.len() < 4 {
        return Err(WireFault::BadBody);
    }
    let (front, rest) = bytes.split_at(4);
    let number = u32::from_be_bytes([front[0], front[1], front[2], front[3]]);
    Ok((number, rest))
}

#[tactic(auto, unfolding(crate::specs::Fields::number_at))]
fn u64_of(bytes: &[u8]) -> Result<(u64, &[u8]), WireFault>
    ensures { GivesField (λ x. (x.0, x.1.now)) result (number_at w64 bytes.now) }
{
    if bytes.len() < 8 {
        return Err(WireFault::BadBody);
    }
    let (front, rest) = bytes.split_at(8);
    let number = u64::from_be_bytes([
        front[0], front[1], front[2], front[3], front[4], front[5], front[6], front[7],
    ]);
    Ok((number, rest))
}

#[tactic(auto, unfolding(crate::specs::Fields::byte_at))]
pub(crate) fn byte_of(bytes: &[u8]) -> Result<(u8, &[u8]), WireFault>
    ensures { GivesField (λ x. (x.0, x.1.now)) result (byte_at bytes.now) }
{
    match bytes {
        [] => Err(WireFault::BadBody),
        [byte, rest @ ..] => Ok((*byte, rest)),
    }
}

#[tactic(auto, unfolding(crate::specs::Reading::ballot_at))]
pub(crate) fn ballot_of(bytes: &[u8]) -> Result<(Ballot, &[u8]), WireFault>
    ensures { GivesField (λ x. (x.0, x.1.now)) result (ballot_at bytes.now) }
{
    let (number, rest) = u32_of(bytes)?;
    let (desk, rest) = byte_of(rest)?;
    if 1 <= number && 1 <= desk && desk <= 5 {
        Ok((Ballot { number, desk }, rest))
    } else {
        Err(WireFault::BadBody)
    }
}

/// A number of four bytes, at most `limit`.
#[tactic(auto, unfolding(crate::specs::Reading::limited_at))]
pub(crate) fn limited_of(limit: u32, bytes: &[u8]) -> Result<(u32, &[u8]), WireFault>
    ensures value { GivesField (λ x. (x.0, x.1.now)) result (limited_at limit bytes.now) }
    ensures in_range { IfOk result (λ x. x.0 ≤ limit) }
{
    let (number, rest) = u32_of(bytes)?;
    if number <= limit {
        Ok((number, rest))
    } else {
        Err(WireFault::BadBody)
    }
}

pub(crate) fn position_of(bytes: &[u8]) -> Result<(u32, &[u8]), WireFault>
    ensures { GivesField (λ x. (x.0, x.1.now)) result (position_at bytes.now) }
{
    limited_of(MOST_ENTRIES - 1, bytes)
}

/// The length of a log, or a position in it, its end included.
pub(crate) fn log_length_of(bytes: &[u8]) -> Result<(u32, &[u8]), WireFault>
    ensures value { GivesField (λ x. (x.0, x.1.now)) result (log_length_at bytes.now) }
    ensures in_range { IfOk result (λ x. x.0 ≤ 65536) }
{
    limited_of(MOST_ENTRIES, bytes)
}

/// A promised ballot, or none: five zero bytes.
#[tactic(auto, unfolding(crate::specs::Reading::promised_at))]
pub(crate) fn promised_of(bytes: &[u8]) -> Result<(Option<Ballot>, &[u8]), WireFault>
    ensures { GivesField (λ x. (x.0, x.1.now)) result (promised_at bytes.now) }
{
    let (number, rest) = u32_of(bytes)?;
    let (desk, rest) = byte_of(rest)?;
    if number == 0 && desk == 0 {
        Ok((None, rest))
    } else if 1 <= number && 1 <= desk && desk <= 5 {
        Ok((Some(Ballot { number, desk }), rest))
    } else {
        Err(WireFault::BadBody)
    }
}

#[tactic(auto, unfolding(crate::specs::Fields::many))]
fn three_of(bytes: &[u8]) -> Result<([u32; 3], &[u8]), WireFault>
    ensures { GivesField (λ x. (x.0, x.1.now)) result (many log_length_at 3 bytes.now) }
{
    let (first, rest) = log_length_of(bytes)?;
    let (second, rest) = log_length_of(rest)?;
    let (third, rest) = log_length_of(rest)?;
    Ok(([first, second, third], rest))
}

#[tactic(auto, unfolding(crate::specs::Fields::many))]
fn five_of(bytes: &[u8]) -> Result<([u32; 5], &[u8]), WireFault>
    ensures { GivesField (λ x. (x.0, x.1.now)) result (many log_length_at 5 bytes.now) }
{
    let (first, rest) = log_length_of(bytes)?;
    let (second, rest) = log_length_of(rest)?;
    let (third, rest) = log_length_of(rest)?;
    let (fourth, rest) = log_length_of(rest)?;
    let (fifth, rest) = log_length_of(rest)?;
    Ok(([first, second, third, fourth, fifth], rest))
}

/// The lengths of the logs of a hall's desks, three or five.
#[tactic(auto, unfolding(crate::specs::Reading::lengths_at))]
pub(crate) fn lengths_of(bytes: &[u8]) -> Result<(Lengths, &[u8]), WireFault>
    ensures { GivesField (λ x. (x.0, x.1.now)) result (lengths_at bytes.now) }
{
    let (desks, rest) = byte_of(bytes)?;
    match desks {
        3 => {
            let (lengths, rest) = three_of(rest)?;
            Ok((Lengths::OfThree(lengths), rest))
        }
        5 => {
            let (lengths, rest) = five_of(rest)?;
            Ok((Lengths::OfFive(lengths), rest))
        }
        _ => Err(WireFault::BadBody),
    }
}

/// A desk of a hall.
#[tactic(auto, unfolding(crate::specs::Reading::desk_at))]
fn desk_of(bytes: &[u8]) -> Result<(u8, &[u8]), WireFault>
    ensures { GivesField (λ x. (x.0, x.1.now)) result (desk_at bytes.now) }
{
    let (desk, rest) = byte_of(bytes)?;
    if 1 <= desk && desk <= 5 {
        Ok((desk, rest))
    } else {
        Err(WireFault::BadBody)
    }
}

/// How a desk differs, or that none does.
#[tactic(auto, unfolding(crate::specs::Reading::difference_at))]
fn difference_of(bytes: &[u8]) -> Result<(Option<Difference>, &[u8]), WireFault>
    ensures { GivesField (λ x. (x.0, x.1.now)) result (difference_at bytes.now) }
{
    match bytes {
        [0, rest @ ..] => Ok((None, rest)),
        [1, rest @ ..] => {
            let (desk, rest) = desk_of(rest)?;
            let (position, rest) = position_of(rest)?;
            Ok((Some(Difference::OtherEntry { desk, position }), rest))
        }
        [2, rest @ ..] => {
            let (desk, rest) = desk_of(rest)?;
            let (length, rest) = position_of(rest)?;
            Ok((Some(Difference::Shorter { desk, length }), rest))
        }
        _ => Err(WireFault::BadBody),
    }
}

/// The same in a version, of which those before 5 tell none.
#[tactic(auto, unfolding(crate::specs::Reading::differs_at))]
pub(crate) fn differs_of(
    version: Version,
    bytes: &[u8],
) -> Result<(Option<Difference>, &[u8]), WireFault>
    ensures { GivesField (λ x. (x.0, x.1.now)) result (differs_at version bytes.now) }
{
    match version {
        Version::One | Version::Two | Version::Three | Version::Four => Ok((None, bytes)),
        Version::Five => difference_of(bytes),
    }
}

#[tactic(auto, unfolding(crate::specs::Reading::id_at))]
pub(crate) fn id_of(bytes: &[u8]) -> Result<(u64, &[u8]), WireFault>
    ensures value { GivesField (λ x. (x.0, x.1.now)) result (id_at bytes.now) }
    ensures in_range { IfOk result (λ x. IsId x.0) }
{
    let (id, rest) = u64_of(bytes)?;
    if 1 <= id && id <= 9_223_372_036_854_775_807 {
        Ok((id, rest))
    } else {
        Err(WireFault::BadBody)
    }
}

/// Two bytes of length, at most 600, and that many bytes.
#[tactic(auto, unfolding(crate::specs::Reading::text_at))]
fn text_of(bytes: &[u8]) -> Result<(&[u8], &[u8]), WireFault>
    ensures value { GivesField (λ x. (x.0.now, x.1.now)) result (text_at bytes.now) }
    ensures in_range { IfOk result (λ x. IsText x.0.now) }
{
    let (len, rest) = u16_of(bytes)?;
    let len = usize::from(len);
    if len <= 600 && len <= rest.len() {
        Ok(rest.split_at(len))
    } else {
        Err(WireFault::BadBody)
    }
}

/// An entry as it is in the bytes of a frame.
#[derive(Clone, Copy)]
pub(crate) struct EntryPart<'a> {
    id: u64,
    text: &'a [u8],
}

impl EntryPart<'_> {
    /// The entry, with a copy of the text.
    pub(crate) fn to_entry(self, alloc: Global) -> Result<Entry, WireFault>
        requires { IsPart self }
        ensures value { IfOk result (λ entry. entry ≡ part_entry self.entry) }
        ensures memory { IfErr result (λ e. e ≡ NoMemory) }
    {
        match Entry::new(alloc, self.id, self.text) {
            Ok(entry) => Ok(entry),
            Err(EntryFault::NoMemory) => Err(WireFault::NoMemory),
            Err(EntryFault::BadId | EntryFault::TooLong) => unreachable!(),
        }
    }
}

#[tactic(auto, unfolding(crate::specs::Reading::entry_at))]
pub(crate) fn entry_of(bytes: &[u8]) -> Result<(EntryPart<'_>, &[u8]), WireFault>
    ensures value { GivesField (λ x. (part_entry x.0, x.1.now)) result (entry_at bytes.now) }
    ensures in_range { IfOk result (λ x. IsPart x.0) }
{
    let (id, rest) = id_of(bytes)?;
    let (text, rest) = text_of(rest)?;
    Ok((EntryPart { id, text }, rest))
}

/// A vote as it is in the bytes of a frame.
#[derive(Clone, Copy)]
pub(crate) struct VotePart<'a> {
    ballot: Ballot,
    entry: EntryPart<'a>,
}

impl VotePart<'_> {
    /// The vote, with a copy of the entry's text.
    pub(crate) fn to_report(self, alloc: Global) -> Result<Report, WireFault>
        requires { IsPart self.entry }
        ensures value { IfOk result (λ report. report ≡ part_report self.entry) }
        ensures memory { IfErr result (λ e. e ≡ NoMemory) }
    {
        let entry = self.entry.to_entry(alloc)?;
        Ok(Report {
            ballot: self.ballot,
            entry,
        })
    }
}

#[tactic(auto, unfolding(crate::specs::Reading::report_at))]
pub(crate) fn report_of(bytes: &[u8]) -> Result<(Option<VotePart<'_>>, &[u8]), WireFault>
    ensures value { GivesField (λ x. (option_map (λ v. part_report v) x.0, x.1.now)) result
        (report_at bytes.now) }
    ensures in_range { IfOk result (λ x. IfSome x.0 (λ v. IsPart v.entry)) }
{
    match bytes {
        [0, rest @ ..] => Ok((None, rest)),
        [1, rest @ ..] => {
            let (ballot, rest) = ballot_of(rest)?;
            let (entry, rest) = entry_of(rest)?;
            Ok((Some(VotePart { ballot, entry }), rest))
        }
        _ => Err(WireFault::BadBody),
    }
}

/// What a number stands for, if it stands for something.
fn there<A: Copy>(member: Option<A>) -> Result<A, WireFault>
    ensures { GivesField (λ x. x) result member }
{
    match member {
        Some(member) => Ok(member),
        None => Err(WireFault::BadBody),
    }
}

/// The event with this number.
#[tactic(auto, unfolding(formats::specs::Events::event_of_number))]
fn event_numbered(number: u8) -> Option<Event>
    ensures { result ≡ numbered event_number all_events number }
{
    Event::from_number(number)
}

#[tactic(auto, unfolding(crate::specs::Reading::member_at))]
fn any_event_of(bytes: &[u8]) -> Result<(Event, &[u8]), WireFault>
    ensures { GivesField (λ x. (x.0, x.1.now)) result
        (member_at event_number all_events bytes.now) }
{
    let (number, rest) = byte_of(bytes)?;
    let event = there(event_numbered(number))?;
    Ok((event, rest))
}

/// An event whose sheets can be asked for in this version.
#[tactic(auto, unfolding(crate::specs::Reading::event_at))]
pub(crate) fn event_of(version: Version, bytes: &[u8]) -> Result<(Event, &[u8]), WireFault>
    ensures { GivesField (λ x. (x.0, x.1.now)) result (event_at version bytes.now) }
{
    let (event, rest) = any_event_of(bytes)?;
    if event.number() <= version.last_event() {
        Ok((event, rest))
    } else {
        Err(WireFault::BadBody)
    }
}

#[tactic(auto, unfolding(crate::specs::Reading::member_at))]
pub(crate) fn style_of(bytes: &[u8]) -> Result<(SheetStyle, &[u8]), WireFault>
    ensures { GivesField (λ x. (x.0, x.1.now)) result (member_at style_number styles bytes.now) }
{
    let (number, rest) = byte_of(bytes)?;
    let style = there(style_numbered(number))?;
    Ok((style, rest))
}

#[tactic(auto, unfolding(crate::specs::Reading::member_at))]
fn any_refusal_of(bytes: &[u8]) -> Result<(ClientRefusal, &[u8]), WireFault>
    ensures { GivesField (λ x. (x.0, x.1.now)) result
        (member_at refusal_number refusals bytes.now) }
{
    let (number, rest) = byte_of(bytes)?;
    let refusal = there(ClientRefusal::from_number(number))?;
    Ok((refusal, rest))
}

/// A refusal that this version tells.
#[tactic(auto, unfolding(crate::specs::Reading::refusal_at))]
pub(crate) fn refusal_of(
    version: Version,
    bytes: &[u8],
) -> Result<(ClientRefusal, &[u8]), WireFault>
    ensures { GivesField (λ x. (x.0, x.1.now)) result (refusal_at version bytes.now) }
{
    let (refusal, rest) = any_refusal_of(bytes)?;
    if refusal.number() <= version.last_refusal() {
        Ok((refusal, rest))
    } else {
        Err(WireFault::BadBody)
    }
}

#[tactic(auto, unfolding(crate::specs::Reading::member_at))]
pub(crate) fn role_of(bytes: &[u8]) -> Result<(DeskRole, &[u8]), WireFault>
    ensures { GivesField (λ x. (x.0, x.1.now)) result (member_at role_number roles bytes.now) }
{
    let (number, rest) = byte_of(bytes)?;
    let role = there(DeskRole::from_number(number))?;
    Ok((role, rest))
}

/// Done is 0, and a refusal the number of its code.
#[tactic(auto, unfolding(texts::specs::Codes::code_numbered), using(crate::proofs::Bodies::coded))]
fn answer_numbered(number: u8) -> Option<Answer>
    ensures { result ≡ numbered answer_number answers number }
{
    if number == 0 {
        return Some(Answer::Done);
    }
    match Code::from_number(number) {
        Some(code) => Some(Answer::Refused(code)),
        None => None,
    }
}

#[tactic(auto, unfolding(crate::specs::Reading::member_at))]
fn any_answer_of(bytes: &[u8]) -> Result<(Answer, &[u8]), WireFault>
    ensures { GivesField (λ x. (x.0, x.1.now)) result (member_at answer_number answers bytes.now) }
{
    let (number, rest) = byte_of(bytes)?;
    let answer = there(answer_numbered(number))?;
    Ok((answer, rest))
}

/// An answer that this version tells.
#[tactic(auto, unfolding(crate::specs::Reading::answer_at))]
fn answer_of(version: Version, bytes: &[u8]) -> Result<(Answer, &[u8]), WireFault>
    ensures { GivesField (λ x. (x.0, x.1.now)) result (answer_at version bytes.now) }
{
    let (answer, rest) = any_answer_of(bytes)?;
    if number_of(answer) <= version.last_code() {
        Ok((answer, rest))
    } else {
        Err(WireFault::BadBody)
    }
}

#[tactic(auto, unfolding(crate::specs::Reading::state_at))]
pub(crate) fn state_of(version: Version, bytes: &[u8]) -> Result<(CommandState, &[u8]), WireFault>
    ensures { GivesField (λ x. (x.0, x.1.now)) result (state_at version bytes.now) }
{
    match bytes {
        [0, rest @ ..] => Ok((CommandState::Unknown, rest)),
        [1, rest @ ..] => Ok((CommandState::Pending, rest)),
        [2, rest @ ..] => {
            let (pos, rest) = position_of(rest)?;
            let (answer, rest) = answer_of(version, rest)?;
            Ok((CommandState::Done { pos, answer }, rest))
        }
        _ => Err(WireFault::BadBody),
    }
}

/// Nothing is left.
pub(crate) fn end(rest: &[u8]) -> Result<(), WireFault>
    ensures { GivesField (λ x. x) result (ended rest.now) }
{
    if rest.is_empty() {
        Ok(())
    } else {
        Err(WireFault::BadBody)
    }
}
