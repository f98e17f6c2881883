//! Frames as bytes.

ghost use Rattle.std.specs.Prelude.{◌≡◌, ◌≤◌, ◌<◌, ◌∷◌, ◌++◌, IfOk, OnOk, length};
ghost use Rattle.std.specs.{Int.w16, Int.w32, Int.w64, Int.to_be_bytes, List.flat_map};
ghost use Rattle.wire.specs.{Ranges.IsFrame, Ranges.IsBody, Spelling.inside, Spelling.spelling};
ghost use Rattle.wire.specs.Spelling.{ballot_bytes, text_bytes, entry_bytes, count_bytes, body};
ghost use Rattle.wire.specs.Spelling.{promised_bytes, lengths_bytes, standing_bytes, log_bytes};
ghost use Rattle.wire.specs.Spelling.{difference_bytes, differs_bytes, report_bytes, state_bytes};

use crate::NoMemory;
use crate::frame::{Frame, FrameBody};
use crate::standing::{DeskStatus, Difference, Lengths};
use crate::values::{CommandState, Version, number_of, style_number};
use acceptor::ballot::Ballot;
use acceptor::entry::Entry;
use acceptor::message::Report;
use std::alloc::Global;
use texts::Answer;

fn put_u32(out: &mut Vec<u8>, number: u32) -> Result<(), NoMemory>
    ensures { OnOk result (out.new.items ≡ out.old.items ++ to_be_bytes w32 number) }
{
    out.extend_from_slice(&number.to_be_bytes())
}

fn put_u64(out: &mut Vec<u8>, number: u64) -> Result<(), NoMemory>
    ensures { OnOk result (out.new.items ≡ out.old.items ++ to_be_bytes w64 number) }
{
    out.extend_from_slice(&number.to_be_bytes())
}

fn put_ballot(out: &mut Vec<u8>, ballot: Ballot) -> Result<(), NoMemory>
    ensures { OnOk result (out.new.items ≡ out.old.items ++ ballot_bytes ballot) }
{
    put_u32(out, ballot.number)?;
    out.push(ballot.desk)?;
    Ok(())
}

/// A ballot and a position, with which five kinds begin.
fn put_place(out: &mut Vec<u8>, ballot: Ballot, pos: u32) -> Result<(), NoMemory>
    ensures { OnOk result (out.new.items ≡
        out.old.items ++ (ballot_bytes ballot ++ to_be_bytes w32 pos)) }
{
    put_ballot(out, ballot)?;
    put_u32(out, pos)
}

fn put_text(out: &mut Vec<u8>, text: &[u8]) -> Result<(), NoMemory>
    requires { length text.now ≤ 600 }
    ensures { OnOk result (out.new.items ≡ out.old.items ++ text_bytes text.now) }
{
    out.extend_from_slice(&(text.len() as u16).to_be_bytes())?;
    out.extend_from_slice(text)
}

fn put_entry(out: &mut Vec<u8>, entry: &Entry) -> Result<(), NoMemory>
    ensures { OnOk result (out.new.items ≡ out.old.items ++ entry_bytes entry.now) }
{
    put_u64(out, entry.id())?;
    put_text(out, entry.text())
}

fn put_report(out: &mut Vec<u8>, vote: &Option<Report>) -> Result<(), NoMemory>
    ensures { OnOk result (out.new.items ≡ out.old.items ++ report_bytes vote.now) }
{
    match vote {
        None => {
            out.push(0)?;
            Ok(())
        }
        Some(report) => {
            out.push(1)?;
            put_ballot(out, report.ballot)?;
            put_entry(out, &report.entry)
        }
    }
}

fn put_state(out: &mut Vec<u8>, state: CommandState) -> Result<(), NoMemory>
    ensures { OnOk result (out.new.items ≡ out.old.items ++ state_bytes state) }
{
    match state {
        CommandState::Unknown => out.push(0)?,
        CommandState::Pending => out.push(1)?,
        CommandState::Done { pos, answer } => {
            out.push(2)?;
            put_u32(out, pos)?;
            out.push(number_of(answer))?;
        }
    }
    Ok(())
}

/// How many entries a Decided has, which version 1 does not say.
fn put_count(out: &mut Vec<u8>, version: Version, count: usize) -> Result<(), NoMemory>
    requires { count < 256 }
    ensures { OnOk result (out.new.items ≡ out.old.items ++ count_bytes version count) }
{
    match version {
        Version::One => Ok(()),
        Version::Two | Version::Three | Version::Four | Version::Five => {
            out.push(count as u8)?;
            Ok(())
        }
    }
}

#[tactic(auto, using(crate::proofs::Runs::put_more))]
fn put_entries(out: &mut Vec<u8>, entries: &[Entry]) -> Result<(), NoMemory>
    ensures { OnOk result (out.new.items ≡ out.old.items ++ flat_map entry_bytes entries.now) }
{
    for entry in entries {
        put_entry(out, entry)?;
    }
    Ok(())
}

/// The ballot that was promised, or five zero bytes.
fn put_promised(out: &mut Vec<u8>, promised: Option<Ballot>) -> Result<(), NoMemory>
    ensures { OnOk result (out.new.items ≡ out.old.items ++ promised_bytes promised) }
{
    match promised {
        None => out.extend_from_slice(&[0; 5]),
        Some(ballot) => put_ballot(out, ballot),
    }
}

/// The lengths of logs, one after the other.
#[tactic(auto, using(crate::proofs::Standings::put_number_more))]
fn put_numbers(out: &mut Vec<u8>, numbers: &[u32]) -> Result<(), NoMemory>
    ensures { OnOk result
        (out.new.items ≡ out.old.items ++ flat_map (λ n. to_be_bytes w32 n) numbers.now) }
{
    for number in numbers {
        put_u32(out, *number)?;
    }
    Ok(())
}

/// How many desks the hall has, and a length for each.
fn put_lengths(out: &mut Vec<u8>, told: Lengths) -> Result<(), NoMemory>
    ensures { OnOk result (out.new.items ≡ out.old.items ++ lengths_bytes told) }
{
    match told {
        Lengths::OfThree(lengths) => {
            out.push(3)?;
            put_numbers(out, &lengths)
        }
        Lengths::OfFive(lengths) => {
            out.push(5)?;
            put_numbers(out, &lengths)
        }
    }
}

/// A desk and a number.
fn put_desk(out: &mut Vec<u8>, kind: u8, desk: u8, number: u32) -> Result<(), NoMemory>
    ensures { OnOk result
        (out.new.items ≡ out.old.items ++ (kind ∷ desk ∷ to_be_bytes w32 number)) }
{
    out.extend_from_slice(&[kind, desk])?;
    put_u32(out, number)
}

/// How a desk differs, or a zero byte.
fn put_difference(out: &mut Vec<u8>, differs: Option<Difference>) -> Result<(), NoMemory>
    ensures { OnOk result (out.new.items ≡ out.old.items ++ difference_bytes differs) }
{
    match differs {
        None => {
            out.push(0)?;
            Ok(())
        }
        Some(Difference::OtherEntry { desk, position }) => put_desk(out, 1, desk, position),
        Some(Difference::Shorter { desk, length }) => put_desk(out, 2, desk, length),
    }
}

/// The same in a version, of which those before 5 do not say it.
fn put_differs(
    out: &mut Vec<u8>,
    version: Version,
    differs: Option<Difference>,
) -> Result<(), NoMemory>
    ensures { OnOk result (out.new.items ≡ out.old.items ++ differs_bytes version differs) }
{
    match version {
        Version::One | Version::Two | Version::Three | Version::Four => Ok(()),
        Version::Five => put_difference(out, differs),
    }
}

fn put_standing(out: &mut Vec<u8>, version: Version, standing: DeskStatus) -> Result<(), NoMemory>
    ensures { OnOk result (out.new.items ≡ out.old.items ++ standing_bytes version standing) }
{
    put_u32(out, standing.length)?;
    out.extend_from_slice(&[standing.waiting, standing.role.number()])?;
    put_promised(out, standing.promised)?;
    put_lengths(out, standing.told)?;
    put_differs(out, version, standing.differs)
}

/// A position, the length of the log, how many entries follow, and the entries.
fn put_log(out: &mut Vec<u8>, position: u32, len: u32, entries: &[Entry]) -> Result<(), NoMemory>
    requires { length entries.now ≤ 400 }
    ensures { OnOk result
        (out.new.items ≡ out.old.items ++ log_bytes position len entries.now) }
{
    put_u32(out, position)?;
    put_u32(out, len)?;
    out.extend_from_slice(&(entries.len() as u16).to_be_bytes())?;
    put_entries(out, entries)
}

/// The fields of a frame of this version, in their order.
fn put_body(out: &mut Vec<u8>, version: Version, what: &FrameBody) -> Result<(), NoMemory>
    requires { IsBody version what.now }
    ensures { OnOk result (out.new.items ≡ out.old.items ++ body version what.now) }
{
    match what {
        FrameBody::Prepare { ballot, pos } | FrameBody::Accepted { ballot, pos } => {
            put_place(out, *ballot, *pos)
        }
        FrameBody::Promise { ballot, pos, vote } => {
            put_place(out, *ballot, *pos)?;
            put_report(out, vote)
        }
        FrameBody::Accept { ballot, pos, entry } => {
            put_place(out, *ballot, *pos)?;
            put_entry(out, entry)
        }
        FrameBody::Nack {
            ballot,
            pos,
            promised,
        } => {
            put_place(out, *ballot, *pos)?;
            put_ballot(out, *promised)
        }
        FrameBody::Behind { len } => put_u32(out, *len),
        FrameBody::Decided { pos, entries } => {
            put_u32(out, *pos)?;
            put_count(out, version, entries.as_slice().len())?;
            put_entries(out, entries.as_slice())
        }
        FrameBody::Submit { entry } => put_entry(out, entry),
        FrameBody::Ask { id } | FrameBody::Taken { id } => put_u64(out, *id),
        FrameBody::Sheet {
            event,
            round,
            position,
            style,
        } => {
            out.extend_from_slice(&[event.number(), *round])?;
            put_u32(out, *position)?;
            out.push(style_number(*style))?;
            Ok(())
        }
        FrameBody::Told { id, state } => {
            put_u64(out, *id)?;
            put_state(out, *state)
        }
        FrameBody::SheetText { text } => out.extend_from_slice(text.as_slice()),
        FrameBody::Refused { refusal } => {
            out.push(refusal.number())?;
            Ok(())
        }
        FrameBody::Log { position } => put_u32(out, *position),
        FrameBody::Await { id, seconds } => {
            put_u64(out, *id)?;
            out.push(*seconds)?;
            Ok(())
        }
        FrameBody::Standing { standing } => put_standing(out, version, *standing),
        FrameBody::Entries {
            position,
            length,
            entries,
        } => put_log(out, *position, *length, entries.as_slice()),
        FrameBody::Tick | FrameBody::Stop | FrameBody::Fine | FrameBody::Status => Ok(()),
    }
}

/// What is after the length.
fn put_inside(out: &mut Vec<u8>, frame: &Frame) -> Result<(), NoMemory>
    requires { IsFrame frame.now }
    ensures { OnOk result (out.new.items ≡ out.old.items ++ inside frame.now) }
{
    out.push(frame.version.number())?;
    put_u32(out, frame.hall)?;
    out.extend_from_slice(&[frame.from, frame.to, frame.what.kind()])?;
    put_body(out, frame.version, &frame.what)
}

/// The bytes of a frame whose fields are in their ranges: a length of four bytes, the version, the
/// hall, the sender, the receiver, the kind and its fields. Numbers are unsigned, the highest byte
/// first. NoMemory is the only error.
#[tactic(auto, using(crate::proofs::Streams::inside_fits))]
pub fn encode(alloc: Global, frame: &Frame) -> Result<Vec<u8>, NoMemory>
    requires { IsFrame frame.now }
    ensures { IfOk result (λ bytes. bytes.items ≡ spelling frame.now) }
{
    let mut inside = Vec::new(alloc);
    put_inside(&mut inside, frame)?;
    let mut bytes = Vec::with_capacity(alloc, inside.len() + 4)?;
    put_u32(&mut bytes, inside.len() as u32)?;
    bytes.extend_from_slice(&inside)?;
    Ok(bytes)
}
