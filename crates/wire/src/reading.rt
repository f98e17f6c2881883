//! One frame, from the bytes after its length.

ghost use Rattle.std.specs.Prelude.{◌≡◌, IfOk, IfErr};
ghost use Rattle.wire.specs.{declared.fault.WireFault.TheVariants.NoMemory, Ranges.way_of_kind};
ghost use Rattle.wire.specs.declared.frame.FrameBody.TheVariants.{SheetText};
ghost use Rattle.wire.specs.Reading.{prepare_of, promise_of, accept_of, accepted_of, nack_of};
ghost use Rattle.wire.specs.Reading.{behind_of, submit_of, ask_of, sheet_of, taken_of, told_of};
ghost use Rattle.wire.specs.Reading.{refused_of, log_of, await_of, standing_of, empty_of, what_of};
ghost use Rattle.wire.specs.Reading.{is_kind, is_desk, goes, frame_of};
ghost use Rattle.wire.specs.model.Gives.{GivesBody, GivesFrame};

use crate::bytes::Bytes;
use crate::decided::decided_of;
use crate::fault::WireFault;
use crate::fields::{
    ballot_of, byte_of, differs_of, end, entry_of, event_of, id_of, lengths_of, limited_of,
    log_length_of, position_of, promised_of, refusal_of, report_of, role_of, state_of, style_of,
    u32_of,
};
use crate::frame::{Frame, FrameBody};
use crate::log_entries::entries_of;
use crate::standing::DeskStatus;
use crate::values::Version;
use acceptor::MOST_ENTRIES;
use std::alloc::Global;

fn prepare_of(bytes: &[u8]) -> Result<FrameBody, WireFault>
    ensures { GivesBody result (prepare_of bytes.now) }
{
    let (ballot, rest) = ballot_of(bytes)?;
    let (pos, rest) = position_of(rest)?;
    end(rest)?;
    Ok(FrameBody::Prepare { ballot, pos })
}

fn promise_of(alloc: Global, bytes: &[u8]) -> Result<FrameBody, WireFault>
    ensures { GivesBody result (promise_of bytes.now) }
{
    let (ballot, rest) = ballot_of(bytes)?;
    let (pos, rest) = position_of(rest)?;
    let (vote, rest) = report_of(rest)?;
    end(rest)?;
    let vote = match vote {
        None => None,
        Some(part) => Some(part.to_report(alloc)?),
    };
    Ok(FrameBody::Promise { ballot, pos, vote })
}

fn accept_of(alloc: Global, bytes: &[u8]) -> Result<FrameBody, WireFault>
    ensures { GivesBody result (accept_of bytes.now) }
{
    let (ballot, rest) = ballot_of(bytes)?;
    let (pos, rest) = position_of(rest)?;
    let (entry, rest) = entry_of(rest)?;
    end(rest)?;
    let entry = entry.to_entry(alloc)?;
    Ok(FrameBody::Accept { ballot, pos, entry })
}

fn accepted_of(bytes: &[u8]) -> Result<FrameBody, WireFault>
    ensures { GivesBody result (accepted_of bytes.now) }
{
    let (ballot, rest) = ballot_of(bytes)?;
    let (pos, rest) = position_of(rest)?;
    end(rest)?;
    Ok(FrameBody::Accepted { ballot, pos })
}

fn nack_of(bytes: &[u8]) -> Result<FrameBody, WireFault>
    ensures { GivesBody result (nack_of bytes.now) }
{
    let (ballot, rest) = ballot_of(bytes)?;
    let (pos, rest) = position_of(rest)?;
    let (promised, rest) = ballot_of(rest)?;
    end(rest)?;
    Ok(FrameBody::Nack {
        ballot,
        pos,
        promised,
    })
}

fn behind_of(bytes: &[u8]) -> Result<FrameBody, WireFault>
    ensures { GivesBody result (behind_of bytes.now) }
{
    let (len, rest) = limited_of(MOST_ENTRIES, bytes)?;
    end(rest)?;
    Ok(FrameBody::Behind { len })
}

fn submit_of(alloc: Global, bytes: &[u8]) -> Result<FrameBody, WireFault>
    ensures { GivesBody result (submit_of bytes.now) }
{
    let (entry, rest) = entry_of(bytes)?;
    end(rest)?;
    let entry = entry.to_entry(alloc)?;
    Ok(FrameBody::Submit { entry })
}

fn ask_of(bytes: &[u8]) -> Result<FrameBody, WireFault>
    ensures { GivesBody result (ask_of bytes.now) }
{
    let (id, rest) = id_of(bytes)?;
    end(rest)?;
    Ok(FrameBody::Ask { id })
}

fn sheet_of(version: Version, bytes: &[u8]) -> Result<FrameBody, WireFault>
    ensures { GivesBody result (sheet_of version bytes.now) }
{
    let (event, rest) = event_of(version, bytes)?;
    let (round, rest) = byte_of(rest)?;
    let (position, rest) = u32_of(rest)?;
    let (style, rest) = style_of(rest)?;
    end(rest)?;
    Ok(FrameBody::Sheet {
        event,
        round,
        position,
        style,
    })
}

fn taken_of(bytes: &[u8]) -> Result<FrameBody, WireFault>
    ensures { GivesBody result (taken_of bytes.now) }
{
    let (id, rest) = id_of(bytes)?;
    end(rest)?;
    Ok(FrameBody::Taken { id })
}

fn told_of(version: Version, bytes: &[u8]) -> Result<FrameBody, WireFault>
    ensures { GivesBody result (told_of version bytes.now) }
{
    let (id, rest) = id_of(bytes)?;
    let (state, rest) = state_of(version, rest)?;
    end(rest)?;
    Ok(FrameBody::Told { id, state })
}

fn refused_of(version: Version, bytes: &[u8]) -> Result<FrameBody, WireFault>
    ensures { GivesBody result (refused_of version bytes.now) }
{
    let (refusal, rest) = refusal_of(version, bytes)?;
    end(rest)?;
    Ok(FrameBody::Refused { refusal })
}

fn log_of(bytes: &[u8]) -> Result<FrameBody, WireFault>
    ensures { GivesBody result (log_of bytes.now) }
{
    let (position, rest) = log_length_of(bytes)?;
    end(rest)?;
    Ok(FrameBody::Log { position })
}

fn await_of(bytes: &[u8]) -> Result<FrameBody, WireFault>
    ensures { GivesBody result (await_of bytes.now) }
{
    let (id, rest) = id_of(bytes)?;
    let (seconds, rest) = byte_of(rest)?;
    end(rest)?;
    Ok(FrameBody::Await { id, seconds })
}

fn standing_of(version: Version, bytes: &[u8]) -> Result<FrameBody, WireFault>
    ensures { GivesBody result (standing_of version bytes.now) }
{
    let (length, rest) = log_length_of(bytes)?;
    let (waiting, rest) = byte_of(rest)?;
    let (role, rest) = role_of(rest)?;
    let (promised, rest) = promised_of(rest)?;
    let (told, rest) = lengths_of(rest)?;
    let (differs, rest) = differs_of(version, rest)?;
    end(rest)?;
    let standing = DeskStatus {
        length,
        waiting,
        role,
        promised,
        told,
        differs,
    };
    Ok(FrameBody::Standing { standing })
}

fn sheet_text_of(alloc: Global, bytes: &[u8]) -> Result<FrameBody, WireFault>
    ensures value { IfOk result (λ what. what ≡ SheetText bytes.now) }
    ensures memory { IfErr result (λ e. e ≡ NoMemory) }
{
    let text = Bytes::new(Vec::from_slice(alloc, bytes)?);
    Ok(FrameBody::SheetText { text })
}

/// A kind without fields.
fn empty_of(what: FrameBody, bytes: &[u8]) -> Result<FrameBody, WireFault>
    ensures { GivesBody result (empty_of what bytes.now) }
{
    end(bytes)?;
    Ok(what)
}

/// The fields of the kind with this number, in a version that has the kind.
#[tactic(auto, unfolding(crate::specs::Reading::what_of))]
fn what_of(alloc: Global, version: Version, kind: u8, bytes: &[u8]) -> Result<FrameBody, WireFault>
    ensures { GivesBody result (what_of version kind bytes.now) }
{
    match kind {
        1 => prepare_of(bytes),
        2 => promise_of(alloc, bytes),
        3 => accept_of(alloc, bytes),
        4 => accepted_of(bytes),
        5 => nack_of(bytes),
        6 => behind_of(bytes),
        7 => decided_of(alloc, version, bytes),
        16 => submit_of(alloc, bytes),
        17 => ask_of(bytes),
        18 => sheet_of(version, bytes),
        19 => empty_of(FrameBody::Tick, bytes),
        20 => empty_of(FrameBody::Stop, bytes),
        21 => empty_of(FrameBody::Status, bytes),
        22 => log_of(bytes),
        23 => await_of(bytes),
        32 => taken_of(bytes),
        33 => told_of(version, bytes),
        34 => sheet_text_of(alloc, bytes),
        35 => refused_of(version, bytes),
        36 => empty_of(FrameBody::Fine, bytes),
        37 => standing_of(version, bytes),
        38 => entries_of(alloc, bytes),
        _ => Err(WireFault::BadBody),
    }
}

/// Whether a kind of the version has this number.
fn is_kind(version: Version, kind: u8) -> bool
    ensures { result ≡ is_kind version kind }
{
    match version {
        Version::One | Version::Two => matches!(kind, 1..=7 | 16..=20 | 32..=36),
        Version::Three | Version::Four => matches!(kind, 1..=7 | 16..=22 | 32..=38),
        Version::Five => matches!(kind, 1..=7 | 16..=23 | 32..=38),
    }
}

fn is_desk(number: u8) -> bool
    ensures { result ≡ is_desk number }
{
    1 <= number && number <= 5
}

/// The sender and the receiver fit the kind: 1 to 7 go from a desk to a desk, 16 to 23 from a
/// client to a desk, 32 to 38 from a desk to a client.
fn goes(kind: u8, from: u8, to: u8) -> bool
    ensures { result ≡ goes (way_of_kind kind) from to }
{
    if kind <= 7 {
        is_desk(from) && is_desk(to)
    } else if kind <= 23 {
        from == 0 && is_desk(to)
    } else {
        is_desk(from) && to == 0
    }
}

/// The frame that the bytes after a length spell, or the first fault: BadVersion, BadKind,
/// BadBody. Memory is taken only for a frame that is good.
#[tactic(auto, unfolding(crate::specs::Reading::frame_of), using(crate::proofs::WhatKind::kind_is))]
pub(crate) fn frame_of(alloc: Global, bytes: &[u8]) -> Result<Frame, WireFault>
    ensures { GivesFrame result (frame_of bytes.now) }
{
    let [number, a, b, c, d, from, to, kind, fields @ ..] = bytes else {
        return Err(WireFault::BadBody);
    };
    let Some(version) = Version::from_number(*number) else {
        return Err(WireFault::BadVersion);
    };
    if !is_kind(version, *kind) {
        return Err(WireFault::BadKind);
    }
    if !goes(*kind, *from, *to) {
        return Err(WireFault::BadBody);
    }
    let hall = u32::from_be_bytes([*a, *b, *c, *d]);
    let what = what_of(alloc, version, *kind, fields)?;
    Ok(Frame {
        version,
        hall,
        from: *from,
        to: *to,
        what,
    })
}
