//! Whether the logs of a hall's desks are alike, as far as all have them.

ghost use Rattle.std.specs.Prelude.{◌≡◌, ◌≤◌, IfOk, IfSome, OnOk};
ghost use Rattle.desk_requests.specs.Comparing.{AsksLog, Compares, ComparesAll, ComparesMore};
ghost use Rattle.desk_requests.specs.Comparing.{common_length, entries_of, first_told, length_in};
ghost use Rattle.desk_requests.specs.Comparing.{other_from, other_in, standing_desk};
ghost use Rattle.wire.specs.Ranges.{IsDesk};

use crate::polling::Inquiry;
use acceptor::{Entry, MOST_ENTRIES};
use batch::{BatchFault, Contact, Dial, ask_over};
use client::log_request;
use standings::{PolledDesk, StatusReply};
use std::alloc::{AllocError, Global};
use wire::{Entries, FrameBody};

/// How many of the last entries that all logs have are compared: as many as one answer has.
const COMPARED: u32 = 400;

/// The length of a log, where a desk said how it is, and else the greatest that one can have.
fn length_in(reply: &StatusReply) -> u32
    ensures { result ≡ length_in reply.now }
{
    match reply {
        StatusReply::Stands { standing, .. } => standing.length,
        _ => MOST_ENTRIES,
    }
}

/// The length of the shortest log of the desks that said how they are, at most the greatest.
fn common_length(polled: &[PolledDesk<'_>]) -> u32
    ensures same { result ≡ common_length polled.now }
    ensures most { result ≤ 65536 }
{
    let [one, rest @ ..] = polled else {
        return MOST_ENTRIES;
    };
    length_in(&one.reply).min(common_length(rest))
}

/// The entries of an answer, if they came.
fn entries_of(came: Result<FrameBody, BatchFault>) -> Option<Entries>
    ensures { result ≡ entries_of came }
{
    match came {
        Ok(FrameBody::Entries { entries, .. }) => Some(entries),
        _ => None,
    }
}

/// The number of a desk that said how it is, where it is one that a desk can have.
fn standing_desk(reply: &StatusReply) -> Option<u8>
    ensures same { result ≡ standing_desk reply.now }
    ensures desk { IfSome result IsDesk }
{
    match reply {
        StatusReply::Stands { desk, .. } => {
            if 1 <= *desk && *desk <= 5 {
                Some(*desk)
            } else {
                None
            }
        }
        _ => None,
    }
}

/// The entries that a desk reports from a position on, where it said how it is.
fn entries_at<D: Dial>(
    dial: &mut D,
    inquiry: Inquiry<'_>,
    position: u32,
    one: &PolledDesk<'_>,
) -> Option<Entries>
    requires { position ≤ 65536 }
    ensures { AsksLog inquiry.entry position one.now.address.now (standing_desk one.now.reply)
        (D.dialed dial.old) (D.dialed dial.new) result }
{
    let Some(desk) = standing_desk(&one.reply) else {
        return None;
    };
    let contact = Contact {
        address: one.address,
        patience: inquiry.patience,
        key: inquiry.key,
    };
    let request = log_request(inquiry.hall, desk, position);
    let came = ask_over(dial, contact, &request);
    entries_of(came)
}

/// The first position, from this one on and below an end, at which two logs have different entries;
/// these are their entries there.
#[tactic(auto, unfolding(crate::specs::Comparing::other_from))]
fn other_from(position: u32, end: u32, known: &[Entry], told: &[Entry]) -> Option<u32>
    ensures { result ≡ other_from position end known.now told.now }
{
    let [one, ones @ ..] = known else {
        return None;
    };
    let [other, others @ ..] = told else {
        return None;
    };
    if end <= position {
        return None;
    }
    if one != other {
        return Some(position);
    }
    other_from(position + 1, end, ones, others)
}

/// The same of what two desks reported, where both did.
fn other_in(position: u32, end: u32, known: &Option<Entries>, told: &Option<Entries>) -> Option<u32>
    ensures { result ≡ other_in position end known.now told.now }
{
    let Some(one) = known else {
        return None;
    };
    let Some(other) = told else {
        return None;
    };
    other_from(position, end, one.as_slice(), other.as_slice())
}

/// What the first of the desks reported.
fn first_told(known: Option<Entries>, told: Option<Entries>) -> Option<Entries>
    ensures { result ≡ first_told known told }
{
    match known {
        Some(known) => Some(known),
        None => told,
    }
}

/// Compares the entries from a position on and below an end of these desks with those that are
/// known, or those of the first one that reports any, and puts each desk after the others, with
/// where it has another entry.
fn compare_each<'a, D: Dial>(
    dial: &mut D,
    inquiry: Inquiry<'_>,
    position: u32,
    end: u32,
    known: Option<Entries>,
    polled: &[PolledDesk<'a>],
    compared: &mut Vec<PolledDesk<'a>>,
) -> Result<(), AllocError>
    requires { position ≤ 65536 }
    ensures { OnOk result (ComparesMore inquiry.entry position end known polled.now
        compared.old.items compared.new.items (D.dialed dial.old) (D.dialed dial.new)) }
{
    let [one, rest @ ..] = polled else {
        return Ok(());
    };
    let told = entries_at(dial, inquiry, position, one);
    let other = other_in(position, end, &known, &told);
    compared.push(PolledDesk {
        asked: one.asked,
        address: one.address,
        reply: one.reply,
        other,
    })?;
    let first = first_told(known, told);
    compare_each(dial, inquiry, position, end, first, rest, compared)
}

/// Compares the last entries that all logs have of the desks that said how they are, at most 400,
/// with those of the first of these desks that reports them, and gives each desk with where it has
/// another one.
pub(crate) fn compare<'a, D: Dial>(
    alloc: Global,
    dial: &mut D,
    inquiry: Inquiry<'_>,
    polled: &[PolledDesk<'a>],
) -> Result<Vec<PolledDesk<'a>>, AllocError>
    ensures { IfOk result (λ compared. ComparesAll inquiry.entry polled.now compared.items
        (D.dialed dial.old) (D.dialed dial.new)) }
{
    let end = common_length(polled);
    let from = end.saturating_sub(COMPARED);
    let mut compared = Vec::new(alloc);
    compare_each(dial, inquiry, from, end, None, polled, &mut compared)?;
    Ok(compared)
}
