//! What is seen of a frame before it is begun: how another desk of the hall differs, by what the
//! frame says, and for what an Await waits.

ghost use Rattle.std.specs.Prelude.{◌≡◌, ◌≤◌, ◌+◌, length, slice_get};
ghost use Rattle.std.specs.List.{AllByRecursion};
ghost use Rattle.wire.specs.Ranges.{IsDesk, IsDifference, IsFrame};
ghost use Rattle.serving.specs.Asking.{is_ours};
ghost use Rattle.serving.specs.Differing.{awaited_by, differs_by, first_difference, hears, is_all};
ghost use Rattle.serving.specs.Differing.{is_other, known_after, length_said, other_from, raised};

use crate::permission::Permission;
use acceptor::entry::Entry;
use learner::log::Log;
use replica::roles::heeding::is_desk;
use store::home::Home;
use wire::{Difference, Frame, FrameBody};

/// What an Await asks: what became of this id, once that is known, or after this many seconds.
#[derive(Clone, Copy, PartialEq, Eq, Debug)]
pub struct AwaitRequest {
    pub id: u64,
    pub seconds: u8,
}

/// What a frame waits for, where it is an Await that is for this desk.
pub fn awaited_by(home: Home, frame: &Frame) -> Option<AwaitRequest>
    ensures { result ≡ awaited_by home frame.now }
{
    if !is_ours(home, frame) {
        return None;
    }
    match &frame.what {
        FrameBody::Await { id, seconds } => Some(AwaitRequest {
            id: *id,
            seconds: *seconds,
        }),
        _ => None,
    }
}

/// Whether a connection may ask for everything.
fn is_all(may: Permission) -> bool
    ensures { result ≡ is_all may }
{
    match may {
        Permission::All => true,
        Permission::Entries | Permission::Sheets => false,
    }
}

/// Whether a frame is for this desk.
fn is_ours(home: Home, frame: &Frame) -> bool
    ensures { result ≡ is_ours home frame.now }
{
    frame.hall == home.hall && frame.to == home.desk
}

/// Whether a frame is one that a desk of the hall says to this one, on a connection that may ask so
/// much.
fn hears(home: Home, may: Permission, frame: &Frame) -> bool
    ensures { result ≡ hears home may frame.now }
{
    is_ours(home, frame) && (is_all(may) && is_desk(home.desks, frame.from))
}

/// Whether the log has another entry than the one that is reported at this position.
fn is_other(told: &Entry, log: &Log, pos: u32) -> bool
    ensures { result ≡ is_other told.now (slice_get log.now.entries pos) }
{
    match log.entry(pos) {
        Some(entry) => entry != told,
        None => false,
    }
}

/// The first of these entries, reported from a position on, where another one is in the log.
#[tactic(auto, unfolding(crate::specs::Differing::other_from))]
fn other_from(desk: u8, pos: u32, entries: &[Entry], log: &Log) -> Option<Difference>
    requires desk { IsDesk desk }
    requires room { pos + length entries.now ≤ 65536 }
    ensures other { result ≡ other_from desk pos entries.now log.now.entries }
    ensures in_range { IsDifference result }
{
    let [entry, rest @ ..] = entries else {
        return None;
    };
    if is_other(entry, log, pos) {
        return Some(Difference::OtherEntry {
            desk,
            position: pos,
        });
    }
    other_from(desk, pos + 1, rest, log)
}

/// How the sender of a frame differs, by what it says, where this is the log, and these are the
/// lengths of their logs that the hall's desks reported before: before the frame's connection was
/// opened, or before the frame on it. That of desk 1 is first.
pub fn differs_by(
    home: Home,
    may: Permission,
    frame: &Frame,
    log: &Log,
    known: [u32; 5],
) -> Option<Difference>
    requires spelled { IsFrame frame.now }
    requires few { home.desks ≤ 5 }
    requires most { AllByRecursion (λ len. len ≤ 65536) known }
    ensures differs { result ≡ differs_by home may log.now.entries known frame.now }
    ensures in_range { IsDifference result }
{
    if !hears(home, may, frame) {
        return None;
    }
    match &frame.what {
        FrameBody::Decided { pos, entries } => other_from(
            frame.from,
            *pos,
            entries.as_slice(),
            log,
        ),
        FrameBody::Behind { len } => {
            if *len < known[(frame.from - 1) as usize] {
                Some(Difference::Shorter {
                    desk: frame.from,
                    length: *len,
                })
            } else {
                None
            }
        }
        _ => None,
    }
}

/// How many entries a log has at least, where these are in it from a position on.
fn end_of(pos: u32, entries: &[Entry]) -> u32
    requires { pos + length entries.now ≤ 65536 }
    ensures end { result ≡ pos + length entries.now }
    ensures most { result ≤ 65536 }
{
    pos + entries.len() as u32
}

/// How many entries the log of a frame's sender has at least, by what it says.
fn length_said(frame: &Frame) -> u32
    requires { IsFrame frame.now }
    ensures said { result ≡ length_said frame.now.what }
    ensures most { result ≤ 65536 }
{
    match &frame.what {
        FrameBody::Decided { pos, entries } => end_of(*pos, entries.as_slice()),
        FrameBody::Behind { len } => *len,
        _ => 0,
    }
}

/// The lengths, of which that of this desk is at least `len`.
fn raised(known: [u32; 5], desk: u8, len: u32) -> [u32; 5]
    requires desk { IsDesk desk }
    requires len { len ≤ 65536 }
    requires most { AllByRecursion (λ each. each ≤ 65536) known }
    ensures raised { result ≡ raised desk len known }
    ensures most { AllByRecursion (λ each. each ≤ 65536) result }
{
    let mut known = known;
    let index = (desk - 1) as usize;
    known[index] = known[index].max(len);
    known
}

/// The lengths that the hall's desks reported, after this frame of the same connection.
pub fn known_after(home: Home, may: Permission, frame: &Frame, known: [u32; 5]) -> [u32; 5]
    requires spelled { IsFrame frame.now }
    requires few { home.desks ≤ 5 }
    requires most { AllByRecursion (λ len. len ≤ 65536) known }
    ensures known { result ≡ known_after home may known frame.now }
    ensures most { AllByRecursion (λ len. len ≤ 65536) result }
{
    if !hears(home, may, frame) {
        return known;
    }
    raised(known, frame.from, length_said(frame))
}

/// The first of two differences, if there is one.
pub fn first_difference(old: Option<Difference>, new: Option<Difference>) -> Option<Difference>
    ensures { result ≡ first_difference old new }
{
    match old {
        Some(difference) => Some(difference),
        None => new,
    }
}
