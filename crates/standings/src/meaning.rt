//! What the answers of a hall's desks come to.

ghost use Rattle.std.specs.Prelude.{◌≡◌, ◌≤◌, length};
ghost use Rattle.standings.specs.Standings.{answered, answers, behind_by, desks_told, every_desk};
ghost use Rattle.standings.specs.Standings.{difference, difference_by, greatest, is_behind};
ghost use Rattle.standings.specs.Standings.{is_from, is_majority, length_as, length_at, missing};
ghost use Rattle.standings.specs.Standings.{most_told, newest, newest_told, size_of, some_behind};
ghost use Rattle.standings.specs.Standings.{standing_count, stands, stands_as, status_of, unasked};

use crate::polled::{PolledDesk, StatusReply};
use wire::{Difference, Lengths};

/// The numbers that a desk can have.
pub(crate) fn every_desk() -> [u8; 5]
    ensures { result ≡ every_desk }
{
    [1, 2, 3, 4, 5]
}

/// The greatest of these numbers, 0 where there is none.
fn greatest(numbers: &[u32]) -> u32
    ensures { result ≡ greatest numbers.now }
{
    numbers.iter().fold(0, |most, number| most.max(*number))
}

/// How many desks the hall has, as a reply says.
fn desks_told(reply: &StatusReply) -> u32
    ensures same { result ≡ desks_told reply.now }
    ensures most { result ≤ 5 }
{
    match reply {
        StatusReply::Stands { standing, .. } => match standing.told {
            Lengths::OfThree(_) => 3,
            Lengths::OfFive(_) => 5,
        },
        _ => 0,
    }
}

fn is_from(desk: u8, reply: &StatusReply) -> bool
    ensures { result ≡ is_from desk reply.now }
{
    match reply {
        StatusReply::Stands { desk: other, .. } | StatusReply::Earlier { desk: other } => *other
            == desk,
        _ => false,
    }
}

fn stands_as(desk: u8, reply: &StatusReply) -> bool
    ensures { result ≡ stands_as desk reply.now }
{
    match reply {
        StatusReply::Stands { desk: other, .. } => *other == desk,
        _ => false,
    }
}

fn length_as(desk: u8, reply: &StatusReply) -> u32
    ensures { result ≡ length_as desk reply.now }
{
    match reply {
        StatusReply::Stands {
            desk: other,
            standing,
        } if *other == desk => standing.length,
        _ => 0,
    }
}

/// The greatest length of a log that a reply tells.
fn newest_told(reply: &StatusReply) -> u32
    ensures { result ≡ newest_told reply.now }
{
    match reply {
        StatusReply::Stands { standing, .. } => {
            standing.length.max(greatest(standing.told.as_slice()))
        }
        _ => 0,
    }
}

fn most_told(polled: &[PolledDesk<'_>]) -> u32
    ensures { result ≡ most_told polled.now }
{
    polled
        .iter()
        .map(|one| desks_told(&one.reply))
        .fold(0, |most, size| most.max(size))
}

/// How many desks the hall has, as far as is known.
pub(crate) fn size_of(polled: &[PolledDesk<'_>]) -> u32
    requires { length polled.now ≤ 5 }
    ensures { result ≡ size_of polled.now }
{
    let told = most_told(polled);
    if told == 0 { polled.len() as u32 } else { told }
}

/// Whether the desk of a number answered, at whichever address.
fn answers(polled: &[PolledDesk<'_>], desk: u8) -> bool
    ensures { result ≡ answers polled.now desk }
{
    polled.iter().any(|one| is_from(desk, &one.reply))
}

/// Whether it said how it is.
fn stands(polled: &[PolledDesk<'_>], desk: u8) -> bool
    ensures { result ≡ stands polled.now desk }
{
    polled.iter().any(|one| stands_as(desk, &one.reply))
}

/// How many desks answered, at most five.
pub(crate) fn answered(polled: &[PolledDesk<'_>]) -> u32
    ensures same { result ≡ answered polled.now }
    ensures most { result ≤ 5 }
{
    let desks = every_desk();
    desks.iter().filter(|desk| answers(polled, **desk)).count() as u32
}

/// How many desks said how they are, at most five.
pub(crate) fn standing_count(polled: &[PolledDesk<'_>]) -> u32
    ensures same { result ≡ standing_count polled.now }
    ensures most { result ≤ 5 }
{
    let desks = every_desk();
    desks.iter().filter(|desk| stands(polled, **desk)).count() as u32
}

/// The length of the log of the desk of a number, as it said.
fn length_at(polled: &[PolledDesk<'_>], desk: u8) -> u32
    ensures { result ≡ length_at polled.now desk }
{
    polled
        .iter()
        .map(|one| length_as(desk, &one.reply))
        .fold(0, |most, length| most.max(length))
}

/// The length of the longest log that is known.
pub(crate) fn newest(polled: &[PolledDesk<'_>]) -> u32
    ensures { result ≡ newest polled.now }
{
    polled
        .iter()
        .map(|one| newest_told(&one.reply))
        .fold(0, |most, length| most.max(length))
}

/// How many commands a desk that said how it is lacks.
pub(crate) fn behind_by(polled: &[PolledDesk<'_>], desk: u8) -> u32
    ensures { result ≡ behind_by polled.now desk }
{
    if stands(polled, desk) {
        newest(polled).saturating_sub(length_at(polled, desk))
    } else {
        0
    }
}

fn is_behind(polled: &[PolledDesk<'_>], desk: u8) -> bool
    ensures { result ≡ is_behind polled.now desk }
{
    behind_by(polled, desk) != 0
}

/// Whether a desk that said how it is lacks commands.
pub(crate) fn some_behind(polled: &[PolledDesk<'_>]) -> bool
    ensures { result ≡ some_behind polled.now }
{
    let desks = every_desk();
    desks.iter().any(|desk| is_behind(polled, *desk))
}

/// Whether more than half of the desks answered.
pub(crate) fn is_majority(polled: &[PolledDesk<'_>]) -> bool
    requires { length polled.now ≤ 5 }
    ensures { result ≡ is_majority polled.now }
{
    size_of(polled) < answered(polled) * 2
}

/// How many more desks have to answer for a majority.
pub(crate) fn missing(polled: &[PolledDesk<'_>]) -> u32
    requires { length polled.now ≤ 5 }
    ensures { result ≡ missing polled.now }
{
    (size_of(polled) / 2 + 1).saturating_sub(answered(polled))
}

/// How many desks of the hall were not asked.
pub(crate) fn unasked(polled: &[PolledDesk<'_>]) -> u32
    requires { length polled.now ≤ 5 }
    ensures { result ≡ unasked polled.now }
{
    size_of(polled).saturating_sub(polled.len() as u32)
}

/// How a desk differs by its reply: by its own entries, or as it has heard of another one.
fn difference_by(reply: &StatusReply, other: Option<u32>) -> Option<Difference>
    ensures { result ≡ difference_by reply.now other }
{
    let StatusReply::Stands { desk, standing } = reply else {
        return None;
    };
    match other {
        Some(position) => Some(Difference::OtherEntry {
            desk: *desk,
            position,
        }),
        None => standing.differs,
    }
}

/// How a desk differs from others, if one does: the first that is known of.
pub fn difference(polled: &[PolledDesk<'_>]) -> Option<Difference>
    ensures { result ≡ difference polled.now }
{
    let [one, rest @ ..] = polled else {
        return None;
    };
    match difference_by(&one.reply, one.other) {
        Some(difference) => Some(difference),
        None => difference(rest),
    }
}

/// The exit status of asking the desks: 0 where a majority answered, no desk is known to lack
/// commands and none differs; 1 where a majority answered and none differs; and else 3. At most
/// five were asked.
pub fn status_of(polled: &[PolledDesk<'_>]) -> u8
    requires { length polled.now ≤ 5 }
    ensures { result ≡ status_of polled.now }
{
    if difference(polled).is_some() || !is_majority(polled) {
        3
    } else if some_behind(polled) {
        1
    } else {
        0
    }
}
