//! One desk, and what is said of it.

ghost use Rattle.std.specs.Prelude.{◌≡◌, ◌++◌, IfOk, OnOk, flat_map, length};
ghost use Rattle.hall_survey.specs.Halls.{age_line, age_of, away_one, first_other, is_away};
ghost use Rattle.hall_survey.specs.Halls.{is_late, is_other, least_of, one_speaks_five, says_other};
ghost use Rattle.hall_survey.specs.Halls.{waits_of};
ghost use Rattle.hall_survey.specs.Told.{AreTold, IsTold, reply_of, standing_of};

use desk_survey::{Reachability, Survey, SurveyAnswer};
use itoa::Buffer;
use standings::{PolledDesk, StatusReply};
use std::alloc::{AllocError, Global};
use wire::ClientRefusal;

/// Milliseconds until there is something to be done, where no desk is asked.
const LONGEST_WAIT: u64 = 1000;

/// The milliseconds after which a desk is away that has not said how it is.
const PATIENCE: u64 = 1000;

/// A desk that is asked.
#[derive(Drop)]
pub(crate) struct AskedDesk {
    /// The number of the desk, 1 to 5.
    pub(crate) desk: u8,
    /// Where it is asked, as it is printed.
    pub(crate) address: String,
    pub(crate) survey: Survey,
}

/// How a desk is that answered when it was asked last.
fn standing_of(desk: u8, survey: &Survey) -> StatusReply
    ensures { result ≡ standing_of desk survey.now }
{
    match survey.told() {
        Some(told) => StatusReply::Stands {
            desk,
            standing: told.standing,
        },
        None => StatusReply::Late,
    }
}

/// What came of asking a desk last.
fn reply_of(desk: u8, survey: &Survey) -> StatusReply
    ensures { result ≡ reply_of desk survey.now }
{
    match survey.contact() {
        Reachability::Answers => standing_of(desk, survey),
        Reachability::Refuses(refusal) => StatusReply::Refused { refusal },
        Reachability::NotAsked | Reachability::Silent => StatusReply::Late,
    }
}

/// What is said of a desk.
fn told_of(asked: &AskedDesk) -> PolledDesk<'_>
    ensures { IsTold asked.now result }
{
    PolledDesk {
        asked: asked.desk,
        address: &asked.address,
        reply: reply_of(asked.desk, &asked.survey),
        other: None,
    }
}

/// Whether it is a second ago, or longer, that a desk said how it is.
fn is_late(told: Option<SurveyAnswer>, now: u64) -> bool
    ensures { result ≡ is_late now told }
{
    match told {
        Some(told) => now.saturating_sub(told.at) >= PATIENCE,
        None => false,
    }
}

/// Whether a desk does not say how it is: it is not reached, it refuses, or it is late.
fn is_away(asked: &AskedDesk, now: u64) -> bool
    ensures { result ≡ is_away now asked.now }
{
    match asked.survey.contact() {
        Reachability::Silent | Reachability::Refuses(_) => true,
        Reachability::NotAsked | Reachability::Answers => is_late(asked.survey.told(), now),
    }
}

/// Adds the number of a desk that does not say how it is.
fn push_away(away: &mut Vec<u8>, asked: &AskedDesk, now: u64) -> Result<(), AllocError>
    ensures { OnOk result (away.new.items ≡ away.old.items ++ away_one now asked.now) }
{
    if is_away(asked, now) {
        away.push(asked.desk)?;
    }
    Ok(())
}

/// The numbers of the desks that do not say how they are, in their order.
pub(crate) fn away_of(alloc: Global, asked: &[AskedDesk], now: u64) -> Result<Vec<u8>, AllocError>
    ensures { IfOk result (λ away. away.items ≡ flat_map (away_one now) asked.now) }
{
    let mut away = Vec::new(alloc);
    for one in asked {
        push_away(&mut away, one, now)?;
    }
    Ok(away)
}

/// Adds a line with the milliseconds since a desk said how it is.
fn push_age(out: &mut Vec<u8>, told: Option<SurveyAnswer>, now: u64) -> Result<(), AllocError>
    ensures { OnOk result (out.new.items ≡ out.old.items ++ age_line now told) }
{
    let Some(told) = told else {
        return out.extend_from_slice(b"-\n");
    };
    let mut buffer = Buffer::new();
    out.extend_from_slice(buffer.format(now.saturating_sub(told.at)).as_bytes())?;
    out.extend_from_slice(b"\n")
}

/// A line for each of these desks with the milliseconds since it said how it is.
pub(crate) fn ages_of(alloc: Global, asked: &[AskedDesk], now: u64) -> Result<Vec<u8>, AllocError>
    ensures { IfOk result (λ ages. ages.items ≡ flat_map (age_of now) asked.now) }
{
    let mut ages = Vec::new(alloc);
    for one in asked {
        push_age(&mut ages, one.survey.told(), now)?;
    }
    Ok(ages)
}

/// Whether the desk of this number answers now in version 5 of the wire.
pub(crate) fn one_speaks_five(desk: u8, asked: &[AskedDesk]) -> bool
    ensures { result ≡ one_speaks_five desk asked.now }
{
    let [one, rest @ ..] = asked else {
        return false;
    };
    if one.desk == desk {
        return one.survey.speaks_five();
    }
    one_speaks_five(desk, rest)
}

/// Whether a desk that refuses so is of another hall.
fn says_other(refusal: ClientRefusal) -> bool
    ensures { result ≡ says_other refusal }
{
    match refusal {
        ClientRefusal::Foreign => true,
        ClientRefusal::NotAllowed
        | ClientRefusal::Busy
        | ClientRefusal::LogFull
        | ClientRefusal::BallotsSpent
        | ClientRefusal::NoMemory
        | ClientRefusal::Down
        | ClientRefusal::NotThere
        | ClientRefusal::NoSuchRound
        | ClientRefusal::HallDiffers => false,
    }
}

/// Whether a desk says that it is of another hall.
fn is_other(asked: &AskedDesk) -> bool
    ensures { result ≡ is_other asked.now }
{
    match asked.survey.contact() {
        Reachability::Refuses(refusal) => says_other(refusal),
        Reachability::NotAsked | Reachability::Answers | Reachability::Silent => false,
    }
}

/// The number of the first desk that says so.
pub(crate) fn first_other(asked: &[AskedDesk]) -> Option<u8>
    ensures { result ≡ first_other asked.now }
{
    for one in asked {
        if is_other(one) {
            return Some(one.desk);
        }
    }
    None
}

/// In how many milliseconds the first of the surveys of these desks is due, if nothing comes, and
/// at most a second.
pub(crate) fn soonest(asked: &[AskedDesk], now: u64) -> u64
    ensures { result ≡ least_of LONGEST_WAIT (waits_of asked.now now) }
{
    let mut wait = LONGEST_WAIT;
    for one in asked {
        wait = one.survey.wait(now).min(wait);
    }
    wait
}

/// What is said of these desks.
#[tactic(auto, using(crate::proofs::Told::begins, crate::proofs::Told::goes_on))]
pub(crate) fn all_told(
    alloc: Global,
    asked: &[AskedDesk],
) -> Result<Vec<PolledDesk<'_>>, AllocError>
    ensures told { IfOk result (λ told. AreTold asked.now told.items) }
    ensures length { IfOk result (λ told. length told.items ≡ length asked.now) }
{
    let mut told = Vec::new(alloc);
    for one in asked {
        told.push(told_of(one))?;
    }
    Ok(told)
}
