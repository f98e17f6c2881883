//! The values of a row that a query gives, decoded: a desk with its state, and the log.

ghost use Rattle.std.specs.Prelude.{◌≡◌, ◌≢◌, ◌<◌, ◌^◌, ℕ, pos, List, map, true, Option, Some};
ghost use Rattle.std.specs.Prelude.{None, IfOk, IfSome};
ghost use Rattle.sqlite.specs.declared.types.Value.TheVariants.{Null, Int};
ghost use Rattle.sqlite.specs.{Order.column, Value.owned};
ghost use Rattle.store.specs.Holding.{desk_values, vote_values, log_values, desk_columns};
ghost use Rattle.store.specs.Holding.{vote_columns, entry_columns, IsRowOf, HasBallot, HasEntry};
ghost use Rattle.acceptor.specs.Entries.{EntryValue, IsId, IsText};
ghost use Rattle.acceptor.specs.declared.ballot.Ballot.{Ballot as Round};
ghost use Rattle.acceptor.specs.declared.stored.{Vote.Vote as Given, Stored.Stored as State};
ghost use Rattle.store.specs.declared.home.Home.{Home as Place};
ghost use Rattle.store.specs.Whole.{VoteIsWhole, IsWhole, LogIsWhole};

use crate::home::Home;
use acceptor::ballot::Ballot;
use acceptor::entry::{Entry, EntryFault};
use acceptor::stored::{Stored, Vote};
use learner::log::{Log, ReserveFault};
use sqlite::Row;
use sqlite::types::ValueRef;
use std::alloc::{AllocError, Global};

fn value_at(row: &Row, at: usize) -> ValueRef<'_>
    ensures { owned result ≡ column row.now at }
{
    match row.get_ref(at) {
        Ok(value) => value,
        Err(_) => ValueRef::Null,
    }
}

/// The number in a column, where it has one that fits.
fn number_at(row: &Row, at: usize) -> Option<u32>
    ensures none { result ≡ None → (n : ℕ) → n < 2 ^ 32 → column row.now at ≢ Int (pos n) }
    ensures some { IfSome result (λ n. column row.now at ≡ Int (pos n)) }
{
    match value_at(row, at) {
        ValueRef::Int(n) => match u32::try_from(n) {
            Ok(n) => Some(n),
            Err(_) => None,
        },
        _ => None,
    }
}

fn small_at(row: &Row, at: usize) -> Option<u8>
    ensures none { result ≡ None → (n : ℕ) → n < 256 → column row.now at ≢ Int (pos n) }
    ensures some { IfSome result (λ n. column row.now at ≡ Int (pos n)) }
{
    match u8::try_from(number_at(row, at)?) {
        Ok(n) => Some(n),
        Err(_) => None,
    }
}

fn long_at(row: &Row, at: usize) -> Option<u64>
    ensures none { result ≡ None → (n : ℕ) → n < 2 ^ 63 → column row.now at ≢ Int (pos n) }
    ensures some { IfSome result (λ n. column row.now at ≡ Int (pos n)) }
{
    match value_at(row, at) {
        ValueRef::Int(n) => match u64::try_from(n) {
            Ok(n) => Some(n),
            Err(_) => None,
        },
        _ => None,
    }
}

fn ballot_at(row: &Row, at: usize) -> Option<Ballot>
    requires { at < 100 }
    ensures none { result ≡ None → (b : Round) → b.number < 2 ^ 32 → b.desk < 256
        → ¬ HasBallot row.now at b }
    ensures some { IfSome result (HasBallot row.now at) }
    ensures in_range { IfSome result (λ b. (b.number < 2 ^ 32) × (b.desk < 256)) }
{
    let number = number_at(row, at)?;
    let desk = small_at(row, at + 1)?;
    Some(Ballot { number, desk })
}

/// An entry, or none where the two columns have none.
fn entry_at(alloc: Global, row: &Row, at: usize) -> Result<Option<Entry>, AllocError>
    requires { at < 100 }
    ensures none { IfOk result
        (λ o. o ≡ None → (e : EntryValue) → IsId e.id → IsText e.text
        → ¬ HasEntry row.now at e) }
    ensures some { IfOk result (λ o. IfSome o (HasEntry row.now at)) }
    ensures in_range { IfOk result (λ o. IfSome o (λ e. IsId e.id × IsText e.text)) }
{
    let Some(id) = long_at(row, at) else {
        return Ok(None);
    };
    match value_at(row, at + 1) {
        ValueRef::Blob(text) => match Entry::new(alloc, id, text) {
            Ok(entry) => Ok(Some(entry)),
            Err(EntryFault::NoMemory) => Err(AllocError),
            Err(_) => Ok(None),
        },
        _ => Ok(None),
    }
}

fn is_null(row: &Row, at: usize) -> bool
    ensures is { result ≡ true → column row.now at ≡ Null }
    ensures only { column row.now at ≡ Null → result ≡ true }
{
    match value_at(row, at) {
        ValueRef::Null => true,
        _ => false,
    }
}

fn has_no_vote(row: &Row) -> bool
    ensures is { result ≡ true → vote_columns row.now ≡ vote_values None }
    ensures only { vote_columns row.now ≡ vote_values None → result ≡ true }
{
    is_null(row, 7) && is_null(row, 8) && is_null(row, 9) && is_null(row, 10) && is_null(row, 11)
}

/// A vote, none, or neither.
fn vote_of(alloc: Global, row: &Row) -> Result<Option<Option<Vote>>, AllocError>
    ensures none { IfOk result
        (λ o. o ≡ None → (v : Option Given) → VoteIsWhole v
        → vote_columns row.now ≢ vote_values v) }
    ensures some { IfOk result (λ o. IfSome o (λ vote. vote_columns row.now ≡ vote_values vote)) }
    ensures in_range { IfOk result (λ o. IfSome o (λ vote. VoteIsWhole vote)) }
{
    if has_no_vote(row) {
        return Ok(Some(None));
    }
    let Some(pos) = number_at(row, 7) else {
        return Ok(None);
    };
    let Some(ballot) = ballot_at(row, 8) else {
        return Ok(None);
    };
    let Some(entry) = entry_at(alloc, row, 10)? else {
        return Ok(None);
    };
    Ok(Some(Some(Vote { pos, ballot, entry })))
}

fn home_of(row: &Row) -> Option<Home>
    ensures none { result ≡ None → (h : Place) → h.hall < 2 ^ 32 → h.desk < 256 → h.desks < 256
        → ¬ IsRowOf row.now h }
    ensures some { IfSome result (IsRowOf row.now) }
    ensures in_range { IfSome result (λ h. (h.hall < 2 ^ 32) × (h.desk < 256) × (h.desks < 256)) }
{
    if number_at(row, 0)? != 1 {
        return None;
    }
    let hall = number_at(row, 1)?;
    let desk = small_at(row, 2)?;
    let desks = small_at(row, 3)?;
    Some(Home { hall, desk, desks })
}

/// The desk and its state, or none where the row is not whole.
pub fn desk_of(alloc: Global, row: &Row) -> Result<Option<(Home, Stored)>, AllocError>
    ensures none { IfOk result
        (λ o. o ≡ None → (h : Place) (s : State) → IsWhole h s
        → desk_columns row.now ≢ desk_values h s) }
    ensures some { IfOk result (λ o. IfSome o (λ d. desk_columns row.now ≡ desk_values d.0 d.1)) }
    ensures whole { IfOk result (λ o. IfSome o (λ d. IsWhole d.0 d.1)) }
{
    let Some(home) = home_of(row) else {
        return Ok(None);
    };
    let Some(promised) = ballot_at(row, 4) else {
        return Ok(None);
    };
    let Some(tried) = number_at(row, 6) else {
        return Ok(None);
    };
    let Some(vote) = vote_of(alloc, row)? else {
        return Ok(None);
    };
    Ok(Some((
        home,
        Stored {
            promised,
            vote,
            tried,
        },
    )))
}

/// The entries, or none where the positions are not 0 and on, a row is not whole, or there are more
/// than a log may have.
pub fn log_of(alloc: Global, rows: &[Row]) -> Result<Option<Log>, AllocError>
    ensures none { IfOk result
        (λ o. o ≡ None → (log : List EntryValue) → LogIsWhole log
        → map entry_columns rows.now ≢ log_values 0 log) }
    ensures some { IfOk result
        (λ o. IfSome o (λ log. map entry_columns rows.now ≡ log_values 0 log.entries)) }
    ensures whole { IfOk result (λ o. IfSome o (λ log. LogIsWhole log.entries)) }
{
    let mut log = Log::new(alloc)?;
    for row in rows {
        let Some(at) = number_at(row, 0) else {
            return Ok(None);
        };
        if at != log.len() {
            return Ok(None);
        }
        let Some(entry) = entry_at(alloc, row, 1)? else {
            return Ok(None);
        };
        match log.reserve() {
            Ok(()) => log.append(entry),
            Err(ReserveFault::LogFull) => return Ok(None),
            Err(ReserveFault::NoMemory) => return Err(AllocError),
        }
    }
    Ok(Some(log))
}
