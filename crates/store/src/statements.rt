//! The four changes inside a transaction, each one statement of fixed text, and several together.

ghost use Rattle.std.specs.Prelude.{◌≡◌, ◌<◌, ◌^◌, pos, ◌≤◌, Some, List, length};
ghost use Rattle.sqlite.specs.State.{HasCleanDisk, Survives};
ghost use Rattle.sqlite.specs.{Held.state, Value.owned, declared.types.Value.TheVariants.Int};
ghost use Rattle.acceptor.specs.{Entries.EntryValue, Storing.log_after};
ghost use Rattle.acceptor.specs.declared.stored.Change.TheVariants.{Promised, Voted, Tried};
ghost use Rattle.acceptor.specs.declared.stored.Change.TheVariants.{Appended};
ghost use Rattle.store.specs.{Ranges.most_entries, Inside.TellsLength};
ghost use Rattle.store.specs.Inside.{MakesInside, MakesPlain, MakesAllInside, SavesAllAt};

use acceptor::ballot::Ballot;
use acceptor::entry::Entry;
use acceptor::stored::{Change, Vote};
use sqlite::types::{ToSql, ValueRef};
use sqlite::{Alter, Connection, Error, ErrorCode, Transaction};

pub(crate) fn number(n: u32) -> ValueRef<'static>
    ensures { owned result ≡ Int (pos n) }
{
    n.to_sql()
}

pub(crate) fn small(n: u8) -> ValueRef<'static>
    ensures { owned result ≡ Int (pos n) }
{
    number(u32::from(n))
}

fn long(n: u64) -> ValueRef<'static>
    requires { n < 2 ^ 63 }
    ensures { owned result ≡ Int (pos n) }
{
    (n as i64).to_sql()
}

/// The promised ballot.
fn promise<S: Alter>(tx: &mut Transaction<'_, S>, ballot: Ballot) -> Result<usize, Error>
    ensures same_reference { tx.new.conn.ghost_name ≡ tx.old.conn.ghost_name }
    ensures makes { MakesPlain (Promised ballot) (state S.Store tx.old.conn.now)
        (state S.Store tx.new.conn.now) result }
    ensures survives { Survives (state S.Store tx.old.conn.now) (state S.Store tx.new.conn.now)
        (λ _. ⊥) }
{
    tx.execute(
        "UPDATE desk SET promised_round = ?1, promised_desk = ?2",
        &[number(ballot.number), small(ballot.desk)],
    )
}

/// The vote, and its ballot as the promised one.
fn vote<S: Alter>(tx: &mut Transaction<'_, S>, vote: &Vote) -> Result<usize, Error>
    ensures same_reference { tx.new.conn.ghost_name ≡ tx.old.conn.ghost_name }
    ensures makes { MakesPlain (Voted vote.now) (state S.Store tx.old.conn.now)
        (state S.Store tx.new.conn.now) result }
    ensures survives { Survives (state S.Store tx.old.conn.now) (state S.Store tx.new.conn.now)
        (λ _. ⊥) }
{
    tx.execute(
        "UPDATE desk SET promised_round = ?2, promised_desk = ?3, vote_pos = ?1, vote_round = ?2, \
         vote_desk = ?3, vote_id = ?4, vote_body = ?5",
        &[
            number(vote.pos),
            number(vote.ballot.number),
            small(vote.ballot.desk),
            long(vote.entry.id()),
            ValueRef::Blob(vote.entry.text()),
        ],
    )
}

/// The ballot number that was tried.
fn try_number<S: Alter>(tx: &mut Transaction<'_, S>, tried: u32) -> Result<usize, Error>
    ensures same_reference { tx.new.conn.ghost_name ≡ tx.old.conn.ghost_name }
    ensures makes { MakesPlain (Tried tried) (state S.Store tx.old.conn.now)
        (state S.Store tx.new.conn.now) result }
    ensures survives { Survives (state S.Store tx.old.conn.now) (state S.Store tx.new.conn.now)
        (λ _. ⊥) }
{
    tx.execute("UPDATE desk SET tried = ?1", &[number(tried)])
}

/// An entry at the end of the log.
fn append<S: Alter>(tx: &mut Transaction<'_, S>, at: u32, entry: &Entry) -> Result<usize, Error>
    ensures same_reference { tx.new.conn.ghost_name ≡ tx.old.conn.ghost_name }
    ensures makes { MakesInside at (Appended entry.now) (state S.Store tx.old.conn.now)
        (state S.Store tx.new.conn.now) result }
    ensures survives { Survives (state S.Store tx.old.conn.now) (state S.Store tx.new.conn.now)
        (λ _. ⊥) }
{
    tx.execute(
        "INSERT INTO entries (pos, id, body) VALUES (?1, ?2, ?3)",
        &[number(at), long(entry.id()), ValueRef::Blob(entry.text())],
    )
}

/// One statement, which makes the change.
fn make<S: Alter>(tx: &mut Transaction<'_, S>, at: u32, change: &Change) -> Result<usize, Error>
    ensures same_reference { tx.new.conn.ghost_name ≡ tx.old.conn.ghost_name }
    ensures makes { MakesInside at change.now (state S.Store tx.old.conn.now)
        (state S.Store tx.new.conn.now) result }
    ensures survives { Survives (state S.Store tx.old.conn.now) (state S.Store tx.new.conn.now)
        (λ _. ⊥) }
{
    match change {
        Change::Promised(ballot) => promise(tx, *ballot),
        Change::Voted(new) => vote(tx, new),
        Change::Tried(number) => try_number(tx, *number),
        Change::Appended(entry) => append(tx, at, entry),
    }
}

fn length_after(len: u32, change: &Change) -> u32
    ensures { (log : List EntryValue) → len ≡ length log
        → length (log_after log (Some change.now)) ≤ most_entries
        → result ≡ length (log_after log (Some change.now)) }
{
    match change {
        Change::Appended(_) => len.saturating_add(1),
        _ => len,
    }
}

/// The length of the log after all changes.
#[tactic(auto, using(crate::proofs::Together::length_none, crate::proofs::Together::length_more))]
pub fn length_after_all(len: u32, changes: &[Change]) -> u32
    ensures { TellsLength len changes.now result }
{
    let [change, rest @ ..] = changes else {
        return len;
    };
    length_after_all(length_after(len, change), rest)
}

/// The changes in order, up to the first that is refused.
#[tactic(auto, using(crate::proofs::Together::each_none))]
fn make_each<S: Alter>(
    tx: &mut Transaction<'_, S>,
    at: u32,
    changes: &[Change],
) -> Result<(), Error>
    ensures same_reference { tx.new.conn.ghost_name ≡ tx.old.conn.ghost_name }
    ensures makes { MakesAllInside at changes.now (state S.Store tx.old.conn.now)
        (state S.Store tx.new.conn.now) result }
    ensures survives { Survives (state S.Store tx.old.conn.now) (state S.Store tx.new.conn.now)
        (λ _. ⊥) }
{
    let [change, rest @ ..] = changes else {
        return Ok(());
    };
    match make(tx, at, change) {
        Ok(_) => make_each(tx, length_after(at, change), rest),
        Err(error) => Err(error),
    }
}

/// All changes in one transaction, with one commit. A stop inside leaves all or none. A connection
/// in a transaction is refused.
pub fn make_all<S: Alter>(
    conn: &mut Connection<S>,
    len: u32,
    changes: &[Change],
) -> Result<(), Error>
    ensures clean { HasCleanDisk (state S.Store conn.new) → HasCleanDisk (state S.Store conn.old) }
    ensures saves { SavesAllAt len changes.now (state S.Store conn.old)
        (state S.Store conn.new) result }
{
    if !conn.is_autocommit() {
        return Err(Error::SqliteFailure(ErrorCode::TransactionState));
    }
    let mut tx = conn.transaction();
    match make_each(&mut tx, len, changes) {
        Ok(()) => tx.commit(),
        Err(error) => Err(error),
    }
}
