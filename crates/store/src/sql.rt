//! The keeper over two tables of a database.

ghost use Rattle.std.specs.Prelude.{◌≡◌, ◌≢◌, ◌==◌, ◌||◌, ◌⊎◌, ◌<◌, false, true, [], List, Err};
ghost use Rattle.std.specs.Prelude.{IsTrue, IfOk, IfErr, length};
ghost use Rattle.sqlite.specs.{State.HasCleanDisk, Held.state};
ghost use Rattle.acceptor.specs.{Entries.EntryValue, declared.stored.Stored.Stored as State};
ghost use Rattle.store.specs.Ranges.{IsHome, IsFit, is_housed, home_at};
ghost use Rattle.store.specs.{Whole.IsSound, Refusals.LoadLacksMemory, Opening.Opens};
ghost use Rattle.store.specs.Keeping.{most_failures, CountsOne, StaysKept};
ghost use Rattle.store.specs.model.Unique.{alone_after, leads_nowhere};
ghost use Rattle.store.specs.Kept.{Keeps, MayLeave, MayBreak};
ghost use Rattle.store.specs.{Waiting.KeepsBefore, Waiting.MayLeaveBefore, Opening.Refuses};

use crate::copying::copy_change;
use crate::fault::{LoadFault, OpenFault, SaveFault};
use crate::home::Home;
use crate::keeper::Keeper;
use crate::loading::{ReadFault, read_all};
use crate::opening::prepare;
use crate::statements::{length_after_all, make_all};
use crate::still_open::is_harmless;
use acceptor::stored::{Change, Stored};
use learner::log::Log;
use sqlite::{Alter, Connection};
use std::alloc::Global;

/// The most changes that wait.
const MOST_WAITING: usize = 200;

/// A keeper over the two tables of a database, `desk` and `entries`.
///
/// A change that is saved waits in memory, 200 of them at most, and nothing is open between two
/// calls: `settle` commits all that wait in one transaction.
///
/// Once a settling has failed, or a load has answered Device, the keeper is Down for good: each
/// save is Down, and each load counts a failure and is Device, without asking the device, until the
/// failures are 2^64 - 1. Only a store that is opened anew helps. Want of memory in a settling, or
/// that has shut the connection, is as the device's refusal.
pub struct SqlKeeper<S: Alter> {
    alloc: Global,
    conn: Connection<S>,
    home: Home,
    /// How long the log is in the table.
    len: u32,
    failures: u64,
    down: bool,
    /// The changes that wait, in order.
    changes: Vec<Change>,
    ghost housed: { is_housed home ≡ true },
}

// It is written out, so that a caller does not prove again how each part is dropped.
impl<S: Alter + Drop> Drop for SqlKeeper<S> {
    fn drop(self) {
        let SqlKeeper {
            alloc: _,
            conn: _,
            home: _,
            len: _,
            failures: _,
            down: _,
            changes: _,
        } = self;
    }
}

impl<S: Alter> Keeper for SqlKeeper<S> {
    ghost use Rattle.store.specs.declared.fault.LoadFault.TheVariants.{Device, Damaged, NoMemory};
    ghost use Rattle.store.specs.declared.fault.SaveFault.TheVariants as saving;

    ghost is_honest = { λ k. HasCleanDisk (state S.Store k.conn) };

    ghost may_hold = { λ k s log. MayLeaveBefore k.changes.items (state S.Store k.conn) k.home s
        log };

    ghost may_break = { λ k. MayBreak (state S.Store k.conn) k.home };

    ghost keeps = { λ k s log. ((k.down || (k.failures == most_failures)) ≡ false)
        × IsFit k.home.desks s log
        × KeepsBefore k.home k.len k.changes.items (state S.Store k.conn) s log };

    ghost finds = { λ k s log. MayLeave (state S.Store k.conn) k.home s log };

    ghost is_settled = { λ k. k.changes.items ≡ [] };

    ghost is_down = { λ k. k.down || (k.failures == most_failures) };

    ghost failures_of = { λ k. k.failures };

    ghost home_of = { λ k. k.home };

    /// The device is not asked.
    ghost save_gives = { λ k _ r after. (r ≢ Err saving.Device) × (after.conn ≡ k.conn) };

    /// Once it is down, a load counts a failure and is Device, as long as the count is not at its
    /// end. Below that end it is Damaged only where the tables hold no state of this desk that is
    /// in its ranges. Device counts exactly one failure. NoMemory comes only where SQLite refused
    /// memory to a query, or the values of a query's rows had none.
    ghost load_gives = { λ k r after.
        (IsTrue k.down → ((k.failures ≡ most_failures) ⊎ (r ≡ Err Device)))
        × (r ≡ Err Damaged → k.failures ≢ most_failures → HasCleanDisk (state S.Store after.conn)
        → (s : State) (log : List EntryValue) → IsSound k.home s log
        → ¬ Keeps k.home s log (state S.Store k.conn))
        × (r ≡ Err Device → CountsOne k.failures after.failures)
        × (r ≡ Err NoMemory → HasCleanDisk (state S.Store after.conn)
        → LoadLacksMemory (state S.Store) k.conn after.conn) };

    #[tactic(auto, using(crate::proofs::Homes::to_home))]
    fn home(&self) -> Home {
        self.home
    }

    fn failures(&self) -> u64 {
        self.failures
    }

    fn save(&mut self, change: &Change) -> Result<(), SaveFault> {
        if self.down || self.failures == u64::MAX {
            return Err(SaveFault::Down);
        }
        if self.changes.len() >= MOST_WAITING {
            return Err(SaveFault::NoMemory);
        }
        let Ok(change) = copy_change(self.alloc, change) else {
            return Err(SaveFault::NoMemory);
        };
        match self.changes.push(change) {
            Ok(()) => Ok(()),
            Err(_) => Err(SaveFault::NoMemory),
        }
    }

    fn settle(&mut self) -> bool {
        if self.down || self.failures == u64::MAX {
            return false;
        }
        if self.changes.is_empty() {
            return true;
        }
        match make_all(&mut self.conn, self.len, self.changes.as_slice()) {
            Ok(()) => {
                self.len = length_after_all(self.len, self.changes.as_slice());
                self.changes.clear();
                true
            }
            Err(_) => {
                self.changes.clear();
                self.failures += 1;
                self.down = true;
                false
            }
        }
    }

    #[tactic(auto, using(crate::proofs::Saving::own_desk, crate::proofs::Settled::finds_no_more, crate::proofs::Settled::kept_alone))]
    fn load(&mut self, alloc: Global) -> Result<(Stored, Log), LoadFault> {
        if self.failures == u64::MAX {
            return Err(LoadFault::Damaged);
        }
        if self.down {
            self.failures += 1;
            return Err(LoadFault::Device);
        }
        match read_all(&mut self.conn, alloc, self.home) {
            Ok((stored, log)) => {
                self.len = log.len();
                Ok((stored, log))
            }
            Err(ReadFault::Damaged | ReadFault::WrongDesk) => Err(LoadFault::Damaged),
            Err(ReadFault::Sql(error)) => {
                if is_harmless(&mut self.conn, error) {
                    return Err(LoadFault::NoMemory);
                }
                self.failures += 1;
                self.down = true;
                Err(LoadFault::Device)
            }
        }
    }

    ghost alone = { λ k s log honest kept.
        alone_after (state (S.Store.own) k.conn) k.home k.len k.changes.items s log
        ((S.Store).settled k.conn.store) ((S.Store).stays k.conn.store) kept.2 };

    ghost ranges = { λ k s log kept. kept.1 };

    ghost works = { λ k s log kept. kept.0 };

    ghost rests = { λ k s log settled found. (
      s,
      log,
      found,
      leads_nowhere k.changes.items s log settled,
    ) };
}

impl<S: Alter + Drop> SqlKeeper<S> {
    /// Opens the store of this desk, of a hall of 3 or 5 desks, over a connection between
    /// transactions.
    ///
    /// Where the database has nothing at all, both tables are made with the first row, in one
    /// transaction. Damaged: one of the tables is missing or is not as it has to be, another table
    /// was made before them, or the row is not whole and in its ranges. WrongDesk: the row is of
    /// another hall, desk or number of desks. Damaged: the positions of the log are not 0 and on,
    /// or an entry is out of its ranges. Device and NoMemory come where they happen. A refusal
    /// drops the connection.
    ///
    /// So it is Ok only over nothing at all, where the first state is kept, and over a state of
    /// this desk with all of it in its ranges, where that one is kept. After a refusal a stop
    /// leaves what was there or, over nothing at all, both tables with the first row.
    pub fn open(
        alloc: Global,
        conn: Connection<S>,
        hall: u32,
        desk: u8,
        desks: u8,
    ) -> Result<SqlKeeper<S>, OpenFault>
        requires autocommit { conn.in_transaction ≡ false }
        requires in_range { IsHome (home_at hall desk desks) }
        ensures home { IfOk result
            (λ k. ⟦<SqlKeeper<S> as Keeper>⟧.home_of k ≡ home_at hall desk desks) }
        ensures failures { IfOk result (λ k. ⟦<SqlKeeper<S> as Keeper>⟧.failures_of k ≡ 0) }
        ensures settled { IfOk result (λ k. ⟦<SqlKeeper<S> as Keeper>⟧.is_settled k) }
        ensures opened { IfOk result (λ k. ⟦<SqlKeeper<S> as Keeper>⟧.is_honest k
            → Opens (home_at hall desk desks) (state S.Store conn)
            (⟦<SqlKeeper<S> as Keeper>⟧.keeps k)) }
        ensures told { IfErr result (λ fault. (dropped : _) × (HasCleanDisk (state S.Store dropped)
            → Refuses (home_at hall desk desks) (state S.Store conn) (state S.Store dropped)
            fault)) }
    {
        match SqlKeeper::open_or_give_back(alloc, conn, hall, desk, desks) {
            Ok(keeper) => Ok(keeper),
            Err((fault, _)) => Err(fault),
        }
    }

    /// As `open`, but a refusal gives the connection back. Where that is still open, it keeps what
    /// it kept.
    #[tactic(auto, using(crate::proofs::Homes::from_home))]
    pub fn open_or_give_back(
        alloc: Global,
        mut conn: Connection<S>,
        hall: u32,
        desk: u8,
        desks: u8,
    ) -> Result<SqlKeeper<S>, (OpenFault, Connection<S>)>
        requires autocommit { conn.in_transaction ≡ false }
        requires in_range { IsHome (home_at hall desk desks) }
        ensures home { IfOk result
            (λ k. ⟦<SqlKeeper<S> as Keeper>⟧.home_of k ≡ home_at hall desk desks) }
        ensures failures { IfOk result (λ k. ⟦<SqlKeeper<S> as Keeper>⟧.failures_of k ≡ 0) }
        ensures settled { IfOk result (λ k. ⟦<SqlKeeper<S> as Keeper>⟧.is_settled k) }
        ensures opened { IfOk result (λ k. ⟦<SqlKeeper<S> as Keeper>⟧.is_honest k
            → Opens (home_at hall desk desks) (state S.Store conn)
            (⟦<SqlKeeper<S> as Keeper>⟧.keeps k)) }
        ensures told { IfErr result (λ e. HasCleanDisk (state S.Store e.1)
            → Refuses (home_at hall desk desks) (state S.Store conn) (state S.Store e.1) e.0) }
    {
        let home = Home { hall, desk, desks };
        match prepare(&mut conn, alloc, home) {
            Ok(len) => Ok(SqlKeeper {
                alloc,
                conn,
                home,
                len,
                failures: 0,
                down: false,
                changes: Vec::new(alloc),
            }),
            Err(fault) => Err((fault, conn)),
        }
    }
}

impl<S: Alter> SqlKeeper<S> {
    /// The connection, with what the keeper has kept, but for changes that wait: they are lost.
    pub fn into_connection(self) -> Connection<S>
        ensures honest { HasCleanDisk (state S.Store result)
            → ⟦<SqlKeeper<S> as Keeper>⟧.is_honest self }
        ensures kept { ⟦<SqlKeeper<S> as Keeper>⟧.is_settled self
            → StaysKept (⟦<SqlKeeper<S> as Keeper>⟧.keeps self)
            (λ s log. Keeps (⟦<SqlKeeper<S> as Keeper>⟧.home_of self) s log
            (state S.Store result)) }
        ensures left { (s : State) (log : List EntryValue)
            → MayLeave (state S.Store result) (⟦<SqlKeeper<S> as Keeper>⟧.home_of self) s log
            → ⟦<SqlKeeper<S> as Keeper>⟧.finds self s log }
        ensures whole { MayBreak (state S.Store result) (⟦<SqlKeeper<S> as Keeper>⟧.home_of self)
            → ⟦<SqlKeeper<S> as Keeper>⟧.may_break self }
    {
        let SqlKeeper {
            alloc: _,
            conn: connection,
            home: _,
            len: _,
            failures: _,
            down: _,
            changes: _,
        } = self;
        connection
    }
}
