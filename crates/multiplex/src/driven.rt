//! A desk that serves, step after step.

ghost use Rattle.std.specs.Prelude.{◌≡◌, ◌≤◌, ℕ, IfOk, None, Option};
ghost use Rattle.multiplex.specs.{model.Scenes.Does, Rounds.Begins, Scenes.scene};
ghost use Rattle.multiplex.specs.Musts.{Musts, left_at, wait_by};
ghost use Rattle.polled.specs.Requests.{Asks};

use crate::ends::ServingEnd;
use crate::own_frames::OwnLinks;
use crate::serving_each::{step, wait_of};
use crate::table::{ClientTable, ServingOptions};
use answers::Desk;
use polled::Sockets;
use std::alloc::{AllocError, Global};
use std::marker::Model;
use ticking::Period;

/// A desk that serves its clients side by side, one step after the other: `serve_each` takes all of
/// them, and here its owner says when the next one is taken.
///
/// A contract sees how clients are served, the clients, and the desk.
#[derive(Drop)]
pub struct Rounds<D: Desk + Drop> {
    alloc: Global,
    terms: ServingOptions,
    table: ClientTable,
    desk: D,
}

impl<D: Desk + Drop> Model for Rounds<D> {
    ghost use Rattle.std.specs.Prelude.{◌≤◌, length};
    ghost use Rattle.multiplex.specs.Rounds.{RoundsOf, rounds};
    ghost use Rattle.multiplex.specs.model.Tables.{AreKept};

    ghost Value = { RoundsOf D };

    ghost view = { λ r. rounds r.terms r.table r.desk };

    ghost invariant = { λ r. AreKept (D.home_of r.desk) r.terms.wire r.table
        × (length r.table.guests.items ≤ 512) };
}

impl<D: Desk + Drop> Rounds<D> {
    /// A desk that no client came to yet. With a period it gives itself Ticks. It takes the room
    /// for the clients here.
    pub fn new(
        alloc: Global,
        terms: ServingOptions,
        period: Option<Period>,
        desk: D,
    ) -> Result<Rounds<D>, AllocError>
        ensures { IfOk result (Begins D.Desk terms period desk) }
    {
        let table = ClientTable::new(alloc, period, &desk)?;
        Ok(Rounds {
            alloc,
            terms,
            table,
            desk,
        })
    }

    /// The desk.
    pub fn desk(&self) -> &D
        ensures { result.now ≡ self.now.desk }
    {
        &self.desk
    }

    /// The desk, which serves nobody any more. Closing the sockets ends the connections.
    pub fn into_desk(self) -> D
        ensures { result ≡ self.desk }
    {
        self.desk
    }

    /// For how many milliseconds it may be waited after the last round, where nothing becomes
    /// ready: at most a second, until a Tick of the desk's own is due, and until the links are to
    /// be kept again.
    pub fn wait<L: OwnLinks>(&self, links: &L) -> u64
        ensures { let table = self.now.table in (left : Option ℕ) × L.due links.now table.time left
            × (result ≡ wait_by left (left_at table.own.ticker table.time)) }
    {
        wait_of(links, &self.table.own, self.table.time)
    }

    /// Does what can be done next, and says why serving is over by that, if it is: a client is let
    /// in, one that is ready has its turn, or a round is over.
    pub fn step<C: Sockets, L: OwnLinks>(
        &mut self,
        clients: &mut C,
        links: &mut L,
    ) -> Option<ServingEnd>
        ensures does { Does D.Desk L.Peers C.happened (D.home_of self.old.desk) self.old.terms
            result self.old.table self.new.table (scene self.old.desk links.old clients.old)
            (scene self.new.desk links.new clients.new) }
        ensures asks { Asks C.requests clients.old clients.new
            (Musts L.due L.kept self.old.terms (D.home_of self.old.desk) (D.seen self.new.desk)
            result self.old.table self.new.table links.old links.new) }
        // What a step has changed is settled where serving goes on, and so nothing waits between
        // two.
        ensures settled { result ≡ None → D.is_settled self.old.desk → D.is_settled self.new.desk }
        ensures terms { self.new.terms ≡ self.old.terms }
        ensures home { D.home_of self.new.desk ≡ D.home_of self.old.desk }
    {
        step(
            self.alloc,
            &mut self.table,
            self.terms,
            clients,
            &mut self.desk,
            links,
        )
    }
}
