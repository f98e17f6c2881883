//! Many browsers, one round of work at a time.

ghost use Rattle.std.specs.Prelude.{◌≡◌, IfOk};
ghost use Rattle.pages.specs.Kept.{Holds};

use crate::table::{BrowserLimits, BrowserTable, Step};
use http_server::Service;
use polled::Sockets;
use std::alloc::{AllocError, Global};
use std::hash::RandomState;

/// The browsers of a service, and their sockets.
///
/// A browser's connection is ended as `http_server` says; where a read or a write fails; where it
/// took longer than the patience for a request with its answer, or was silent for longer than that;
/// and where another one comes and there is no room for it, which ends that of the one that is
/// waited for since the longest time.
#[derive(Drop)]
pub struct Browsers<C: Sockets + Drop> {
    table: BrowserTable<C>,
    ghost kept: { ∥ Holds C.happened table ∥₁ },
}

impl<C: Sockets + Drop> Browsers<C> {
    ghost use Rattle.pages.specs.Browsers.{IsNew, IsUntold, Served, sockets_of, table_of};
    ghost use Rattle.pages.specs.Musts.{AsksRound};
    ghost use Rattle.polled.specs.Requests.{Asks};

    /// None has come yet. The names of headers are the browsers' choice, so their maps take secret
    /// keys.
    pub fn new(
        alloc: Global,
        keys: RandomState,
        terms: BrowserLimits,
        sockets: C,
    ) -> Result<Browsers<C>, AllocError>
        requires { IsUntold (C.happened sockets) }
        ensures { IfOk result (IsNew terms sockets) }
    {
        let table = BrowserTable::new(alloc, keys, terms, sockets)?;
        let browsers = Browsers { table };
        Ok(browsers)
    }

    /// One round: waits until something is ready, `wait` milliseconds at most, and lets each
    /// browser that is ready have its turn: one write, or else a read of at most 4,096 bytes, then
    /// the answers to what came, and one write more. Then those are let go that are waited for too
    /// long. Returns when the round was over, in milliseconds after the first one. None: the system
    /// doesn't tell what is ready any more.
    ///
    /// A contract sees how the service answered (`served`), and where the sockets tell what was
    /// asked of them, what has to be asked in a round (`asks`).
    pub fn round<S: Service>(&mut self, service: &mut S, wait: u64) -> Option<u64>
        ensures served { Served S.answers service.old service.new self.old self.new }
        ensures asks { Asks C.requests (sockets_of self.old) (sockets_of self.new)
            (AsksRound wait result (table_of self.old) (table_of self.new)) }
    {
        for _turn in 0..u64::MAX {
            match self.table.step(service, wait) {
                Step::GoesOn => {}
                Step::Over { now } => return Some(now),
                Step::Failed => return None,
            }
        }
        None
    }

    /// The sockets of the browsers, for what can be asked of them without a change.
    pub fn sockets(&self) -> &C
        ensures { result.now ≡ sockets_of self.now }
    {
        &self.table.sockets
    }
}
