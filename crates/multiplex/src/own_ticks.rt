//! The Ticks that a desk gives itself.

ghost use Rattle.std.specs.Prelude.{◌≡◌, ◌||◌};
ghost use Rattle.multiplex.specs.Passing.{first_ticks, looked, over_if, shown, ticks_at};
ghost use Rattle.multiplex.specs.Musts.{left_at};
ghost use Rattle.multiplex.specs.model.Ticks.{MayTick, desks, own_of};

use crate::ends::ServingEnd;
use answers::Desk;
use serving::{Peers, tick};
use std::alloc::Global;
use ticking::{Period, Ticker};
use wire::Version;

/// Why serving is over by what was called of the desk, if it is.
fn over_if_down<D: Desk>(node: &D) -> Option<ServingEnd>
    ensures { result ≡ over_if (D.seen node.now).is_down }
{
    if node.is_down() {
        Some(ServingEnd::Down)
    } else {
        None
    }
}

/// When the desk gives itself a Tick, if it ever does.
#[derive(Drop)]
pub(crate) struct OwnTicks {
    pub(crate) ticker: Option<Ticker>,
    /// Whether memory was refused for one of these Ticks.
    pub(crate) starved: bool,
}

impl OwnTicks {
    /// Before the first round. The time counts from it.
    pub(crate) fn new<D: Desk>(period: Option<Period>, node: &D) -> OwnTicks
        ensures { result ≡ first_ticks (D.home_of node.now) period (D.seen node.now) }
    {
        let ticker = match period {
            Some(period) => {
                let home = node.home();
                let log = node.log().len();
                Some(Ticker::new(period, home.desk, home.desks, log, 0))
            }
            None => None,
        };
        OwnTicks {
            ticker,
            starved: false,
        }
    }

    /// Looks at the desk, and says whether a Tick is to be taken now. If so, it is counted as
    /// taken.
    fn look<D: Desk>(&mut self, node: &D, now: u64) -> bool
        ensures due { result ≡ ticks_at self.old.ticker (shown (D.seen node.now) now) }
        ensures after { self.new.ticker ≡ looked self.old.ticker (shown (D.seen node.now) now) }
        ensures starved { self.new.starved ≡ self.old.starved }
    {
        match &mut self.ticker {
            Some(ticker) => ticker.look(node.log().len(), node.queued(), now),
            None => false,
        }
    }

    /// Notes whether memory was refused for a Tick.
    fn note(&mut self, starved: bool)
        ensures { self.new ≡ own_of self.old.ticker (starved || self.old.starved) }
    {
        self.starved = starved || self.starved;
    }

    /// How many milliseconds after the moment `now` the next Tick is due, if one ever is.
    pub(crate) fn left(&self, now: u64) -> Option<u64>
        ensures { result ≡ left_at self.now.ticker now }
    {
        match &self.ticker {
            Some(ticker) => Some(ticker.left(now)),
            None => None,
        }
    }

    /// Looks at the desk, and takes a Tick where one is due. Says why serving is over by that, if
    /// it is.
    pub(crate) fn tick_if_due<D: Desk, P: Peers>(
        &mut self,
        alloc: Global,
        wire: Version,
        now: u64,
        node: &mut D,
        peers: &mut P,
    ) -> Option<ServingEnd>
        ensures ticks { MayTick D.Desk P.Peers wire now result self.old self.new
            (desks node.old peers.old) (desks node.new peers.new) }
        ensures home { D.home_of node.new ≡ D.home_of node.old }
    {
        if !self.look(node, now) {
            return None;
        }
        let starved = tick(alloc, node, peers, wire).is_err();
        self.note(starved);
        over_if_down(node)
    }
}
