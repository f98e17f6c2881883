//! The browsers whose connections are open: one comes, one has its turn, one is let go.

ghost use Rattle.std.specs.Prelude.{◌≡◌, ◌<◌, ◌-◌, ◌^◌, [], ◌∷◌, IfOk, IsFalse, IsTrue};
ghost use Rattle.polled.specs.Requests.{Closing};

use crate::turns::take_turn;
use crate::waiting::Waiting;
use http_server::{Config, Connection, Log, Service};
use indexmap::IndexMap;
use polled::{AcceptedPeer, Ready, Sockets};
use std::alloc::{AllocError, Global};
use std::hash::RandomState;

/// How browsers are served.
#[derive(Clone, Copy, Debug)]
pub struct BrowserLimits {
    /// The most browsers whose connections are open at once.
    pub most: usize,
    /// How long a browser may take for a request with its answer, and how long it may be silent
    /// after that, in milliseconds.
    pub patience: u64,
    /// The limits of one connection.
    pub config: Config,
}

/// A browser whose connection is open.
#[derive(Drop)]
pub(crate) struct Browser {
    pub(crate) connection: Connection,
    pub(crate) waiting: Waiting,
}

/// Browsers, each by the number under which it was accepted, and their sockets.
#[derive(Drop)]
pub(crate) struct BrowserTable<C> {
    pub(crate) alloc: Global,
    pub(crate) keys: RandomState,
    pub(crate) terms: BrowserLimits,
    pub(crate) sockets: C,
    pub(crate) browsers: IndexMap<u64, Browser>,
    /// How many browsers came.
    pub(crate) next: u64,
    /// When the last round was over, in milliseconds after the first one.
    pub(crate) now: u64,
    /// The number of a browser and its connection after each of its turns.
    pub(crate) turns: Log<u64, Connection>,
}

/// What came of a step of a round.
#[derive(Clone, Copy, PartialEq, Eq, Debug)]
pub(crate) enum Step {
    GoesOn,
    /// The round is over, this many milliseconds after the first one.
    Over { now: u64 },
    Failed,
}

impl<C: Sockets + Drop> BrowserTable<C> {
    ghost use Rattle.pages.specs.Asking.{FindsLate, FindsLongest, KeepsOn, LetsGo, SettlesBy};
    ghost use Rattle.pages.specs.Asking.{StepsBy};
    ghost use Rattle.pages.specs.Kept.{AnswersIn, IsFirst, Keeps, KeepsWith, StaysSame};
    ghost use Rattle.pages.specs.Musts.{Accepts, Admits, Attends, EndsRound, GivesPlace};
    ghost use Rattle.pages.specs.Musts.{LetsLongestGo, MakesRoom};
    ghost use Rattle.polled.specs.Requests.{Asks};
    ghost use Rattle.polled.specs.declared.answers.AcceptedPeer.TheVariants as accepted_is;

    /// None has come yet.
    pub(crate) fn new(
        alloc: Global,
        keys: RandomState,
        terms: BrowserLimits,
        sockets: C,
    ) -> Result<BrowserTable<C>, AllocError>
        ensures { IfOk result (IsFirst terms sockets) }
    {
        Ok(BrowserTable {
            alloc,
            keys,
            terms,
            sockets,
            browsers: IndexMap::with_capacity(alloc, terms.most)?,
            next: 0,
            now: 0,
            turns: Log::new(),
        })
    }

    /// Ends the connection of a browser that has no place.
    fn close(&mut self, number: u64)
        ensures kept { Keeps C.happened self.old self.new }
        ensures same { StaysSame self.old self.new }
        ensures rest { self.new ≡ record self.old { sockets = self.new.sockets } }
        ensures asks { Asks C.requests self.old.sockets self.new.sockets
            (λ asked. asked ≡ Closing number ∷ []) }
    {
        self.sockets.close(number);
    }

    /// Gives a browser a place, and has it watched. False: the system refuses, or memory was
    /// refused.
    fn keep_on(&mut self, number: u64, browser: Browser) -> bool
        ensures kept { KeepsWith C.happened number browser self.old self.new }
        ensures same { StaysSame self.old self.new }
        ensures time { self.new.now ≡ self.old.now }
        ensures asks { Asks C.requests self.old.sockets self.new.sockets
            (KeepsOn number browser result self.old self.new) }
    {
        let writes = browser.connection.wants_write();
        if !self.sockets.watch(number, writes) {
            return false;
        }
        match self.browsers.insert(number, browser) {
            Ok(_) => true,
            Err(_) => false,
        }
    }

    /// Gives a browser its place again after a turn, or ends its connection.
    fn settle(&mut self, number: u64, browser: Browser, goes_on: bool)
        ensures kept { IsTrue goes_on → KeepsWith C.happened number browser self.old self.new }
        ensures closed { IsFalse goes_on → Keeps C.happened self.old self.new }
        ensures same { StaysSame self.old self.new }
        ensures time { self.new.now ≡ self.old.now }
        ensures asks { Asks C.requests self.old.sockets self.new.sockets
            (SettlesBy number browser goes_on self.old self.new) }
    {
        if !goes_on {
            self.close(number);
            return;
        }
        if self.keep_on(number, browser) {
            return;
        }
        self.close(number);
    }

    /// Lets the browser with this number have its turn, if its connection is open.
    pub(crate) fn visit<S: Service>(&mut self, number: u64, service: &mut S)
        ensures kept { Keeps C.happened self.old self.new }
        ensures terms { self.new.terms ≡ self.old.terms }
        ensures answers { AnswersIn C.happened S.answers service.old service.new self.old self.new }
        ensures time { self.new.now ≡ self.old.now }
        ensures next { self.new.next ≡ self.old.next }
        ensures asks { Asks C.requests self.old.sockets self.new.sockets
            (Attends number self.old self.new) }
    {
        let Some(browser) = self.browsers.swap_remove(&number) else {
            return;
        };
        let mut browser = browser;
        let turned = take_turn(number, &mut browser.connection, &mut self.sockets, service);
        self.turns = self.turns.and(&number, &browser.connection);
        browser.waiting = browser.waiting.after(turned, self.now);
        self.settle(number, browser, turned.goes_on());
    }

    /// Ends the connection of the browser with this number, if it is open.
    fn let_go(&mut self, number: u64)
        ensures kept { Keeps C.happened self.old self.new }
        ensures same { StaysSame self.old self.new }
        ensures time { self.new.now ≡ self.old.now }
        ensures asks { Asks C.requests self.old.sockets self.new.sockets
            (LetsGo number self.old self.new) }
    {
        let Some(_browser) = self.browsers.swap_remove(&number) else {
            return;
        };
        self.close(number);
    }

    /// The browser that is waited for since the longest time. Where that is so of several, it is
    /// the one of them that came first.
    fn longest_waiting(&self) -> Option<u64>
        ensures { FindsLongest self.entry.now result }
    {
        let mut found = None;
        for place in 0..self.browsers.len() {
            let Some((number, browser)) = self.browsers.get_index(place) else {
                unreachable!()
            };
            found = Some(browser.waiting.longer(*number, found));
        }
        match found {
            Some(one) => Some(one.number),
            None => None,
        }
    }

    /// Lets that one go.
    fn let_longest_go(&mut self)
        ensures kept { Keeps C.happened self.old self.new }
        ensures same { StaysSame self.old self.new }
        ensures time { self.new.now ≡ self.old.now }
        ensures asks { Asks C.requests self.old.sockets self.new.sockets
            (LetsLongestGo self.old self.new) }
    {
        let Some(number) = self.longest_waiting() else {
            return;
        };
        self.let_go(number);
    }

    /// Lets the browser in that came. Where there is no memory for it, its connection is ended.
    fn welcome(&mut self)
        requires { self.old.next < 2 ^ 64 - 1 }
        ensures kept { Keeps C.happened self.old self.new }
        ensures terms { self.new.terms ≡ self.old.terms }
        ensures turns { self.new.turns ≡ self.old.turns }
        ensures time { self.new.now ≡ self.old.now }
        ensures asks { Asks C.requests self.old.sockets self.new.sockets
            (GivesPlace (accepted_is.Came []) self.old self.new) }
    {
        let number = self.next;
        self.next += 1;
        let connection = Connection::new(self.alloc, self.keys, self.terms.config);
        let waiting = Waiting {
            since: self.now,
            is_idle: false,
        };
        let browser = Browser {
            connection,
            waiting,
        };
        match self.browsers.insert(number, browser) {
            Ok(_) => {}
            Err(_) => self.close(number),
        }
    }

    /// Accepts the browser that waits. Where the system has no more sockets, the one that is waited
    /// for since the longest time is let go.
    fn accept(&mut self)
        ensures kept { Keeps C.happened self.old self.new }
        ensures terms { self.new.terms ≡ self.old.terms }
        ensures turns { self.new.turns ≡ self.old.turns }
        ensures time { self.new.now ≡ self.old.now }
        ensures asks { Asks C.requests self.old.sockets self.new.sockets
            (Accepts self.old self.new) }
    {
        if self.next == u64::MAX {
            return;
        }
        match self.sockets.accept(self.next) {
            AcceptedPeer::Came { .. } => self.welcome(),
            AcceptedPeer::Nobody => {}
            AcceptedPeer::Full => self.let_longest_go(),
        }
    }

    /// Lets the browser that is waited for since the longest time go, where as many are open as may
    /// be.
    fn make_room(&mut self)
        ensures kept { Keeps C.happened self.old self.new }
        ensures same { StaysSame self.old self.new }
        ensures time { self.new.now ≡ self.old.now }
        ensures asks { Asks C.requests self.old.sockets self.new.sockets
            (MakesRoom self.old self.new) }
    {
        if self.browsers.len() < self.terms.most {
            return;
        }
        self.let_longest_go();
    }

    /// Accepts the browser that waits. Where as many are open as may be, the one that is waited for
    /// since the longest time is let go first.
    pub(crate) fn admit(&mut self)
        ensures kept { Keeps C.happened self.old self.new }
        ensures terms { self.new.terms ≡ self.old.terms }
        ensures turns { self.new.turns ≡ self.old.turns }
        ensures time { self.new.now ≡ self.old.now }
        ensures asks { Asks C.requests self.old.sockets self.new.sockets
            (Admits self.old self.new) }
    {
        self.make_room();
        self.accept();
    }

    /// The first browser that is waited for too long.
    fn first_late(&self) -> Option<u64>
        ensures { FindsLate self.entry.now result }
    {
        for place in 0..self.browsers.len() {
            if let Some((number, browser)) = self.browsers.get_index(place)
                && browser.waiting.is_late(self.now, self.terms.patience)
            {
                return Some(*number);
            }
        }
        None
    }

    /// Lets those go that are waited for too long.
    pub(crate) fn end_round(&mut self, now: u64)
        ensures kept { Keeps C.happened self.old self.new }
        ensures terms { self.new.terms ≡ self.old.terms }
        ensures turns { self.new.turns ≡ self.old.turns }
        ensures next { self.new.next ≡ self.old.next }
        ensures asks { Asks C.requests self.old.sockets self.new.sockets
            (EndsRound now self.old self.new) }
    {
        self.now = now;
        while let Some(number) = self.first_late() {
            self.let_go(number);
        }
    }

    /// Does what can be done next without waiting.
    pub(crate) fn step<S: Service>(&mut self, service: &mut S, wait: u64) -> Step
        ensures kept { Keeps C.happened self.old self.new }
        ensures terms { self.new.terms ≡ self.old.terms }
        ensures answers { AnswersIn C.happened S.answers service.old service.new self.old self.new }
        ensures asks { Asks C.requests self.old.sockets self.new.sockets
            (StepsBy wait result self.old self.new) }
    {
        match self.sockets.ready(wait) {
            Ready::Waits => {
                self.admit();
                Step::GoesOn
            }
            Ready::Peer { number } => {
                self.visit(number, service);
                Step::GoesOn
            }
            Ready::Round { now } => {
                self.end_round(now);
                Step::Over { now }
            }
            Ready::Failed => Step::Failed,
        }
    }
}
