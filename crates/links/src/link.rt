//! The link to one other desk.

ghost use Rattle.std.specs.Prelude.{◌≡◌, ◌≢◌, ◌<◌, ◌≤◌, length, nat_le, remove, IfSome, Some};
ghost use Rattle.std.specs.{Bool.OnTrue, Bool.OnFalse, VecDeque.deque_len, VecDeque.deque_capacity};
ghost use Rattle.links.specs.Links.{IsUnconnected, new_link, pending, wish_of, wait_of, Pushes};
ghost use Rattle.links.specs.Links.{after_began, after_opened, after_sent, after_failed};
ghost use Rattle.links.specs.Links.{after_ended, after_closed, has_room, frames_on, spent_at};
ghost use Rattle.links.specs.Links.{is_over, left_of, has_some, oldest_at};
ghost use Rattle.links.specs.declared.stages.LinkAction.TheVariants as wish;

use crate::stages::{LinkAction, LinkStage, PushOutcome};
use std::alloc::Global;
use std::collections::VecDeque;
use std::marker::Model;

/// The most frames that wait.
pub const MOST_WAITING: usize = 256;

/// The most frames that are sent on one connection.
const MOST_FRAMES: u32 = 63;

/// How long a connection may take to be opened, in milliseconds.
const OPENING: u64 = 1000;

/// How long a connection stays open with nothing to be sent, in milliseconds.
const QUIET: u64 = 500;

/// The pause after the first failure in a row, and the longest one, in milliseconds.
const FIRST_PAUSE: u64 = 100;

const LONGEST_PAUSE: u64 = 1000;

/// Drops the oldest frame of which nothing was sent, where as many wait as may wait, and says
/// whether it did. This many bytes of the first frame were sent.
fn make_room(waiting: &mut VecDeque<Vec<u8>>, begun: usize) -> bool
    ensures full { result ≡ nat_le 256 (length waiting.old.items) }
    ensures dropped { OnTrue result
        (waiting.new.items ≡ remove waiting.old.items (oldest_at begun)) }
    ensures room { OnTrue result (deque_len waiting.new < deque_capacity waiting.new) }
    ensures kept { OnFalse result (waiting.new.items ≡ waiting.old.items) }
{
    if waiting.len() < MOST_WAITING {
        return false;
    }
    let oldest = if begun == 0 { 0 } else { 1 };
    let _dropped = waiting.remove(oldest);
    true
}

/// Whether another frame may be sent on the connection.
fn has_room(stage: LinkStage) -> bool
    ensures { result ≡ has_room stage }
{
    match stage {
        LinkStage::Open { frames, .. } => frames < MOST_FRAMES,
        _ => false,
    }
}

/// How many frames were sent whole on the connection.
fn frames_on(stage: LinkStage) -> u32
    ensures { result ≡ frames_on stage }
{
    match stage {
        LinkStage::Open { frames, .. } => frames,
        _ => 0,
    }
}

/// Whether nothing more is to be sent on an open connection.
fn is_spent(stage: LinkStage, waits: bool) -> bool
    ensures { result ≡ spent_at stage waits }
{
    match stage {
        LinkStage::Open { frames, .. } => frames >= MOST_FRAMES || !waits,
        _ => false,
    }
}

/// Whether this many milliseconds have gone since then.
fn is_over(now: u64, since: u64, millis: u64) -> bool
    ensures { result ≡ is_over now since millis }
{
    now.saturating_sub(since) >= millis
}

/// What is left of this many milliseconds from then on.
fn left_of(now: u64, since: u64, millis: u64) -> u64
    ensures { result ≡ left_of now since millis }
{
    millis.saturating_sub(now.saturating_sub(since))
}

/// The link from this desk to one other desk. Frames that are pushed wait in a queue, and are sent
/// in the order of their pushes, each once, on connections that the link asks for.
///
/// It makes no system call. Its caller asks for its `wish` after each call and each `wait`, fulfils
/// it, and says what came of it. A call that doesn't belong to the connection's stage changes
/// nothing. Times are milliseconds of a clock that doesn't go back; where it does, the link waits
/// longer.
///
/// A contract sees the frames that wait, how much of the first was sent, and what the connection
/// has come to.
#[derive(Drop)]
pub struct Link {
    waiting: VecDeque<Vec<u8>>,
    /// How many bytes of the first frame that waits were sent.
    begun: usize,
    stage: LinkStage,
    /// How long the next pause is.
    pause: u64,
    /// When the first of the failures in a row came.
    down: Option<u64>,
}

impl Model for Link {
    ghost use Rattle.links.specs.Links.{LinkState, IsSound, link_state};

    ghost Value = { LinkState };

    ghost view = { λ l. link_state l.waiting.items l.begun l.stage l.pause l.down };

    ghost invariant = { λ l. IsSound (link_state l.waiting.items l.begun l.stage l.pause l.down) };
}

impl Link {
    /// A link on which nothing waits, without a connection.
    pub fn new(alloc: Global) -> Link
        ensures { result ≡ new_link }
    {
        Link {
            waiting: VecDeque::new(alloc),
            begun: 0,
            stage: LinkStage::Closed,
            pause: FIRST_PAUSE,
            down: None,
        }
    }

    /// Takes a frame, which is to be sent after those that wait. At most 256 wait: the 257th takes
    /// the place of the oldest of which nothing was sent yet. Where memory is refused, the frame is
    /// dropped, and nothing changes.
    pub fn push(&mut self, frame: Vec<u8>) -> PushOutcome
        ensures { Pushes result frame.items self.old self.new }
    {
        let full = make_room(&mut self.waiting, self.begun);
        if self.waiting.push_back(frame).is_err() {
            return PushOutcome::NoMemory;
        }
        if full {
            PushOutcome::DroppedOldest
        } else {
            PushOutcome::Waits
        }
    }

    /// What is to be done now.
    pub fn wish(&self, now: u64) -> LinkAction
        ensures wish { result ≡ wish_of self.now now }
        ensures unconnected { result ≡ wish.Open → IsUnconnected self.now.stage }
        ensures between { result ≡ wish.Close → self.now.begun ≡ 0 }
    {
        match self.stage {
            LinkStage::Closed => {
                if self.waits() {
                    LinkAction::Open
                } else {
                    LinkAction::Rest
                }
            }
            LinkStage::Paused { since, millis } => {
                if self.waits() && is_over(now, since, millis) {
                    LinkAction::Open
                } else {
                    LinkAction::Rest
                }
            }
            LinkStage::Opening { since } => {
                if is_over(now, since, OPENING) {
                    LinkAction::GiveUp
                } else {
                    LinkAction::Rest
                }
            }
            LinkStage::Open { frames, quiet } => {
                if frames >= MOST_FRAMES {
                    LinkAction::Close
                } else if self.waits() {
                    LinkAction::Write
                } else if is_over(now, quiet, QUIET) {
                    LinkAction::Close
                } else {
                    LinkAction::Rest
                }
            }
        }
    }

    /// In how many milliseconds the wish may become another one with no call made: at most 1,000.
    /// None: it stays. At 0 there is a wish.
    pub fn wait(&self, now: u64) -> Option<u64>
        ensures wait { result ≡ wait_of self.now now }
        ensures soon { IfSome result (λ millis. millis ≤ 1000) }
        ensures over { result ≡ Some 0 → wish_of self.now now ≢ wish.Rest }
    {
        match self.stage {
            LinkStage::Closed => None,
            LinkStage::Paused { since, millis } => {
                if self.waits() {
                    Some(left_of(now, since, millis))
                } else {
                    None
                }
            }
            LinkStage::Opening { since } => Some(left_of(now, since, OPENING)),
            LinkStage::Open { quiet, .. } => {
                if self.waits() {
                    None
                } else {
                    Some(left_of(now, quiet, QUIET))
                }
            }
        }
    }

    /// Whether a frame waits.
    fn waits(&self) -> bool
        ensures { result ≡ has_some self.now.waiting }
    {
        !self.waiting.is_empty()
    }

    /// Says that opening a connection was begun, as the wish was.
    pub fn began(&mut self, now: u64)
        requires { IsUnconnected self.old.stage }
        ensures { self.new ≡ after_began self.old now }
    {
        self.stage = LinkStage::Opening { since: now };
    }

    /// Says that the connection that was being opened is open.
    pub fn opened(&mut self, now: u64)
        ensures { self.new ≡ after_opened self.old now }
    {
        if let LinkStage::Opening { .. } = self.stage {
            self.stage = LinkStage::Open {
                frames: 0,
                quiet: now,
            };
            self.pause = FIRST_PAUSE;
            self.down = None;
        }
    }

    /// What is to be written now: what of the first frame that waits was not sent, where a
    /// connection is open on which less than 63 frames were sent.
    pub fn output(&self) -> &[u8]
        ensures { result.now ≡ pending self.now }
    {
        if !has_room(self.stage) {
            return &[];
        }
        match self.waiting.front() {
            Some(frame) => &frame[self.begun..],
            None => &[],
        }
    }

    /// Says that this many bytes of the output were sent. A frame that is sent whole leaves the
    /// queue; an empty one does so with a count of 0.
    pub fn sent(&mut self, now: u64, count: usize)
        requires { count ≤ length (pending self.old) }
        ensures { self.new ≡ after_sent self.old now count }
    {
        let left = self.output().len();
        if !has_room(self.stage) || !self.waits() {
            return;
        }
        let frames = frames_on(self.stage);
        if count < left {
            self.begun += count;
            self.stage = LinkStage::Open { frames, quiet: now };
        } else {
            let _whole = self.waiting.pop_front();
            self.begun = 0;
            self.stage = LinkStage::Open {
                frames: frames + 1,
                quiet: now,
            };
        }
    }

    /// Says that the connection failed: it couldn't be opened, or not in time, or it broke. All
    /// frames that wait are dropped, the one begun too, and a pause begins: 100 milliseconds after
    /// the first failure in a row, and twice as long after each further one, at most 1,000. A
    /// connection that is opened ends the row.
    pub fn failed(&mut self, now: u64)
        ensures { self.new ≡ after_failed self.old now }
    {
        match self.stage {
            LinkStage::Closed | LinkStage::Paused { .. } => {}
            LinkStage::Opening { .. } | LinkStage::Open { .. } => {
                self.waiting.clear();
                self.begun = 0;
                self.stage = LinkStage::Paused {
                    since: now,
                    millis: self.pause,
                };
                self.pause = (self.pause * 2).min(LONGEST_PAUSE);
                self.down = self.down.or(Some(now));
            }
        }
    }

    /// Says that the other side ended the connection. That is a failure, unless nothing was to be
    /// sent on it any more: no frame waits, or 63 were sent on it.
    pub fn ended(&mut self, now: u64)
        ensures { self.new ≡ after_ended self.old now }
    {
        if is_spent(self.stage, self.waits()) {
            self.stage = LinkStage::Closed;
        } else {
            self.failed(now);
        }
    }

    /// Says that the connection was closed on this side, as the wish was: with no frame begun.
    pub fn closed(&mut self)
        requires { self.old.begun ≡ 0 }
        ensures { self.new ≡ after_closed self.old }
    {
        match self.stage {
            LinkStage::Closed | LinkStage::Paused { .. } => {}
            LinkStage::Opening { .. } | LinkStage::Open { .. } => self.stage = LinkStage::Closed,
        }
    }

    /// What the connection has come to.
    pub fn stage(&self) -> LinkStage
        ensures { result ≡ self.now.stage }
    {
        self.stage
    }

    /// When the first of the failures in a row came. None: the last connection could be opened, or
    /// none was tried.
    pub fn unreachable_since(&self) -> Option<u64>
        ensures { result ≡ self.now.down }
    {
        self.down
    }
}
