//! Which desk is followed.

ghost use Rattle.std.specs.Prelude.{◌≡◌, ◌≤◌};
ghost use Rattle.log_follower.specs.Following.{IsPlace, action_of, after_action, after_answer};
ghost use Rattle.log_follower.specs.Following.{behind_wait, goes_on, is_behind_for, is_to_be_left};
ghost use Rattle.log_follower.specs.Following.{line_after, line_answered, line_hurried};
ghost use Rattle.log_follower.specs.Following.{new_following, turned, wait_of, worth_of};

use crate::stages::{AnswerWorth, FollowAction};
use desk_talks::{DueAction, KeptConnection};
use mirror::MirrorGrowth;
use std::marker::Model;

/// How long a desk may be behind, in milliseconds.
const BEHIND: u64 = 5000;

/// Whether the desk has been behind for five seconds.
fn is_behind_for(behind: Option<u64>, now: u64) -> bool
    ensures { result ≡ is_behind_for behind now }
{
    match behind {
        None => false,
        Some(since) => now.saturating_sub(since) >= BEHIND,
    }
}

/// How long it is until the desk has been behind for five seconds.
fn behind_wait(behind: Option<u64>, now: u64) -> u64
    ensures { result ≡ behind_wait behind now }
{
    match behind {
        None => BEHIND,
        Some(since) => BEHIND.saturating_sub(now.saturating_sub(since)),
    }
}

/// Whether new entries came of a log that has more of them.
fn goes_on(taken: Option<MirrorGrowth>, held: u32, length: u32) -> bool
    ensures { result ≡ goes_on taken held length }
{
    matches!(taken, Some(MirrorGrowth::Grew)) && held < length
}

/// What an answer is worth, where this many entries are held after it and the log is this long.
fn worth_of(taken: Option<MirrorGrowth>, held: u32, length: u32) -> AnswerWorth
    ensures { result ≡ worth_of taken held length }
{
    match taken {
        Some(MirrorGrowth::Differs { .. }) => AnswerWorth::Differs,
        Some(MirrorGrowth::Gap) => AnswerWorth::Useless,
        Some(MirrorGrowth::Known) if held < length => AnswerWorth::Useless,
        Some(MirrorGrowth::Known) | Some(MirrorGrowth::Grew) | None => AnswerWorth::Useful,
    }
}

/// Says which desk of a hall is asked for its log over a connection, and when. Its caller asks it
/// again and again what is to be done (`act`), does it, and says what came of it.
///
/// One desk is followed at a time, the first at the beginning. The connection to it is a
/// `KeptConnection`, which says when it is opened, when the desk may be asked and when it is
/// silent. The next desk, or after the last one the first, is followed where that connection is to
/// be closed or renewed, an answer brings nothing though the log is longer, or the connection is
/// lost; and where for five seconds the desk has reported logs that are shorter than one that was
/// reported, or than what is held. After an answer that brought new entries and left some of the
/// log the next question comes at once. In a hurry (`hurry`) it does where the last one was
/// answered with something of use: over a new connection, where the last one was closed or lost
/// after that answer.
///
/// A contract sees the number of desks and the number of the one that is followed, what the last
/// answer was worth, how long the longest log is that was reported, and since when the desk is
/// behind.
#[derive(Drop)]
pub struct Follower {
    desks: u8,
    desk: u8,
    worth: AnswerWorth,
    most: u32,
    behind: Option<u64>,
}

impl Model for Follower {
    ghost use Rattle.log_follower.specs.Following.{Following, IsPlace};

    ghost Value = { Following };

    ghost view = { λ f. record {
      desks = f.desks;
      desk = f.desk;
      worth = f.worth;
      most = f.most;
      behind = f.behind;
    } };

    ghost invariant = { λ f. IsPlace f.desk f.desks };
}

impl Follower {
    /// A follower of this many desks, 1 to 5. The first desk comes first.
    pub fn new(desks: u8) -> Follower
        requires { IsPlace 1 desks }
        ensures { result ≡ new_following desks }
    {
        Follower {
            desks,
            desk: 1,
            worth: AnswerWorth::Open,
            most: 0,
            behind: None,
        }
    }

    /// What is to be done now. It counts as begun, but for a question, which the caller asks over
    /// the connection.
    pub fn act(&mut self, line: &mut KeptConnection, now: u64) -> FollowAction
        ensures action { result ≡ action_of self.old line.old now }
        ensures after { self.new ≡ after_action self.old line.old now }
        ensures line { line.new ≡ line_after self.old line.old now }
    {
        let action = self.action(line, now);
        match action {
            FollowAction::Rest | FollowAction::Stop => {}
            FollowAction::Open { .. } => {
                self.worth = AnswerWorth::Open;
                line.open(now);
            }
            FollowAction::Ask { .. } => self.worth = AnswerWorth::Open,
            FollowAction::Close { .. } => {
                self.turn();
                line.close();
            }
        }
        action
    }

    /// What is to be done now.
    fn action(&self, line: &KeptConnection, now: u64) -> FollowAction
        ensures { result ≡ action_of self.now line.now now }
    {
        let desk = self.desk;
        if matches!(self.worth, AnswerWorth::Differs) {
            return FollowAction::Stop;
        }
        if self.is_to_be_left(line, now) {
            return FollowAction::Close { desk };
        }
        match line.due(now) {
            DueAction::Rest => FollowAction::Rest,
            DueAction::Open => FollowAction::Open { desk },
            DueAction::Ask => FollowAction::Ask { desk },
            DueAction::Close | DueAction::Renew => FollowAction::Close { desk },
        }
    }

    /// Whether the connection is to be closed for what the desk said over it.
    fn is_to_be_left(&self, line: &KeptConnection, now: u64) -> bool
        ensures { result ≡ is_to_be_left self.now line.now now }
    {
        !line.is_closed()
            && (matches!(self.worth, AnswerWorth::Useless) || is_behind_for(self.behind, now))
    }

    /// Follows the next desk: the connection to this one is closed or lost.
    pub fn turn(&mut self)
        ensures { self.new ≡ turned self.old }
    {
        self.desk = if self.desk == self.desks {
            1
        } else {
            self.desk + 1
        };
        self.behind = None;
    }

    /// Says that the desk answered the question with entries of its log, which is this long, and
    /// what came of them: what `mirror::Mirror::take` returned, None where it was refused memory,
    /// and how many entries are held after it. Entries that differ stop the follower for good.
    pub fn answered(
        &mut self,
        line: &mut KeptConnection,
        now: u64,
        taken: Option<MirrorGrowth>,
        held: u32,
        length: u32,
    )
        ensures after { self.new ≡ after_answer self.old now taken held length }
        ensures line { line.new ≡ line_answered (goes_on taken held length) line.old }
    {
        let is_behind = length < self.most.max(held);
        if !matches!(self.worth, AnswerWorth::Differs) {
            self.worth = worth_of(taken, held, length);
        }
        self.most = self.most.max(length);
        self.behind = if is_behind {
            self.behind.or(Some(now))
        } else {
            None
        };
        if goes_on(taken, held, length) {
            line.hurry();
        }
    }

    /// Lets the next question come at once, where the last one was answered with something of use:
    /// over the connection or, where that was closed or lost since, over a new one to the next
    /// desk. Otherwise nothing changes.
    pub fn hurry(&self, line: &mut KeptConnection)
        ensures { line.new ≡ line_hurried self.now line.old }
    {
        if matches!(self.worth, AnswerWorth::Useful) {
            line.hurry();
            line.open_at_once();
        }
    }

    /// In how many milliseconds something is due, if no other call is made: at most 2,000, and 0
    /// where something is due already.
    pub fn wait(&self, line: &KeptConnection, now: u64) -> u64
        ensures wait { result ≡ wait_of self.now line.now now }
        ensures soon { result ≤ 2000 }
    {
        if matches!(self.worth, AnswerWorth::Differs) {
            return 0;
        }
        if line.is_closed() {
            return line.wait(now);
        }
        if matches!(self.worth, AnswerWorth::Useless) {
            return 0;
        }
        line.wait(now).min(behind_wait(self.behind, now))
    }

    /// What the last answer was worth.
    pub fn worth(&self) -> AnswerWorth
        ensures { result ≡ self.now.worth }
    {
        self.worth
    }

    /// The number of the desk that is followed, 1 to 5.
    pub fn desk(&self) -> u8
        ensures desk { result ≡ self.now.desk }
        ensures place { IsPlace result self.now.desks }
    {
        self.desk
    }
}
