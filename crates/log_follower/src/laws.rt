//! What follows of the calls of a follower and of the connection to its desk, whatever calls are
//! made.
//!
//! `Calls` of `specs/Histories` says of each call what its contract says. A question is asked where
//! the follower said that the desk is to be asked, and at that time.

ghost use Rattle.log_follower.specs.Laws.{QuestionsArePaced, FullAnswersGoOn};
ghost use Rattle.log_follower.specs.Laws.{SilentDesksAreLeft, BehindDesksAreLeft, NoneIsForgotten};
ghost use Rattle.log_follower.specs.Laws.{HurriesNeedAnswers, StopsForGood, Wakes};

/// Between two questions, whichever desks they go to, there is a quarter of a second. There are two
/// exceptions: an answer came in between that brought new entries and left some of the log; or the
/// first was answered with something of use, and then the caller said that the next may come at
/// once. So without a hurry a desk that has nothing new is asked four times a second at most. A
/// connection is opened a quarter of a second after the last question or opening, with the same
/// exceptions.
pub fn questions_are_paced()
    ensures { QuestionsArePaced }
{}

/// However often the caller is in a hurry: where nothing of use was answered since the last
/// question or opening, a connection is opened a quarter of a second after it. So desks that end
/// connections and answer nothing are tried four times a second at most.
pub fn hurries_need_answers()
    ensures { HurriesNeedAnswers }
{}

/// After an answer that brought new entries and left some of the log, of a desk that isn't behind,
/// that desk is to be asked at once for the rest; where it has answered 64 questions over the
/// connection, which is all that a desk answers over one, the next desk is.
pub fn full_answers_go_on()
    ensures { FullAnswersGoOn }
{}

/// A desk to which no connection could be opened for two seconds, or that has not answered a
/// question for two seconds, is left for the next one.
pub fn silent_desks_are_left()
    ensures { SilentDesksAreLeft }
{}

/// A desk is left for the next one where for five seconds each of its answers reported a log that
/// was shorter than one that was reported before, by whichever desk, or than what was held.
pub fn behind_desks_are_left()
    ensures { BehindDesksAreLeft }
{}

/// Connections are opened to the desks in turn, to the first one at first. So no desk is forgotten:
/// each is among the last to which connections were opened, as many as there are desks.
pub fn none_is_forgotten()
    ensures { NoneIsForgotten }
{}

/// A follower stops exactly if entries came that differ from those that were held, and then for
/// good.
pub fn stops_for_good()
    ensures { StopsForGood }
{}

/// A caller that waits as long as `wait` says finds something to be done, and there is nothing to
/// be done before, if no other call is made in between.
pub fn wakes()
    ensures { Wakes }
{}
