//! The laws of agreement among the desks of a hall. Each is the contract of a function that does
//! nothing: it holds after every list of submissions, starts, ticks, deliveries (also lost,
//! repeated and late ones) and restarts, for every number of desks.

ghost use Rattle.learner.specs.Laws.{LogsAreChosen, OneIsChosen, LogsAreSubmitted, LogsAgree};
ghost use Rattle.learner.specs.Laws.{LogsGrow, EntriesStay, Always, ContentsStand};
ghost use Rattle.learner.specs.Laws.{MessagesAreInRange, DesksAreInRange, StepsStayInRange};
ghost use Rattle.learner.specs.{Invariant.IsSound, Parts.DecisionsAreChosen, Parts.RolesStand};
ghost use Rattle.learner.specs.Parts.{HasOneEntry, VotesStand, PromisesStand, AcceptsAreBacked};

/// Every log entry is chosen at its position ('Paxos Made Simple', section 2.2).
pub fn logs_are_chosen()
    ensures { LogsAreChosen }
{}

/// At most one entry is chosen at a position.
pub fn one_is_chosen()
    ensures { OneIsChosen }
{}

/// Every log entry was submitted before, by an event whose desk took it.
pub fn logs_are_submitted()
    ensures { LogsAreSubmitted }
{}

/// Of the logs of any two desks at any two moments one is a prefix of the other.
pub fn logs_agree()
    ensures { LogsAgree }
{}

/// A log only grows, at its end.
pub fn logs_grow()
    ensures { LogsGrow }
{}

/// An entry at a position of one log is there in every longer log, at every moment.
pub fn entries_stay()
    ensures { EntriesStay }
{}

/// A step of a desk whose log, ballots and role are in their ranges leaves them there, and what it
/// sends is from that desk to a desk of the hall, with its fields in their ranges.
pub fn steps_stay_in_range()
    ensures { StepsStayInRange }
{}

/// What holds of the desks and of all that they have sent, at every moment.
pub fn invariant()
    ensures sound { Always IsSound }
    ensures one_entry { Always (λ n w. HasOneEntry w) }
    ensures votes { Always (λ n w. VotesStand w) }
    ensures promises { Always (λ n w. PromisesStand w) }
    ensures backed { Always AcceptsAreBacked }
    ensures chosen { Always DecisionsAreChosen }
    ensures roles { Always RolesStand }
    ensures contents { ContentsStand }
    ensures messages { MessagesAreInRange }
    ensures desks { DesksAreInRange }
{}
