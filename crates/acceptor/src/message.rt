//! What the desks say to one another.

ghost use Rattle.std.specs.Prelude.{◌≡◌, IfOk};

use crate::NoMemory;
use crate::ballot::Ballot;
use crate::entry::Entry;
use std::alloc::Global;
use std::marker::Model;

/// A vote, as a Promise reports it. Its position is that of the Promise.
#[derive(PartialEq, Eq, Debug, Drop)]
pub struct Report {
    pub ballot: Ballot,
    pub entry: Entry,
}

/// What one desk says to another. Positions are 0 to 65,535.
///
/// Prepare and Promise are phase 1, Accept and Accepted phase 2 of 'Paxos Made Simple', section
/// 2.2; Nack is its hint that a proposer had better abandon its ballot. Decided is what learners
/// are sent (section 2.3), and with Behind a desk says how long its log is.
#[derive(PartialEq, Eq, Debug, Drop)]
pub enum Body {
    /// Asks for a promise to this ballot, at this position.
    Prepare {
        ballot: Ballot,
        pos: u32,
    },
    /// The desk will vote for no lower ballot. `vote` is its last vote at this position, where it
    /// has one.
    Promise {
        ballot: Ballot,
        pos: u32,
        vote: Option<Report>,
    },
    /// Asks for a vote for this entry.
    Accept {
        ballot: Ballot,
        pos: u32,
        entry: Entry,
    },
    /// The desk has voted for the entry of this ballot.
    Accepted {
        ballot: Ballot,
        pos: u32,
    },
    /// The desk has promised another ballot, which keeps it from what `ballot` asked for.
    Nack {
        ballot: Ballot,
        pos: u32,
        promised: Ballot,
    },
    /// The desk's log has this many entries, 0 to 65,536.
    Behind {
        len: u32,
    },
    /// This entry is decided at this position.
    Decided {
        pos: u32,
        entry: Entry,
    },
}

/// What a desk says, and to which desk. Desks are numbered from 1.
#[derive(PartialEq, Eq, Debug, Drop)]
pub struct Message {
    pub from: u8,
    pub to: u8,
    pub body: Body,
}

/// The messages of one step, in the order in which they are sent.
#[derive(Debug, Drop)]
pub struct Messages {
    messages: Vec<Message>,
}

impl Model for Messages {
    ghost use Rattle.std.specs.Prelude.{List};
    ghost use Rattle.acceptor.specs.declared.message.Message.{Message};

    ghost Value = { List Message };

    ghost view = { λ m. m.messages.items };
}

impl Messages {
    ghost use Rattle.std.specs.Prelude.{[]};

    /// No message. It takes no memory.
    pub fn none(alloc: Global) -> Messages
        ensures { result ≡ [] }
    {
        Messages {
            messages: Vec::new(alloc),
        }
    }

    /// These messages, in this order.
    pub fn from_vec(messages: Vec<Message>) -> Messages
        ensures { result ≡ messages.items }
    {
        Messages { messages }
    }

    /// The messages as a slice.
    pub fn as_slice(&self) -> &[Message]
        ensures { result.now ≡ self.now }
    {
        self.messages.as_slice()
    }

    /// The `Vec` of the messages, with no copy made.
    pub fn into_vec(self) -> Vec<Message>
        ensures { result.items ≡ self }
    {
        let Messages { messages } = self;
        messages
    }
}

impl Report {
    /// An equal report. Where memory is refused, the answer is NoMemory.
    pub fn copy(&self) -> Result<Report, NoMemory>
        ensures { IfOk result (λ r. r ≡ self.now) }
    {
        Ok(Report {
            ballot: self.ballot,
            entry: self.entry.copy()?,
        })
    }
}

/// A copy of the report, where there is one. Where memory is refused, the answer is NoMemory.
pub fn copy_report(report: &Option<Report>) -> Result<Option<Report>, NoMemory>
    ensures { IfOk result (λ r. r ≡ report.now) }
{
    match report {
        None => Ok(None),
        Some(report) => Ok(Some(report.copy()?)),
    }
}

impl Body {
    /// An equal body. Where memory is refused, the answer is NoMemory.
    pub fn copy(&self) -> Result<Body, NoMemory>
        ensures { IfOk result (λ b. b ≡ self.now) }
    {
        match self {
            Body::Prepare { ballot, pos } => Ok(Body::Prepare {
                ballot: *ballot,
                pos: *pos,
            }),
            Body::Promise { ballot, pos, vote } => Ok(Body::Promise {
                ballot: *ballot,
                pos: *pos,
                vote: copy_report(vote)?,
            }),
            Body::Accept { ballot, pos, entry } => Ok(Body::Accept {
                ballot: *ballot,
                pos: *pos,
                entry: entry.copy()?,
            }),
            Body::Accepted { ballot, pos } => Ok(Body::Accepted {
                ballot: *ballot,
                pos: *pos,
            }),
            Body::Nack {
                ballot,
                pos,
                promised,
            } => Ok(Body::Nack {
                ballot: *ballot,
                pos: *pos,
                promised: *promised,
            }),
            Body::Behind { len } => Ok(Body::Behind { len: *len }),
            Body::Decided { pos, entry } => Ok(Body::Decided {
                pos: *pos,
                entry: entry.copy()?,
            }),
        }
    }
}
