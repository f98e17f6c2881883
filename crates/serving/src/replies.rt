//! Answers to clients, and their bytes.

ghost use Rattle.std.specs.Option.{ForSome};
ghost use Rattle.std.specs.Prelude.{◌≡◌, ◌<◌, ◌≢◌, None, Some, OnErr, IfOk};
ghost use Rattle.wire.specs.Ranges.{IsId};
ghost use Rattle.serving.specs.Answering.{IsAnswer, IsAnswerIn, answer_first, refusal_of, state_of};
ghost use Rattle.serving.specs.Answering.{state, told_what, printed, said_in};
ghost use Rattle.serving.specs.{Connection.answer_bytes, Connection.framed_answer, Nodes.Fate};

use crate::calls::NodeAnswer;
use crate::session::Session;
use acceptor::NoMemory;
use answers::{Desk, IdState, LogSheetFault};
use formats::Event;
use replica::roles::NodeFault;
use sheets::fits_in_a_frame;
use wire::{
    Bytes, ClientRefusal as Refusal, CommandState, Frame, FrameBody, SheetStyle, Version, encode,
};

/// What is said to a client of a desk's refusal.
fn refusal_of(fault: NodeFault) -> Refusal
    ensures { result ≡ refusal_of fault }
{
    match fault {
        NodeFault::Busy => Refusal::Busy,
        NodeFault::LogFull => Refusal::LogFull,
        NodeFault::BallotsSpent => Refusal::BallotsSpent,
        NodeFault::NoMemory => Refusal::NoMemory,
        NodeFault::Down => Refusal::Down,
    }
}

/// The answer to what the desk said of the first call.
#[tactic(auto, using(crate::proofs::Refusing::refuses))]
pub fn answer_first<D: Desk>(good: FrameBody, answer: NodeAnswer, node: &D) -> FrameBody
    requires { IsAnswer good }
    ensures what { result ≡ answer_first good answer (D.seen node.now) }
    ensures in_range { IsAnswer result }
{
    let refusal = match answer {
        NodeAnswer::Refused(fault) => refusal_of(fault),
        NodeAnswer::Taken => {
            if !node.is_down() {
                return good;
            }
            Refusal::Down
        }
    };
    FrameBody::Refused { refusal }
}

/// What became of a command, in a frame's words.
fn state_of(told: IdState) -> CommandState
    ensures { result ≡ state_of told }
{
    match told {
        IdState::Done { pos, answer } => CommandState::Done { pos, answer },
        IdState::Pending => CommandState::Pending,
        IdState::Unknown => CommandState::Unknown,
    }
}

/// What became of the command with this id.
#[tactic(auto, using(crate::proofs::Refusing::refuses))]
pub fn asked<D: Desk>(node: &D, id: u64) -> FrameBody
    requires { IsId id }
    ensures what { (fate : Fate) × (result ≡ told_what id fate (state (D.seen node.now) id)) }
    ensures in_range { IsAnswer result }
{
    let _log = node.log();
    match node.answer(id) {
        Ok(told) => FrameBody::Told {
            id,
            state: state_of(told),
        },
        Err(_) => FrameBody::Refused {
            refusal: Refusal::NoMemory,
        },
    }
}

/// The sheet of a round after the log's first entries.
#[tactic(auto, using(crate::proofs::Refusing::refuses))]
pub fn printed<D: Desk>(
    node: &D,
    event: Event,
    round: u8,
    position: u32,
    style: SheetStyle,
) -> FrameBody
    ensures what { (fate : Fate)
        × (result ≡ printed (D.seen node.now) fate event round position style) }
    ensures in_range { IsAnswer result }
{
    fits_in_a_frame();
    let refusal = match node.sheet_at(position, event, round, style) {
        Ok(text) => {
            return FrameBody::SheetText {
                text: Bytes::new(text),
            };
        }
        Err(LogSheetFault::NotThere) => Refusal::NotThere,
        Err(LogSheetFault::NoSuchRound) => Refusal::NoSuchRound,
        Err(LogSheetFault::NoMemory) => Refusal::NoMemory,
    };
    FrameBody::Refused { refusal }
}

/// What a version tells of an answer.
fn said_in(version: Version, what: FrameBody) -> FrameBody
    ensures { result ≡ said_in version what }
{
    match what {
        FrameBody::Told { id, state } => FrameBody::Told {
            id,
            state: state.in_version(version),
        },
        FrameBody::Refused { refusal } => FrameBody::Refused {
            refusal: version.refusal(refusal),
        },
        FrameBody::Standing { standing } => FrameBody::Standing {
            standing: standing.in_version(version),
        },
        other => other,
    }
}

impl Session {
    /// The bytes of an answer of the desk to its client.
    fn spell_what(self, version: Version, what: FrameBody) -> Result<Vec<u8>, NoMemory>
        requires in_range { IsAnswerIn version what }
        ensures { IfOk result (λ bytes.
            bytes.items ≡ answer_bytes (framed_answer version self.home (Some what))) }
    {
        let answer = Frame {
            version,
            hall: self.home.hall,
            from: self.home.desk,
            to: 0,
            what: said_in(version, what),
        };
        let bytes = encode(self.alloc, &answer)?;
        Ok(bytes)
    }

    /// The bytes of the answer; where there is none, no bytes, and memory is not wanted.
    pub fn spell_answer(
        self,
        version: Version,
        answer: Option<FrameBody>,
    ) -> Result<Vec<u8>, NoMemory>
        requires in_range { ForSome answer (IsAnswerIn version) }
        ensures bytes { IfOk result (λ bytes.
            bytes.items ≡ answer_bytes (framed_answer version self.home answer)) }
        ensures due { OnErr result (answer ≢ None) }
    {
        match answer {
            Some(what) => self.spell_what(version, what),
            None => Ok(Vec::new(self.alloc)),
        }
    }
}
