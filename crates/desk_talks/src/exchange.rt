//! What is said over one connection to a desk.

ghost use Rattle.std.specs.Prelude.{◌≡◌, ◌∷◌, [], None, IfOk, OnOk, OnErr};
ghost use Rattle.client.specs.Answers.{judged};
ghost use Rattle.wire.specs.{Ranges.IsFrame, Stream.holding};
ghost use Rattle.desk_talks.specs.Exchanges.{Hears, asking, heard_of, question_after};
ghost use Rattle.desk_talks.specs.Exchanges.{sending, talk};

use client::{ClientFault, judged};
use std::alloc::Global;
use std::marker::Model;
use wire::{ClientRefusal, Frame, FrameBody, FrameReader, NoMemory, encode};

/// What the bytes of a desk came to.
#[derive(Drop)]
pub enum AnswerOutcome {
    /// No answer is whole yet.
    Waits,
    /// The answer to the question that waited, as `client::judged` judges it.
    Answer(FrameBody),
    /// The desk refuses what it was asked.
    Refused(ClientRefusal),
    /// They are no answer to what was asked, or nothing was asked, or memory was refused.
    NoAnswer,
}

/// The talk over a connection to a desk, which is asked one question after the other.
///
/// A contract sees the reader of what the desk sends, the question that waits for its answer, and
/// what is still to be written of it.
#[derive(Drop)]
pub struct Exchange {
    reader: FrameReader,
    question: Option<Frame>,
    /// The bytes of the last question.
    written: Vec<u8>,
    /// How many of them were sent.
    sent: usize,
}

impl Model for Exchange {
    ghost use Rattle.std.specs.Prelude.{drop};
    ghost use Rattle.desk_talks.specs.Exchanges.{ExchangeOf, talk};

    ghost Value = { ExchangeOf };

    ghost view = { λ t. talk t.reader t.question (drop t.sent t.written.items) };
}

/// What a frame comes to that came alone, where this question waits, if one does.
fn heard_by(question: Option<Frame>, given: Frame) -> AnswerOutcome
    ensures { result ≡ heard_of question (given ∷ []) }
{
    match question {
        Some(asked) => match judged(&asked, given) {
            Ok(what) => AnswerOutcome::Answer(what),
            Err(ClientFault::Refused { refusal }) => AnswerOutcome::Refused(refusal),
            Err(_) => AnswerOutcome::NoAnswer,
        },
        None => AnswerOutcome::NoAnswer,
    }
}

impl Exchange {
    /// Nothing was said yet. It takes the room for a frame here.
    pub fn new(alloc: Global) -> Result<Exchange, NoMemory>
        ensures { IfOk result (λ t. t ≡ talk (holding []) None []) }
    {
        Ok(Exchange {
            reader: FrameReader::new(alloc)?,
            question: None,
            written: Vec::new(alloc),
            sent: 0,
        })
    }

    /// Asks this question, whose fields are in their ranges: it is to be written. A question that
    /// waited is given up.
    pub fn ask(&mut self, alloc: Global, question: Frame) -> Result<(), NoMemory>
        requires { IsFrame question }
        ensures ok { OnOk result (self.new ≡ asking self.old question) }
        ensures err { OnErr result (self.new ≡ self.old) }
    {
        self.written = encode(alloc, &question)?;
        self.sent = 0;
        self.question = Some(question);
        Ok(())
    }

    /// What is to be written now.
    pub fn output(&self) -> &[u8]
        ensures { result.now ≡ self.now.unsent }
    {
        match self.written.get(self.sent..) {
            Some(bytes) => bytes,
            None => &[],
        }
    }

    /// This many bytes of the output were written.
    pub fn sent(&mut self, count: usize)
        ensures { self.new ≡ sending self.old count }
    {
        self.sent = self.sent.saturating_add(count);
    }

    /// Takes bytes that came from the desk.
    pub fn hear(&mut self, piece: &[u8]) -> AnswerOutcome
        ensures { Hears result piece.now self.old self.new }
    {
        let Ok(frames) = self.reader.feed(piece) else {
            return AnswerOutcome::NoAnswer;
        };
        self.answer(frames)
    }

    /// What frames come to that came together.
    fn answer(&mut self, frames: Vec<Frame>) -> AnswerOutcome
        ensures heard { result ≡ heard_of self.old.question frames.items }
        ensures question { self.new.question ≡ question_after self.old.question frames.items }
        ensures reader { self.new.reader ≡ self.old.reader }
        ensures unsent { self.new.unsent ≡ self.old.unsent }
    {
        let mut frames = frames;
        let Some(given) = frames.pop() else {
            return AnswerOutcome::Waits;
        };
        let question = self.question.take();
        if !frames.is_empty() {
            return AnswerOutcome::NoAnswer;
        }
        heard_by(question, given)
    }
}
