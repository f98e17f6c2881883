//! A connection to a desk that is asked how it is, and what is said of its key.

ghost use Rattle.std.specs.Prelude.{◌≡◌};

use desk_sockets::{CallTrouble, DeskStream};
use std::io::Write;
use std::net::Net;
use std::random::RandomSource;

/// A connection to a desk that is asked how it is.
#[derive(Drop)]
pub struct AskedStream<'a, R: Net + RandomSource> {
    /// The number of the desk, 1 to 5.
    pub desk: u8,
    pub stream: &'a mut DeskStream<'a, R>,
    /// What was wrong with the desk's key when something was said of it last.
    pub told: Option<CallTrouble>,
}

/// What is said of a desk's key.
fn words_of(trouble: CallTrouble) -> &'static str {
    match trouble {
        CallTrouble::NoKey => "has no key",
        CallTrouble::OtherKey => "has another key",
        CallTrouble::HasKey => "has a key",
    }
}

/// Says what is wrong with the key of this desk.
fn say<F: Write>(faults: &mut F, program: &str, desk: u8, trouble: CallTrouble) {
    let words = words_of(trouble);
    let _ = writeln!(faults, "{program}: desk {desk} {words}");
}

impl<'a, R: Net + RandomSource> AskedStream<'a, R> {
    /// A connection to the desk with this number, of which nothing was said.
    pub fn new(desk: u8, stream: &'a mut DeskStream<'a, R>) -> AskedStream<'a, R>
        ensures desk { result.desk ≡ desk }
        ensures stream { result.stream ≡ stream.entry }
        ensures told { result.told ≡ None }
    {
        AskedStream {
            desk,
            stream,
            told: None,
        }
    }

    /// Says what is wrong with the desk's key, where that has changed: a line that begins with the
    /// name of the program, as `board: desk 2 has another key`. Once the desk answers, nothing is
    /// wrong. A line that can't be written is left out.
    pub fn tell<F: Write>(&mut self, faults: &mut F, program: &str)
        ensures desk { self.new.desk ≡ self.old.desk }
        ensures stream { self.new.stream ≡ self.old.stream }
        ensures told { self.new.told ≡ self.old.stream.now.wire.trouble }
    {
        let trouble = self.stream.wire.key_trouble();
        if trouble == self.told {
            return;
        }
        if let Some(trouble) = trouble {
            say(faults, program, self.desk, trouble);
        }
        self.told = trouble;
    }
}
