//! What was met when it was looked again after a fault.

use crate::sentences::{of_address, of_file, of_key, this_is, who_differs, you_asked};
use std::fmt;

/// What was met of a desk's file.
#[derive(Clone, Copy, Debug, PartialEq, Eq)]
pub enum FileFinding {
    /// The folder that it should be in is not there, or is no folder.
    NoFolder,
    /// It is not there.
    NotThere,
    /// A folder is there.
    IsFolder,
    /// A link or a device is there, or the file has a second name.
    NotPlain,
    /// This user may not open it.
    NotAllowed,
    /// Nobody may write to its disk.
    ReadOnly,
    /// This user may not write in its folder.
    FolderClosed,
    /// Another program has it open.
    HeldOpen,
    /// Another program has it open, and its log is wanted.
    LogHeldOpen,
    /// The device has no room.
    Full,
    /// A rollback journal is beside it.
    HasJournal,
    /// It can be opened now.
    OpensNow,
    /// It has nothing in it.
    Empty,
    /// It is a text.
    Text,
    /// It is no database.
    NoDatabase,
    /// It is a database, and its log is not beside it.
    LogMissing,
    /// It is a database with its log, and no whole store of a desk.
    NotWhole,
    /// It is the store of another desk, or of another hall.
    OtherDesk,
}

/// What was met of a key.
#[derive(Clone, Copy, Debug, PartialEq, Eq)]
pub enum KeyFinding {
    /// The desk asks for none.
    NoKey,
    /// The desk has another one.
    OtherKey,
    /// The desk asks for one.
    HasKey,
    /// What was asked is not for the key under which it was asked, or not without one.
    NotAllowed,
    /// Its file is not there.
    NotThere,
    /// Its file can't be read.
    Unreadable,
    /// Others may read its file.
    Open,
    /// Its file has none.
    NotOne,
    /// Its file was to be made, and is there.
    IsThere,
    /// The hall's key and the entry key are one.
    TwoAreOne,
    /// An entry key or open sheets are asked for without the hall's key.
    NoHallKey,
}

/// What was met at an address.
#[derive(Clone, Copy, Debug, PartialEq, Eq)]
pub enum AddressFinding {
    /// It is no host and port.
    NotAddress,
    /// Nobody knows the host.
    UnknownHost,
    /// The machine answers, and nobody listens there.
    NobodyListens,
    /// No answer comes from there.
    Silent,
    /// The network does not lead there.
    NoWay,
    /// Somebody listens there now.
    ListensNow,
    /// Another program of this machine has it.
    Taken,
    /// It is no address of this machine.
    NotOurs,
    /// This user may not have the port.
    NotAllowed,
    /// It can be had now.
    FreeNow,
}

/// A desk of a hall. Its text is `desk 3 of hall 7`.
#[derive(Clone, Copy, Debug, PartialEq, Eq)]
pub struct DeskName {
    pub hall: u32,
    pub desk: u8,
}

impl fmt::Display for DeskName {
    ghost use Rattle.std.specs.Prelude.{Some};
    ghost use Rattle.fault_hints.specs.Sentences.{name_text};

    ghost output = { λ name. Some (name_text name) };

    #[tactic(auto, unfolding(crate::specs::Sentences::name_text))]
    fn fmt<W: fmt::Write>(&self, f: &mut fmt::Formatter<W>) -> fmt::Result {
        f.write_str("desk ")?;
        self.desk.fmt(f)?;
        f.write_str(" of hall ")?;
        self.hall.fmt(f)
    }
}

/// A desk that answers, and the one that was asked. Its text is `this is desk 3 of hall 7, you
/// asked desk 2 of hall 7`.
#[derive(Clone, Copy, Debug, PartialEq, Eq)]
pub struct OtherDesk {
    pub met: DeskName,
    pub asked: DeskName,
}

impl fmt::Display for OtherDesk {
    ghost use Rattle.std.specs.Prelude.{Some};
    ghost use Rattle.fault_hints.specs.Sentences.{other_text};

    ghost output = { λ other. Some (other_text other) };

    fn fmt<W: fmt::Write>(&self, f: &mut fmt::Formatter<W>) -> fmt::Result {
        f.write_str(this_is())?;
        self.met.fmt(f)?;
        f.write_str(you_asked())?;
        self.asked.fmt(f)
    }
}

/// How many commands a desk has. Its text is `the desk has 109 commands`.
#[derive(Clone, Copy, Debug, PartialEq, Eq)]
pub struct CommandCount {
    pub commands: u32,
}

impl fmt::Display for CommandCount {
    ghost use Rattle.std.specs.Prelude.{Some};
    ghost use Rattle.fault_hints.specs.Sentences.{count_text};

    ghost output = { λ count. Some (count_text count) };

    fn fmt<W: fmt::Write>(&self, f: &mut fmt::Formatter<W>) -> fmt::Result {
        f.write_str("the desk has ")?;
        self.commands.fmt(f)?;
        f.write_str(" commands")
    }
}

/// What was met when it was looked again after a fault. Its text is one line for people.
#[derive(Clone, Copy, Debug, PartialEq, Eq)]
pub enum Finding<'a> {
    /// Of the file at a path.
    File {
        path: &'a str,
        what: FileFinding,
    },
    /// At an address.
    Address {
        address: &'a str,
        what: AddressFinding,
    },
    /// Of a key.
    Key {
        what: KeyFinding,
    },
    /// A desk answers that is another one than was asked.
    Other {
        desk: OtherDesk,
    },
    /// The desk that was asked has this many commands.
    Length {
        count: CommandCount,
    },
    /// A desk of the hall has another command than this one, or fewer than it had.
    Differs,
}

impl fmt::Display for Finding<'_> {
    ghost use Rattle.std.specs.Prelude.{Some};
    ghost use Rattle.fault_hints.specs.Sentences.{finding_text};

    ghost output = { λ finding. Some (finding_text finding) };

    fn fmt<W: fmt::Write>(&self, f: &mut fmt::Formatter<W>) -> fmt::Result {
        match self {
            Finding::File { path, what } => {
                f.write_str(path)?;
                f.write_str(": ")?;
                f.write_str(of_file(*what))
            }
            Finding::Address { address, what } => {
                f.write_str(address)?;
                f.write_str(": ")?;
                f.write_str(of_address(*what))
            }
            Finding::Key { what } => f.write_str(of_key(*what)),
            Finding::Other { desk } => desk.fmt(f),
            Finding::Length { count } => count.fmt(f),
            Finding::Differs => f.write_str(who_differs()),
        }
    }
}
