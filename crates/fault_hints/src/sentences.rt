//! The sentence for each thing that may be met.

ghost use Rattle.std.specs.Prelude.{◌≡◌};
ghost use Rattle.fault_hints.specs.Sentences.{address_text, file_text, key_text, this_is};
ghost use Rattle.fault_hints.specs.Sentences.{who_differs, you_asked};

use crate::findings::{AddressFinding, FileFinding, KeyFinding};

/// What is said of a desk's file, after its path.
pub(crate) fn of_file(what: FileFinding) -> &'static str
    ensures { result.now ≡ file_text what }
{
    match what {
        FileFinding::NoFolder => "there is no such folder; make it, or name another path",
        FileFinding::NotThere => "there is no such file; compare the path",
        FileFinding::IsFolder => "it is a folder; name a file",
        FileFinding::NotPlain => "it is a link or a device, or has a second name; name the file",
        FileFinding::NotAllowed => "this user may not read and write it; look at its rights",
        FileFinding::ReadOnly => "its disk is mounted for reading only; look at the disk",
        FileFinding::FolderClosed => "this user may not write in its folder; look at its rights",
        FileFinding::HeldOpen => "another program has it open; end that one first",
        FileFinding::LogHeldOpen => "a desk has it open; ask that one: desk log --to ADDR",
        FileFinding::Full => "the disk is full; make room first",
        FileFinding::HasJournal => "a rollback journal lies beside it; open it with sqlite3 once",
        FileFinding::OpensNow => "it can be opened now; try again",
        FileFinding::Empty => "it is empty",
        FileFinding::Text => "it is a text; compare the path",
        FileFinding::NoDatabase => "it is no database; compare the path",
        FileFinding::LogMissing => "its -wal is missing or not its own; the two belong together",
        FileFinding::NotWhole =>
            "the file is incomplete: keep it, and do not start this desk again",
        FileFinding::OtherDesk => "another desk's store is in it; compare the path and the numbers",
    }
}

/// What is said of an address, after it.
pub(crate) fn of_address(what: AddressFinding) -> &'static str
    ensures { result.now ≡ address_text what }
{
    match what {
        AddressFinding::NotAddress => "this is no HOST:PORT, as 192.168.50.11:7001",
        AddressFinding::UnknownHost => "nobody knows this host; write its IP address",
        AddressFinding::NobodyListens => "no desk runs there; start it, or compare the port",
        AddressFinding::Silent => "no answer; look at the machine, its cable and its firewall",
        AddressFinding::NoWay => "the network does not lead there; look at the cables",
        AddressFinding::ListensNow => "somebody listens there now; ask again",
        AddressFinding::Taken => "another program listens there; end that one first",
        AddressFinding::NotOurs => "this machine has no such address; compare the addresses",
        AddressFinding::NotAllowed => "this user may not listen there; take a port from 1024 on",
        AddressFinding::FreeNow => "the address is free now; start it again",
    }
}

/// What is said of a key.
pub(crate) fn of_key(what: KeyFinding) -> &'static str
    ensures { result.now ≡ key_text what }
{
    match what {
        KeyFinding::NoKey => "ask without --key, or start the desk with --key",
        KeyFinding::OtherKey => "all desks of a hall have one key file; copy it from one of them",
        KeyFinding::HasKey => "name the file with the hall's key: --key FILE",
        KeyFinding::NotAllowed => "this needs the hall's key: name its file with --key FILE",
        KeyFinding::NotThere => "compare the path, or copy the file from a desk of the hall",
        KeyFinding::Unreadable => "look at its rights, and whether it is a file",
        KeyFinding::Open => "take their rights from it: chmod 600 FILE",
        KeyFinding::NotOne => "a key is 64 hexadecimal digits; desk key --file FILE makes one",
        KeyFinding::IsThere => "it is left as it is; name another file",
        KeyFinding::TwoAreOne => "make another one for entries: desk key --file FILE",
        KeyFinding::NoHallKey => "name the file with the hall's key: --key FILE",
    }
}

/// What is before the desk that answers.
#[tactic(auto, unfolding(crate::specs::Sentences::this_is))]
pub(crate) fn this_is() -> &'static str
    ensures { result.now ≡ this_is }
{
    "this is "
}

/// What is before the desk that was asked.
#[tactic(auto, unfolding(crate::specs::Sentences::you_asked))]
pub(crate) fn you_asked() -> &'static str
    ensures { result.now ≡ you_asked }
{
    ", you asked "
}

/// What is said where a desk accepts no command, since desks differ.
#[tactic(auto, unfolding(crate::specs::Sentences::who_differs))]
pub(crate) fn who_differs() -> &'static str
    ensures { result.now ≡ who_differs }
{
    "enter nothing more; desk status says which one, and HALL, 'Two desks differ', what to do"
}
