//! What the answers of the system and of a desk mean.

ghost use Rattle.std.specs.Prelude.{◌≡◌};
ghost use Rattle.std.specs.List.{list_all};
ghost use Rattle.fault_hints.specs.Judged.{is_of_text, length_in, of_beginning, of_connecting};
ghost use Rattle.fault_hints.specs.Judged.{of_key, of_listening, of_opening, other_desk};

use crate::findings::{
    AddressFinding, CommandCount, DeskName, FileFinding, Finding, KeyFinding, OtherDesk,
};
use desk_requests::DeskFault;
use keys::key_file::KeyFileFault;
use std::io::ErrorKind;
use wire::{ClientRefusal, Frame, FrameBody};

/// What an error says that comes of opening, reading or writing a file.
pub(crate) fn of_opening(kind: ErrorKind) -> Option<FileFinding>
    ensures { result ≡ of_opening kind }
{
    match kind {
        ErrorKind::PermissionDenied => Some(FileFinding::NotAllowed),
        ErrorKind::ReadOnlyFilesystem => Some(FileFinding::ReadOnly),
        ErrorKind::StorageFull | ErrorKind::QuotaExceeded => Some(FileFinding::Full),
        ErrorKind::NotFound | ErrorKind::NotADirectory => Some(FileFinding::NoFolder),
        ErrorKind::IsADirectory => Some(FileFinding::IsFolder),
        ErrorKind::Unsupported => Some(FileFinding::NotPlain),
        _ => None,
    }
}

/// What an error says that comes of connecting to an address.
pub(crate) fn of_connecting(kind: ErrorKind) -> Option<AddressFinding>
    ensures { result ≡ of_connecting kind }
{
    match kind {
        ErrorKind::ConnectionRefused => Some(AddressFinding::NobodyListens),
        ErrorKind::TimedOut | ErrorKind::WouldBlock => Some(AddressFinding::Silent),
        ErrorKind::HostUnreachable | ErrorKind::NetworkUnreachable | ErrorKind::NetworkDown => {
            Some(AddressFinding::NoWay)
        }
        _ => None,
    }
}

/// What an error says that comes of listening at an address.
pub(crate) fn of_listening(kind: ErrorKind) -> Option<AddressFinding>
    ensures { result ≡ of_listening kind }
{
    match kind {
        ErrorKind::AddrInUse => Some(AddressFinding::Taken),
        ErrorKind::AddrNotAvailable => Some(AddressFinding::NotOurs),
        ErrorKind::PermissionDenied => Some(AddressFinding::NotAllowed),
        _ => None,
    }
}

/// What a fault says of a key.
pub(crate) fn of_key(fault: DeskFault) -> Option<KeyFinding>
    ensures { result ≡ of_key fault }
{
    match fault {
        DeskFault::NoKey => Some(KeyFinding::NoKey),
        DeskFault::OtherKey => Some(KeyFinding::OtherKey),
        DeskFault::HasKey => Some(KeyFinding::HasKey),
        DeskFault::Refused {
            refusal: ClientRefusal::NotAllowed,
        } => Some(KeyFinding::NotAllowed),
        DeskFault::KeyFile(KeyFileFault::NotThere) => Some(KeyFinding::NotThere),
        DeskFault::KeyFile(KeyFileFault::Unreadable) => Some(KeyFinding::Unreadable),
        DeskFault::KeyFile(KeyFileFault::Open) => Some(KeyFinding::Open),
        DeskFault::KeyFile(KeyFileFault::NoKey) => Some(KeyFinding::NotOne),
        DeskFault::KeyThere => Some(KeyFinding::IsThere),
        DeskFault::SameKeys => Some(KeyFinding::TwoAreOne),
        DeskFault::NoHallKey => Some(KeyFinding::NoHallKey),
        _ => None,
    }
}

/// Whether a byte may be in a text.
fn is_of_text(byte: u8) -> bool
    ensures { result ≡ is_of_text byte }
{
    byte >= 32 || byte == 9 || byte == 10 || byte == 13
}

/// Whether bytes are those of a text.
fn is_text(bytes: &[u8]) -> bool
    ensures { result ≡ list_all is_of_text bytes.now }
{
    bytes.iter().all(|byte| is_of_text(*byte))
}

/// What the first bytes of a file say, 16 or all that it has. None where they are those of a
/// database.
pub(crate) fn of_beginning(bytes: &[u8]) -> Option<FileFinding>
    ensures { result ≡ of_beginning bytes.now }
{
    if bytes == b"SQLite format 3\0".as_slice() {
        return None;
    }
    if bytes.is_empty() {
        return Some(FileFinding::Empty);
    }
    if is_text(bytes) {
        return Some(FileFinding::Text);
    }
    Some(FileFinding::NoDatabase)
}

/// Which desk a frame is from, where another one was asked.
pub(crate) fn other_desk(given: &Frame, hall: u32, desk: u8) -> Option<Finding<'static>>
    ensures { result ≡ other_desk given.now hall desk }
{
    if given.hall == hall && given.from == desk {
        return None;
    }
    let met = DeskName {
        hall: given.hall,
        desk: given.from,
    };
    let asked = DeskName { hall, desk };
    let desk = OtherDesk { met, asked };
    Some(Finding::Other { desk })
}

/// How many commands a desk has, where a frame says how it is.
pub(crate) fn length_in(given: &Frame) -> Option<Finding<'static>>
    ensures { result ≡ length_in given.now }
{
    match &given.what {
        FrameBody::Standing { standing } => {
            let count = CommandCount {
                commands: standing.length,
            };
            Some(Finding::Length { count })
        }
        _ => None,
    }
}
