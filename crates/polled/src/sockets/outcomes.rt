//! What the answers of the system say of a peer.

ghost use Rattle.std.specs.Prelude.{◌≡◌};
ghost use Rattle.polled.specs.sockets.Outcomes.{accepted_by, given_by, is_full, is_waiting};
ghost use Rattle.polled.specs.sockets.Outcomes.{number_of, taken_by};

use crate::{AcceptedPeer, ReadOutcome, WriteOutcome};
use std::io;
use std::io::ErrorKind;

/// Whether a call is to be made again once the socket is ready. An interrupted one is to be made
/// again too: a socket that still is ready is named again.
pub fn is_waiting(error: &io::Error) -> bool
    ensures { result ≡ is_waiting error.now }
{
    matches!(error.kind(), ErrorKind::WouldBlock | ErrorKind::Interrupted)
}

/// What came of a read.
pub fn given_by(answer: io::Result<usize>) -> ReadOutcome
    ensures { result ≡ given_by answer }
{
    match answer {
        Ok(0) => ReadOutcome::Ended,
        Ok(count) => ReadOutcome::Bytes { count },
        Err(error) => {
            if is_waiting(&error) {
                ReadOutcome::Later
            } else {
                ReadOutcome::Broke
            }
        }
    }
}

/// What came of a write. One that takes no byte of some is like one that would wait.
pub fn taken_by(answer: io::Result<usize>) -> WriteOutcome
    ensures { result ≡ taken_by answer }
{
    match answer {
        Ok(0) => WriteOutcome::Later,
        Ok(count) => WriteOutcome::Bytes { count },
        Err(error) => {
            if is_waiting(&error) {
                WriteOutcome::Later
            } else {
                WriteOutcome::Broke
            }
        }
    }
}

/// Whether an error number of Linux says that there are no more sockets: no more files in the whole
/// system or in this program (ENFILE, EMFILE), no room in its buffers (ENOBUFS), or no memory
/// (ENOMEM).
fn is_full(code: Option<i32>) -> bool
    ensures { result ≡ is_full (number_of code) }
{
    matches!(code, Some(23 | 24 | 105 | 12))
}

/// What came of an accept that failed: there are no more sockets, or nobody waits any more.
pub fn accepted_by(error: &io::Error) -> AcceptedPeer
    ensures { result ≡ accepted_by error.now }
{
    if is_full(error.raw_os_error()) {
        AcceptedPeer::Full
    } else {
        AcceptedPeer::Nobody
    }
}
