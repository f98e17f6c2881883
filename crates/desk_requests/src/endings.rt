//! How connections end.

ghost use Rattle.std.specs.Prelude.{◌≡◌};
ghost use Rattle.desk_requests.specs.Endings.{broken_ending, cut_ending, ending_at, ends_so_too};
ghost use Rattle.desk_requests.specs.Endings.{sure_ending, trouble_ending};

use batch::ConnectionLoss;
use sealed::ends::CallTrouble;
use std::io::ErrorKind;

/// How a connection ends on which the two sides' keys do not fit.
pub(crate) fn trouble_ending(trouble: CallTrouble) -> ConnectionLoss
    ensures { result ≡ trouble_ending trouble }
{
    match trouble {
        CallTrouble::NoKey => ConnectionLoss::NoKey,
        CallTrouble::OtherKey => ConnectionLoss::OtherKey,
        CallTrouble::HasKey => ConnectionLoss::HasKey,
    }
}

/// How a connection ends that broke off, where a byte of the answer had come, or none.
fn broken_ending(heard: bool) -> ConnectionLoss
    ensures { result ≡ broken_ending heard }
{
    if heard {
        ConnectionLoss::Own
    } else {
        ConnectionLoss::Gone
    }
}

/// How a connection ends that the desk ended in good order, where its end says this of the keys,
/// and a byte of the answer had come, or none.
pub(crate) fn cut_ending(trouble: Option<CallTrouble>, heard: bool) -> ConnectionLoss
    ensures { result ≡ cut_ending trouble heard }
{
    match trouble {
        Some(trouble) => trouble_ending(trouble),
        None => broken_ending(heard),
    }
}

/// How a connection ends on which a read fails so, where a byte of the answer had come, or none. It
/// says nothing of the keys: a desk that dies resets its connections.
pub(crate) fn ending_at(kind: ErrorKind, heard: bool) -> ConnectionLoss
    ensures { result ≡ ending_at kind heard }
{
    match kind {
        // the system says of a read that waited in vain that it would block
        ErrorKind::TimedOut | ErrorKind::WouldBlock => ConnectionLoss::Late,
        ErrorKind::ConnectionReset | ErrorKind::ConnectionAborted => broken_ending(heard),
        _ => ConnectionLoss::Own,
    }
}

/// Whether a second connection, on which only a preface is sent, shows the same as the first;
/// `came` says whether the preface of the desk came on it. It does where both ended as connections
/// to a desk without a key do, or where the first ended as one to a desk with another key does, and
/// the preface came. Any other end shows nothing.
pub(crate) fn ends_so_too(first: ConnectionLoss, second: ConnectionLoss, came: bool) -> bool
    ensures { result ≡ ends_so_too first second came }
{
    match (first, second) {
        (ConnectionLoss::NoKey, ConnectionLoss::NoKey) => true,
        (ConnectionLoss::OtherKey, _) => came,
        _ => false,
    }
}

/// The ending of a connection once it is known whether the desk was there afterwards. The end of a
/// connection says something of keys only at a desk that is there: one that dies ends its
/// connections too.
pub(crate) fn sure_ending(ending: ConnectionLoss, there: bool) -> ConnectionLoss
    ensures { result ≡ sure_ending ending there }
{
    match ending {
        ConnectionLoss::NoKey | ConnectionLoss::OtherKey if !there => ConnectionLoss::Gone,
        _ => ending,
    }
}
