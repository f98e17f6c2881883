//! Whether a desk is asked by an Await.

ghost use Rattle.std.specs.Prelude.{◌≡◌};
ghost use Rattle.batch.specs.{Dialing.told, Probing.KnowsAwait, Probing.is_known};

use crate::dialing::{Contact, Dial};
use crate::fault::BatchFault;
use crate::keeping::ask_over;
use client::{ClientFault, await_request};
use wire::FrameBody;

/// How many seconds a desk is waited for at least, so that its answer to an Await comes in time.
const PATIENCE: u32 = 4;

/// Whether the desk knows a request of which this came: it answers it, or refuses it.
fn is_known(came: &Result<FrameBody, BatchFault>) -> bool
    ensures { result ≡ is_known came.now }
{
    match came {
        Ok(_) => true,
        Err(BatchFault::Asking(ClientFault::Refused { .. })) => true,
        Err(_) => false,
    }
}

/// Whether a desk is to be asked by an Await: it is waited for at least four seconds, and its
/// program knows one. It is asked for the id 1, and for no second; a desk of an earlier program
/// ends the connection at that. Where it isn't reached, the answer is that it does not, and the
/// next request tells why. Where its number is not 1 to 5, it is not asked.
pub fn knows_await<D: Dial>(dial: &mut D, contact: Contact<'_>, hall: u32, desk: u8) -> bool
    ensures { KnowsAwait (told contact.entry D.dialed dial.old dial.new) hall desk result }
{
    if desk == 0 || desk > 5 || contact.patience < PATIENCE {
        return false;
    }
    let request = await_request(hall, desk, 1, 0);
    let came = ask_over(dial, contact, &request);
    is_known(&came)
}
