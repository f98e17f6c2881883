//! One command that is entered.

ghost use Rattle.std.specs.Prelude.{◌⊎◌, IfErr, IfOk};
ghost use Rattle.wire.specs.Ranges.{IsDesk};
ghost use Rattle.batch.specs.{Asking.IsOfAsking, Dialing.told, Logs.AddsSo};
ghost use Rattle.batch.specs.Entering.{EnteredBy, Hinders, IsEntered, StopsAsking};
ghost use Rattle.batch.specs.Watching.{Telling, watched};

use crate::asking::Receiver;
use crate::dialing::{Contact, Dial};
use crate::entering::entered;
use crate::fault::BatchFault;
use crate::keeping::let_go;
use crate::watching::Watch;
use std::alloc::Global;
use wire::FrameBody;

/// Enters a text with an id at a desk, and gives the last answer: that it was taken, or, where it
/// is waited for, what it was answered at which position of the log. It is reported decided only
/// where the entry at that position is this id and this text. Requests are made as by
/// [`enter_lines`](crate::enter_lines), and the observer hears of each try after which it is tried
/// again.
///
/// # Errors
///
/// As [`enter_lines`](crate::enter_lines), but for those of printing and of a refusal.
pub fn enter_command<D: Dial, V: Watch>(
    alloc: Global,
    dial: &mut D,
    contact: Contact<'_>,
    receiver: Receiver,
    waits: bool,
    id: u64,
    text: &[u8],
    watch: &mut V,
) -> Result<FrameBody, BatchFault>
    requires { IsDesk receiver.desk }
    ensures ok { IfOk result (λ last. IsEntered waits receiver id text.now last) }
    ensures asked { IfOk result (λ last. AddsSo (told contact.entry D.dialed dial.old dial.new)
        (Telling (watched V.heard watch.old watch.new)
        (EnteredBy waits receiver id text.now last))) }
    ensures err { IfErr result (λ f. AddsSo (told contact.entry D.dialed dial.old dial.new)
        (Telling (watched V.heard watch.old watch.new)
        (StopsAsking f receiver id text.now))) }
    ensures cause { IfErr result (λ f. IsOfAsking f ⊎ Hinders f waits receiver id text.now) }
{
    let mut made = 0;
    let last = entered(
        alloc, dial, &mut made, contact, receiver, waits, id, text, watch,
    );
    let_go(dial, made);
    last
}
