//! Entries of a desk's log, as it answers a client that asks for them.

ghost use Rattle.std.specs.Prelude.{◌≡◌, ◌≤◌, IfOk};
ghost use Rattle.wire.specs.{Numbers.IsFromThree, Ranges.IsLogLength};
ghost use Rattle.wire.specs.declared.values.Version.{Version};
ghost use Rattle.serving.specs.Answering.{IsAnswerIn, copied, entries_from};
ghost use Rattle.serving.specs.Nodes.{Fate};

use acceptor::NoMemory;
use answers::Desk;
use learner::log::Log;
use std::alloc::Global;
use wire::{ClientRefusal as Refusal, Entries, FrameBody};

/// The most entries of an answer. A frame has room for this many of the longest.
const MOST_ENTRIES: u32 = 400;

/// The log's entries from a position on, as many as an answer has.
fn entries_from(alloc: Global, log: &Log, position: u32) -> Result<Entries, NoMemory>
    requires { position ≤ 65536 }
    ensures { IfOk result (λ entries. entries ≡ entries_from position log.now.entries) }
{
    let mut entries = Entries::none(alloc);
    for pos in position..position + MOST_ENTRIES {
        if let Some(entry) = log.entry(pos) {
            entries.push(entry.copy_in(alloc)?)?;
        }
    }
    Ok(entries)
}

/// The entries of the desk's log from a position on, with its length. Where memory is refused, the
/// desk says so.
#[tactic(auto, using(crate::proofs::Refusing::refuses_in))]
pub fn copied<D: Desk>(alloc: Global, node: &D, position: u32) -> FrameBody
    requires { IsLogLength position }
    ensures what { (fate : Fate) × (result ≡ copied (D.seen node.now) fate position) }
    ensures in_range { (version : Version) → IsFromThree version → IsAnswerIn version result }
{
    let log = node.log();
    let length = log.len();
    match entries_from(alloc, log, position) {
        Ok(entries) => {
            // Read here, so that the proof knows each entry's range.
            let _entries = entries.as_slice();
            FrameBody::Entries {
                position,
                length,
                entries,
            }
        }
        Err(_) => FrameBody::Refused {
            refusal: Refusal::NoMemory,
        },
    }
}
