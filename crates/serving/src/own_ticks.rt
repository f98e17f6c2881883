//! A Tick that a desk gives itself.

ghost use Rattle.std.specs.Prelude.{◌≡◌, OnOk, OnErr};
ghost use Rattle.serving.specs.OwnTicks.{Ticks, TicksInPart, sides_alone};

use crate::peers::Peers;
use crate::session::Session;
use acceptor::NoMemory;
use answers::Desk;
use std::alloc::Global;
use wire::Version;

/// Gives the desk a Tick: its calls and pushes are those of a client's Tick, and there is no
/// answer. What the desk says to others is pushed in the version `wire`. Where memory is refused, a
/// front part of the calls and pushes was made.
pub fn tick<D: Desk, P: Peers>(
    alloc: Global,
    node: &mut D,
    peers: &mut P,
    wire: Version,
) -> Result<(), NoMemory>
    ensures ok { OnOk result (Ticks (D.home_of node.old)
        (sides_alone D.Desk P.Peers wire node.old peers.old)
        (sides_alone D.Desk P.Peers wire node.new peers.new)) }
    ensures err { OnErr result (TicksInPart (D.home_of node.old)
        (sides_alone D.Desk P.Peers wire node.old peers.old)
        (sides_alone D.Desk P.Peers wire node.new peers.new)) }
    ensures home { D.home_of node.new ≡ D.home_of node.old }
{
    let home = node.home();
    let session = Session { alloc, home, wire };
    session.tick(node, peers)?;
    Ok(())
}
