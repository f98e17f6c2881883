//! A frame: its request is served, and its answer is spelled.

ghost use Rattle.std.specs.Prelude.{◌≡◌, IfOk, OnErr};
ghost use Rattle.wire.specs.Ranges.{IsFrame, IsDifference};
ghost use Rattle.serving.specs.Asking.{close_by};
ghost use Rattle.serving.specs.model.Sessions.{FailsFrame, ServesFrame, desks};

use crate::ends::FrameEnd;
use crate::peers::Peers;
use crate::permission::Permission;
use crate::request::{FrameEndRule, request_of};
use crate::session::Session;
use acceptor::NoMemory;
use answers::Desk;
use wire::{Difference, Frame};

/// What comes of a frame: the bytes of its answer, none where it has none, and how it ends the
/// connection of itself, if it does.
#[derive(Drop)]
pub struct FrameReply {
    pub bytes: Vec<u8>,
    pub close: Option<FrameEnd>,
}

/// The end of the connection, where the frame after which the desk is seen so ends it.
fn close_by<D: Desk>(ending: FrameEndRule, node: &D) -> Option<FrameEnd>
    ensures { result ≡ close_by ending (D.seen node.now).is_down }
{
    match ending {
        FrameEndRule::Never => None,
        FrameEndRule::AtStop => Some(FrameEnd::Stopped),
        FrameEndRule::IfDown => {
            if node.is_down() {
                Some(FrameEnd::Down)
            } else {
                None
            }
        }
    }
}

impl Session {
    /// Makes the calls and pushes of a frame of a connection that may ask so much, where another
    /// desk differs so or none does, and gives what comes of it.
    pub fn serve_frame<D: Desk, P: Peers>(
        self,
        node: &mut D,
        peers: &mut P,
        may: Permission,
        differs: Option<Difference>,
        frame: Frame,
    ) -> Result<FrameReply, NoMemory>
        requires home { D.home_of node.old ≡ self.home }
        requires spelled { IsFrame frame }
        requires differs { IsDifference differs }
        ensures ok { IfOk result (λ r. ServesFrame D.Desk P.Peers self may differs frame
            (desks node.old peers.old) (desks node.new peers.new) r.bytes.items r.close) }
        ensures err { OnErr result (FailsFrame D.Desk P.Peers self may differs frame
            (desks node.old peers.old) (desks node.new peers.new)) }
        ensures home { D.home_of node.new ≡ D.home_of node.old }
    {
        let version = frame.version;
        let asked = request_of(self.home, frame);
        let allowed = asked.permitted(may);
        let request = allowed.withheld(differs);
        let ending = request.ending();
        let answer = self.serve_request(node, peers, request)?;
        let bytes = self.spell_answer(version, answer)?;
        let close = close_by(ending, node);
        Ok(FrameReply { bytes, close })
    }
}
