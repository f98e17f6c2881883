//! Calls of the node.

ghost use Rattle.std.specs.Prelude.{◌≡◌, IfOk, OnErr};
ghost use Rattle.learner.specs.Ranges.{AreInRange};
ghost use Rattle.serving.specs.model.Sessions.{IsCalled, LosesCall};

use acceptor::NoMemory;
use acceptor::message::Message;
use answers::Desk;
use learner::event::DeskEvent;
use replica::roles::NodeFault;
use std::collections::VecDeque;

/// How the node answered.
#[derive(Clone, Copy, PartialEq, Eq, Debug)]
pub enum NodeAnswer {
    Taken,
    Refused(NodeFault),
}

/// Gives the node an event. Its messages go after those that wait; at Down these are dropped.
pub fn call<D: Desk>(
    node: &mut D,
    waiting: &mut VecDeque<Message>,
    event: DeskEvent,
) -> Result<NodeAnswer, NoMemory>
    requires in_range { let home = D.home_of node.old in
        AreInRange home.desks home.desk waiting.old.items }
    ensures ok { IfOk result
        (IsCalled D.Desk event node.old node.new waiting.old.items waiting.new.items) }
    ensures err { OnErr result (LosesCall D.Desk event node.old node.new) }
    ensures in_range { let home = D.home_of node.old in
        AreInRange home.desks home.desk waiting.new.items }
    ensures home { D.home_of node.new ≡ D.home_of node.old }
{
    match node.handle(event) {
        Ok(messages) => {
            let mut more = VecDeque::from(messages.into_vec());
            waiting.append(&mut more)?;
            Ok(NodeAnswer::Taken)
        }
        Err(fault) => {
            if fault == NodeFault::Down {
                waiting.clear();
            }
            Ok(NodeAnswer::Refused(fault))
        }
    }
}
