//! What a step plans to change and to send.

use crate::role::Role;
use acceptor::message::Messages;
use acceptor::stored::Change;

/// What a step changes and sends. The change is stored first, then the plan is adopted, and only
/// then the messages are sent.
#[derive(Debug, Drop)]
pub struct Plan {
    /// The role from now on. `None` keeps the role.
    pub role: Option<Role>,
    /// The greatest number that a Nack has shown, from now on.
    pub seen: u32,
    /// Whether the queue's first leaves it.
    pub drop_first: bool,
    /// What is stored.
    pub change: Option<Change>,
    /// What is sent, in this order.
    pub messages: Messages,
}
