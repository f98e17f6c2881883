//! That the entries of messages fit in frames: their type says so, and these functions pass it on.

ghost use Rattle.std.specs.Prelude.{⊤};
ghost use Rattle.learner.specs.Contents.{BodyHolds};
ghost use Rattle.replica.specs.Handles.{IsInFrame, FitInFrames};

use acceptor::entry::Entry;
use acceptor::message::{Body, Message};

/// Looks at an entry.
fn look(entry: &Entry)
    ensures { IsInFrame entry.now }
{
    let _ = entry.id();
    let _ = entry.text();
}

/// Looks at the entry of what is said, where there is one.
fn look_at(body: &Body)
    ensures { BodyHolds IsInFrame (λ b. ⊤) body.now }
{
    match body {
        Body::Promise { vote, .. } => {
            if let Some(report) = vote {
                look(&report.entry);
            }
        }
        Body::Accept { entry, .. } => look(entry),
        Body::Decided { entry, .. } => look(entry),
        Body::Prepare { .. } | Body::Accepted { .. } | Body::Nack { .. } | Body::Behind { .. } => {}
    }
}

/// Looks at the entries of all these messages. It changes nothing, and takes no memory.
pub fn look_at_all(messages: &[Message])
    ensures { FitInFrames messages.now }
{
    for message in messages {
        look_at(&message.body);
    }
}
