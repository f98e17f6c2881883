//! What has become of an id, as a desk knows it.

ghost use Rattle.std.specs.Prelude.{◌≡◌};
ghost use Rattle.answers.specs.Answers.{is_queued, told_by_queue};

use acceptor::entry::Entry;
use texts::Answer;

/// What has become of a submitted id, as a desk knows it.
#[derive(Clone, Copy, PartialEq, Eq, Debug)]
pub enum IdState {
    /// An entry of this id is in the log. `pos` is the first position that has one, 0 to 65,535,
    /// and `answer` is what its command was answered.
    Done { pos: u32, answer: Answer },
    /// The log has no entry of this id, and one is in the queue.
    Pending,
    /// Neither the log nor the queue has an entry of this id.
    Unknown,
}

/// Whether an entry of this id is in the queue.
fn is_queued(queue: &[Entry], id: u64) -> bool
    ensures { result ≡ is_queued queue.now id }
{
    queue.iter().any(|entry| entry.id() == id)
}

/// What has become of an id that is not in the log.
pub(crate) fn told_by_queue(queue: &[Entry], id: u64) -> IdState
    ensures { result ≡ told_by_queue queue.now id }
{
    if is_queued(queue, id) {
        IdState::Pending
    } else {
        IdState::Unknown
    }
}
