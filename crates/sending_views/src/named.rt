//! The meet of a log, as an export reads it.

ghost use Rattle.std.specs.Prelude.{◌≡◌, IfOk};
ghost use Rattle.answers.specs.Answers.{texts};
ghost use Rattle.commands.specs.History.{history};

use acceptor::NoMemory;
use learner::log::Log;
use std::alloc::Global;
use wcif_results::NamedMeet;

/// What the entries of a log come to, with each name that they gave a number.
pub(crate) fn named_meet(alloc: Global, log: &Log) -> Result<NamedMeet, NoMemory>
    ensures { IfOk result (λ meet. meet ≡ history (texts log.now.entries)) }
{
    let mut meet = NamedMeet::new(alloc)?;
    for position in 0..log.len() {
        let Some(entry) = log.entry(position) else {
            unreachable!();
        };
        meet.apply(entry.id(), entry.text())?;
    }
    Ok(meet)
}
