//! The desk that a task is for.

ghost use Rattle.std.specs.{Prelude.IfErr, Prelude.IfOk, Prelude.OnOk, Io.KnownBytes.Keeps};
ghost use Rattle.desk_choice.specs.Resolving.{Resolves, outside};
ghost use Rattle.subcommands.specs.Places.{IsAsked, MissesDesk, NamesDesk, reach};

use crate::telling::tell_missing;
use arguments::Place;
use batch::{Contact, Dial};
use desk_choice::{DeskAddress, addressed};
use std::io::Write;

/// Finds the desk that a task is for. Where no desk is found, it says why, and gives the exit
/// status.
pub(crate) fn found_at<D: Dial, F: Write>(
    rt: &HostRuntime,
    dial: &mut D,
    place: Place<'_>,
    patience: u32,
    explains: bool,
    faults: &mut F,
) -> Result<DeskAddress, u8>
    ensures ok { IfOk result (λ found. Resolves place.entry patience found
        (outside D.dialed F.contents dial.old dial.new faults.old faults.new)) }
    ensures quiet { OnOk result (NamesDesk place.entry
        → Keeps (F.contents faults.old) (F.contents faults.new)) }
    ensures err { IfErr result (λ status. MissesDesk status place.entry patience
        (reach D.dialed F.contents dial.old dial.new faults.old)) }
{
    match addressed(rt, dial, place, patience, faults) {
        Ok(found) => Ok(found),
        Err(fault) => Err(tell_missing(rt, faults, fault, explains)),
    }
}

/// How a desk that was found is asked.
pub(crate) fn contact_of(found: &DeskAddress, patience: u32) -> Contact<'_>
    ensures { IsAsked found.now patience result }
{
    Contact {
        address: found.address.as_str(),
        patience,
        key: found.key,
    }
}
