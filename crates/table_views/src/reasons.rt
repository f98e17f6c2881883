//! Why something waits, in words.

ghost use Rattle.std.specs.Prelude.{◌≡◌, ◌++◌, OnOk};
ghost use Rattle.table_views.specs.Bar.{doing_of};
ghost use Rattle.table_views.specs.Reasons.{delay_words, refusal_if, refusal_words, why_words};

use crate::bar::{DesksHealth, doing_of};
use crate::desks::HallStatus;
use acceptor::NoMemory;
use wire::ClientRefusal;

/// Why a desk did not take what was submitted.
fn refusal_words(why: ClientRefusal) -> &'static [u8]
    ensures { result.now ≡ refusal_words why }
{
    match why {
        ClientRefusal::Busy => b": the desk is full, it is sent again",
        ClientRefusal::LogFull => b": the log is full, the desks take no more",
        ClientRefusal::NotAllowed => {
            b": the desk does not take it, since this table has no key, or another one"
        }
        ClientRefusal::Foreign => b": the desk is of another hall",
        ClientRefusal::HallDiffers => {
            b": the machines have other commands than one another, and take none"
        }
        ClientRefusal::BallotsSpent
        | ClientRefusal::NoMemory
        | ClientRefusal::Down
        | ClientRefusal::NotThere
        | ClientRefusal::NoSuchRound => b": the desk is down, it is sent to another one",
    }
}

/// Why the desk did not take the item of an id, if it is the one that it did not take.
fn refusal_if(refused: Option<(u64, ClientRefusal)>, id: u64) -> Option<ClientRefusal>
    ensures { result ≡ refusal_if refused id }
{
    match refused {
        Some((other, why)) if other == id => Some(why),
        _ => None,
    }
}

/// Why items wait that no desk refused, as the desks are doing.
fn delay_words(doing: DesksHealth) -> &'static [u8]
    ensures { result.now ≡ delay_words doing }
{
    match doing {
        DesksHealth::Locked(_) => b": this table has no key, or another one than the desks",
        DesksHealth::OtherHall(_) => b": a machine that answers is of another hall",
        DesksHealth::Differs(_) => b": the machines have other commands than one another",
        DesksHealth::Few => b": less than a majority of the machines answers",
        DesksHealth::Silent(_) => b": the machine that this table asks does not answer",
        DesksHealth::Undecided(_) => b": the machines have not decided it yet",
        DesksHealth::Away | DesksHealth::Asked | DesksHealth::Well => b"",
    }
}

/// Adds why the item of an id waits: that the desk did not take it, or what is wrong with the key
/// or the machines; nothing where it does not wait for long.
pub(crate) fn push_why(out: &mut Vec<u8>, desks: &HallStatus, id: u64) -> Result<(), NoMemory>
    ensures { OnOk result (out.new.items ≡ out.old.items ++ why_words desks.now id) }
{
    match refusal_if(desks.refused, id) {
        Some(why) => out.extend_from_slice(refusal_words(why)),
        None => out.extend_from_slice(delay_words(doing_of(desks))),
    }
}
