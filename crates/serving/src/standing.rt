//! How a desk is, as it answers a client that asks for it.

ghost use Rattle.std.specs.Prelude.{◌≡◌, ◌≤◌};
ghost use Rattle.std.specs.List.{AllByRecursion};
ghost use Rattle.wire.specs.{Numbers.IsFromThree, declared.values.Version.Version};
ghost use Rattle.wire.specs.Ranges.{AreLengths, IsDifference};
ghost use Rattle.wire.specs.declared.frame.FrameBody.TheVariants.{Standing as StandingOf};
ghost use Rattle.serving.specs.Answering.{IsAnswerIn, lengths_of_hall, promised_of, role_of};
ghost use Rattle.serving.specs.Answering.{standing};

use acceptor::ballot::Ballot;
use answers::Desk;
use proposer::role::Role;
use wire::{DeskRole, DeskStatus, Difference, FrameBody, Lengths};

/// What a desk does for a ballot of its own, in a frame's words.
fn role_of(role: &Role) -> DeskRole
    ensures { result ≡ role_of role.now }
{
    match role {
        Role::Idle => DeskRole::Idle,
        Role::Gathering { .. } => DeskRole::Gathering,
        Role::Proposing { .. } => DeskRole::Proposing,
        Role::Leading { .. } => DeskRole::Leading,
    }
}

/// The highest promised ballot, if any was promised, where a desk of a hall of this many has this
/// one.
fn promised_of(promised: Ballot) -> Option<Ballot>
    ensures { result ≡ promised_of promised }
{
    if promised.number == 0 {
        None
    } else {
        Some(promised)
    }
}

/// What the desks of a hall of this many reported of the lengths of their logs.
fn lengths_of_hall(desks: u8, told: [u32; 5]) -> Lengths
    requires most { AllByRecursion (λ len. len ≤ 65536) told }
    ensures lengths { result ≡ lengths_of_hall desks told }
    ensures in_range { AreLengths result }
{
    if desks == 3 {
        Lengths::OfThree([told[0], told[1], told[2]])
    } else {
        Lengths::OfFive(told)
    }
}

/// How the desk is, where another one differs so, or none does.
pub fn inspected<D: Desk>(node: &D, differs: Option<Difference>) -> FrameBody
    requires { IsDifference differs }
    ensures what { result ≡ StandingOf (standing (D.home_of node.now) (D.seen node.now) differs) }
    ensures in_range { (version : Version) → IsFromThree version → IsAnswerIn version result }
{
    let promised = promised_of(node.promised());
    FrameBody::Standing {
        standing: DeskStatus {
            length: node.log().len(),
            waiting: node.queued(),
            role: role_of(node.role()),
            promised,
            told: lengths_of_hall(node.home().desks, node.told()),
            differs,
        },
    }
}
