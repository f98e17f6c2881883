//! The lengths of logs that the desks of a hall reported to a desk.

ghost use Rattle.std.specs.Prelude.{◌≡◌, ◌≤◌, true};
ghost use Rattle.std.specs.List.{AllByRecursion};
ghost use Rattle.learner.specs.Steps.{IsDesk, is_in_range};
ghost use Rattle.replica.specs.Lengths.{heard, length_told, raised, told_by};

use crate::roles::heeding::is_heeded;
use acceptor::message::{Body, Message};
use learner::event::DeskEvent;
use store::home::Home;

/// How many entries the log of the sender has at least, by what it says, where its fields are in
/// their ranges: at most 65,536.
fn length_told(desks: u8, body: &Body) -> u32
    requires { is_in_range desks body.now ≡ true }
    ensures told { result ≡ length_told body.now }
    ensures most { result ≤ 65536 }
{
    match body {
        Body::Behind { len } => *len,
        Body::Decided { pos, .. } => *pos + 1,
        Body::Prepare { .. }
        | Body::Promise { .. }
        | Body::Accept { .. }
        | Body::Accepted { .. }
        | Body::Nack { .. } => 0,
    }
}

/// The lengths, of which that of this desk is at least `len`.
fn raised(told: [u32; 5], desk: u8, len: u32) -> [u32; 5]
    requires desk { IsDesk 5 desk }
    requires len { len ≤ 65536 }
    requires most { AllByRecursion (λ each. each ≤ 65536) told }
    ensures raised { result ≡ raised desk len told }
    ensures most { AllByRecursion (λ each. each ≤ 65536) result }
{
    let mut told = told;
    let index = (desk - 1) as usize;
    told[index] = told[index].max(len);
    told
}

/// The lengths after a message.
fn heard(home: Home, message: &Message, told: [u32; 5]) -> [u32; 5]
    requires few { home.desks ≤ 5 }
    requires most { AllByRecursion (λ len. len ≤ 65536) told }
    ensures heard { result ≡ heard home.desks home.desk message.now told }
    ensures most { AllByRecursion (λ len. len ≤ 65536) result }
{
    if !is_heeded(home.desks, home.desk, message) {
        return told;
    }
    let len = length_told(home.desks, &message.body);
    raised(told, message.from, len)
}

/// The lengths that were reported to a desk after an event that is not refused, where they were
/// these before it. There is one for each of five desks, that of desk 1 first.
pub fn told_by(home: Home, event: &DeskEvent, told: [u32; 5]) -> [u32; 5]
    requires few { home.desks ≤ 5 }
    requires most { AllByRecursion (λ len. len ≤ 65536) told }
    ensures told { result ≡ told_by home event.now told }
    ensures most { AllByRecursion (λ len. len ≤ 65536) result }
{
    match event {
        DeskEvent::Deliver(message) => heard(home, message, told),
        DeskEvent::Submit(_) | DeskEvent::Start | DeskEvent::Tick => told,
    }
}
