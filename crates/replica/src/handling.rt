//! What one event does at a desk: its plan is worked out, room is made for it, its one change is
//! saved, then it is adopted, and only then are its messages handed out.

ghost use Rattle.std.specs.Prelude.{◌≡◌, ◌≢◌, ◌⊎◌, ◌<◌, Err, None, false, IsOk, IfOk, OnOk};
ghost use Rattle.std.specs.Prelude.{IfErr};
ghost use Rattle.replica.specs.roles.model.RunningDesks.{Fits};
ghost use Rattle.replica.specs.{Handles.IsIgnored, model.Planning.running_step};
ghost use Rattle.replica.specs.Stores.{FindsOldOrHeld, HoldsOneOf, HoldsStep, KeepsAfter};
ghost use Rattle.replica.specs.Stores.{KeepsBefore, KeepsDesk};
ghost use Rattle.replica.specs.model.Planning.{HoldsPlan, IsSameDesk, TakesPlan, TakesStep};

use crate::roles::{NodeFault, Running};
use acceptor::message::Messages;
use acceptor::stored::Change;
use learner::event::DeskEvent;
use proposer::fault::StepFault;
use proposer::plan::Plan;
use std::alloc::Global;
use store::fault::SaveFault;
use store::keeper::Keeper;

/// Saves the change, where there is one, with a keeper that is not Down.
#[tactic(auto, using(crate::proofs::Finding::finds_same))]
fn save_change<K: Keeper>(keeper: &mut K, change: &Option<Change>) -> Result<(), NodeFault>
    requires up { K.is_down keeper.old ≡ false }
    ensures honest { K.is_honest keeper.new → K.is_honest keeper.old }
    ensures home { K.home_of keeper.new ≡ K.home_of keeper.old }
    ensures saved { OnOk result (KeepsAfter K.Keeper keeper.old change.now keeper.new) }
    ensures unsaved { result ≡ Err NodeFault.NoMemory
        → KeepsBefore K.Keeper keeper.old change.now keeper.new }
    ensures failed { result ≡ Err NodeFault.Down
        → HoldsOneOf K.Keeper keeper.old change.now keeper.new }
    ensures faults { IfErr result
        (λ fault. (fault ≡ NodeFault.NoMemory) ⊎ (fault ≡ NodeFault.Down)) }
    ensures up { result ≢ Err NodeFault.Down → K.is_down keeper.new ≡ false }
    ensures counted { result ≡ Err NodeFault.Down
        → K.failures_of keeper.old < K.failures_of keeper.new }
    ensures uncounted { result ≢ Err NodeFault.Down
        → K.failures_of keeper.new ≡ K.failures_of keeper.old }
    ensures still { change.now ≡ None → IsOk result × (keeper.new ≡ keeper.old) }
    ensures finds { FindsOldOrHeld K.Keeper keeper.old keeper.new }
{
    let Some(change) = change else {
        return Ok(());
    };
    match keeper.save(change) {
        Ok(()) => Ok(()),
        Err(SaveFault::NoMemory) => Err(NodeFault::NoMemory),
        Err(SaveFault::Device) => Err(NodeFault::Down),
        Err(SaveFault::Down) => Err(NodeFault::Down),
    }
}

/// Carries out what the desk plans at an event, or gives the refusal.
#[tactic(auto, using(crate::proofs::Finding::finds_same))]
fn carry_out<K: Keeper>(
    keeper: &mut K,
    desk: &mut Running,
    planned: Result<Plan, StepFault>,
) -> Result<Messages, NodeFault>
    requires fits { IfOk planned (Fits desk.old) }
    requires up { K.is_down keeper.old ≡ false }
    requires kept { KeepsDesk K.Keeper keeper.old desk.old.desk }
    requires home { (K.home_of keeper.old).desks ≡ desk.old.desks }
    ensures takes { TakesPlan desk.old planned desk.new result }
    ensures same { IsSameDesk desk.old desk.new }
    ensures honest { K.is_honest keeper.new → K.is_honest keeper.old }
    ensures home { K.home_of keeper.new ≡ K.home_of keeper.old }
    ensures kept { result ≢ Err NodeFault.Down → KeepsDesk K.Keeper keeper.new desk.new.desk }
    ensures left { result ≡ Err NodeFault.Down → HoldsPlan K.Keeper keeper.new desk.old planned }
    ensures up { result ≢ Err NodeFault.Down → K.is_down keeper.new ≡ false }
    ensures counted { result ≡ Err NodeFault.Down
        → K.failures_of keeper.old < K.failures_of keeper.new }
    ensures uncounted { result ≢ Err NodeFault.Down
        → K.failures_of keeper.new ≡ K.failures_of keeper.old }
    ensures still { IfOk planned
        (λ p. p.change ≡ None → IsOk result × (keeper.new ≡ keeper.old)) }
    ensures finds { FindsOldOrHeld K.Keeper keeper.old keeper.new }
{
    match planned {
        Err(fault) => Err(NodeFault::from(fault)),
        Ok(plan) => match save_change(keeper, &plan.change) {
            Ok(()) => Ok(desk.adopt(plan)),
            Err(fault) => Err(fault),
        },
    }
}

/// Takes an event at a desk whose keeper is not Down.
#[tactic(auto, using(crate::proofs::Finding::finds_same))]
pub fn take_event<K: Keeper>(
    alloc: Global,
    keeper: &mut K,
    desk: &mut Running,
    event: DeskEvent,
) -> Result<Messages, NodeFault>
    requires up { K.is_down keeper.old ≡ false }
    requires kept { KeepsDesk K.Keeper keeper.old desk.old.desk }
    requires home { (K.home_of keeper.old).desks ≡ desk.old.desks }
    ensures takes { TakesStep desk.old (running_step desk.old event) desk.new result }
    ensures same { IsSameDesk desk.old desk.new }
    ensures honest { K.is_honest keeper.new → K.is_honest keeper.old }
    ensures home { K.home_of keeper.new ≡ K.home_of keeper.old }
    ensures kept { result ≢ Err NodeFault.Down → KeepsDesk K.Keeper keeper.new desk.new.desk }
    ensures left { result ≡ Err NodeFault.Down
        → HoldsStep K.Keeper keeper.new desk.old.desk (running_step desk.old event) }
    ensures up { result ≢ Err NodeFault.Down → K.is_down keeper.new ≡ false }
    ensures counted { result ≡ Err NodeFault.Down
        → K.failures_of keeper.old < K.failures_of keeper.new }
    ensures uncounted { result ≢ Err NodeFault.Down
        → K.failures_of keeper.new ≡ K.failures_of keeper.old }
    ensures ignored { let x = desk.old in IsIgnored x.desks x.number x.desk event
        → IsOk result × (keeper.new ≡ keeper.old) }
    ensures finds { FindsOldOrHeld K.Keeper keeper.old keeper.new }
{
    match event {
        DeskEvent::Submit(entry) => match desk.submit(entry) {
            Ok(()) => Ok(Messages::none(alloc)),
            Err(fault) => Err(NodeFault::from(fault)),
        },
        DeskEvent::Start => {
            let planned = desk.start();
            carry_out(keeper, desk, planned)
        }
        DeskEvent::Tick => {
            let planned = desk.tick();
            carry_out(keeper, desk, planned)
        }
        DeskEvent::Deliver(message) => match desk.deliver(&message) {
            Ok(plan) => carry_out(keeper, desk, Ok(plan)),
            Err(_) => Err(NodeFault::NoMemory),
        },
    }
}
