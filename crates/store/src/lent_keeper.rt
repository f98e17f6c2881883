//! A keeper that is lent is a keeper, and what a save leaves, said in one place.

ghost use Rattle.std.specs.Prelude.{◌≡◌, ◌↔◌, ◌<◌, Err, IsTrue};
ghost use Rattle.store.specs.Keeping.{LeavesFound};

use crate::fault::{LoadFault, SaveFault};
use crate::home::Home;
use crate::keeper::Keeper;
use acceptor::stored::{Change, Stored};
use learner::log::Log;
use std::alloc::Global;

/// Saves, and says what a store that is settled and then opened again holds: after Ok the state
/// after the change and no other, after NoMemory the state before it and no other, and after Device
/// one of the two.
///
/// Device comes only where the count of failures has risen, and Down exactly where the keeper was
/// Down.
pub fn save_to<K: Keeper>(keeper: &mut K, change: &Change) -> Result<(), SaveFault>
    ensures leaves { K.is_honest keeper.new
        → LeavesFound (K.home_of keeper.old).desks (K.keeps keeper.old) (K.may_hold keeper.new)
        (K.may_break keeper.new) change.now result }
    ensures down { (result ≡ Err SaveFault.Down) ↔ IsTrue (K.is_down keeper.old) }
    ensures counted { result ≡ Err SaveFault.Device
        → K.failures_of keeper.old < K.failures_of keeper.new }
    ensures ended { result ≡ Err SaveFault.Device → IsTrue (K.is_down keeper.new) }
{
    keeper.save(change)
}

/// A keeper that is lent.
impl<K: Keeper> Keeper for &mut K {
    ghost is_honest = { λ k. K.is_honest k.now };

    ghost may_hold = { λ k. K.may_hold k.now };

    ghost may_break = { λ k. K.may_break k.now };

    ghost keeps = { λ k. K.keeps k.now };

    ghost finds = { λ k. K.finds k.now };

    ghost is_settled = { λ k. K.is_settled k.now };

    ghost is_down = { λ k. K.is_down k.now };

    ghost failures_of = { λ k. K.failures_of k.now };

    ghost home_of = { λ k. K.home_of k.now };

    ghost save_gives = { λ k change r after. K.save_gives k.now change r after.now };

    ghost load_gives = { λ k r after. K.load_gives k.now r after.now };

    fn home(&self) -> Home {
        (**self).home()
    }

    fn failures(&self) -> u64 {
        (**self).failures()
    }

    fn save(&mut self, change: &Change) -> Result<(), SaveFault> {
        (**self).save(change)
    }

    fn settle(&mut self) -> bool {
        (**self).settle()
    }

    fn load(&mut self, alloc: Global) -> Result<(Stored, Log), LoadFault> {
        (**self).load(alloc)
    }

    ghost alone = { λ k s log honest kept. (K.Keeper).alone k.now s log honest kept };

    ghost ranges = { λ k s log kept. (K.Keeper).ranges k.now s log kept };

    ghost works = { λ k s log kept. (K.Keeper).works k.now s log kept };

    ghost rests = { λ k s log settled found. (K.Keeper).rests k.now s log settled found };
}
