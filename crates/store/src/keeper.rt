//! What a desk needs of a store: the trait that everything above is written over.

ghost use Rattle.std.specs.Prelude.{◌≡◌, ◌≢◌, ◌↔◌, ℕ, Bool, List, Result, IsTrue, IfOk, OnErr};
ghost use Rattle.std.specs.Prelude.{false, true};
ghost use Rattle.acceptor.specs.declared.entry.Entry.{Entry};
ghost use Rattle.acceptor.specs.declared.stored.{Stored.Stored as State, Change.Change as Step};
ghost use Rattle.learner.specs.Logs.{LogValue};
ghost use Rattle.store.specs.{declared.home.Home.Home as Place, Whole.IsSound, Keeping.SettlesFor};
ghost use Rattle.store.specs.{declared.fault.SaveFault.SaveFault as Refusal, Ranges.IsHome};
ghost use Rattle.store.specs.{declared.fault.LoadFault.LoadFault as Unloaded, Ranges.IsFit};
ghost use Rattle.store.specs.Keeping.{most_failures, HoldsOnly, LeavesOf, Counts, CountsOne};
ghost use Rattle.store.specs.Keeping.{IsLoaded, FindsNoMore, IsDamaged, FindsOldOrKept, StaysKept};

use crate::fault::{LoadFault, SaveFault};
use crate::home::Home;
use acceptor::stored::{Change, Stored};
use learner::log::Log;
use std::alloc::Global;

/// What keeps the state and the log of one desk, so that the desk finds them again.
///
/// A change that is saved may wait: it is in the store once it is settled, together with all others
/// that wait. Until then an opening finds the state that was settled last, so what comes of a
/// change must not leave the desk before `settle` has answered true. A kind of keeper may also
/// commit each change at once: then nothing ever waits.
///
/// Whatever is said of the values that a store holds holds under `is_honest`, the premise on files:
/// so far the store has given back what was written to it, and nobody else has written it. For a
/// keeper in memory nothing is assumed.
pub trait Keeper {
    /// So far the store has given back what was written to it, and nobody else has written it.
    ghost is_honest: { Self → Type 0 };

    /// The states that the store may hold once what waits is settled and it is opened again.
    ghost may_hold: { Self → State → List Entry → Type 0 };

    /// Once the store is opened again, it may hold no state of this desk.
    ghost may_break: { Self → Type 0 };

    /// The keeper works, and its store holds this state alone once what waits is settled.
    ghost keeps: { Self → State → List Entry → Type 0 };

    /// The states that an opening may find at this moment, before what waits is settled.
    ghost finds: { Self → State → List Entry → Type 0 };

    /// Nothing waits.
    ghost is_settled: { Self → Type 0 };

    /// Each save is Down.
    ghost is_down: { Self → Bool };

    ghost failures_of: { Self → ℕ };

    ghost home_of: { Self → Place };

    /// What more is known of a save by this kind of keeper.
    ghost save_gives: { Self → Step → Result (Unit {0}) Refusal → Self → Type 0 };

    /// What more is known of a load by this kind of keeper.
    ghost load_gives: { Self → Result (State × LogValue) Unloaded → Self → Type 0 };

    /// The hall, the desk and the number of desks that the keeper was made with.
    fn home(&self) -> Home
        ensures home { result ≡ home_of self.now }
        ensures in_range { IsHome result };

    /// How many saves and loads have answered Device.
    fn failures(&self) -> u64
        ensures { result ≡ failures_of self.now };

    /// Saves the change: it is committed now, or waits for the next `settle` behind those that wait
    /// already. The state after it has to be in its ranges.
    ///
    /// Where the keeper is Down, or its failures are 2^64 - 1, the answer is Down. Else it is Ok,
    /// and the store holds the new state alone once what waits is settled; or NoMemory, and it
    /// holds the old one alone; or Device, and it holds one of the two. Device counts a failure,
    /// and the keeper is Down from then on, until a load is Ok. Where the change waits, an opening
    /// finds what it found before.
    fn save(&mut self, change: &Change) -> Result<(), SaveFault>
        ensures store { (is_honest self.new → is_honest self.old)
            × (home_of self.new ≡ home_of self.old) }

        // What the store holds.
        ensures leaves { is_honest self.new → LeavesOf (home_of self.old).desks (keeps self.old)
            (keeps self.new) (may_hold self.new) (may_break self.new) change.now result }
        ensures finds { is_honest self.new → FindsOldOrKept (finds self.old) (finds self.new)
            (may_hold self.new) (is_settled self.new) }

        // When it is Down, and what counts.
        ensures down { (result ≡ Err SaveFault.Down) ↔ IsTrue (is_down self.old) }
        ensures last { failures_of self.old ≡ most_failures → result ≡ Err SaveFault.Down }
        ensures counted { Counts (result ≡ Err SaveFault.Device) (failures_of self.old)
            (failures_of self.new) (is_down self.new) }
        ensures as_before { result ≢ Err SaveFault.Device → is_down self.new ≡ is_down self.old }
        ensures still { result ≡ Err SaveFault.Down → self.new ≡ self.old }

        // What this kind of keeper adds.
        ensures more { save_gives self.old change.now result self.new };

    /// Commits all changes that wait, in order and together: after a stop at any moment an opening
    /// finds the state before them all or the state after them all. Where none waits, the device is
    /// not asked.
    ///
    /// True: they are committed. False: the keeper is Down, as it was before, or from now on, since
    /// the device or memory was refused, which counts a failure; an opening finds what it found
    /// before, or the state after all changes, and nothing waits any more.
    fn settle(&mut self) -> bool
        ensures store { (is_honest self.new → is_honest self.old)
            × (home_of self.new ≡ home_of self.old) }
        ensures settled { IsTrue result → is_settled self.new }
        ensures keeps { is_honest self.new → IsTrue result → StaysKept (keeps self.old)
            (keeps self.new) }
        ensures leaves { is_honest self.new → SettlesFor (keeps self.old) (finds self.old)
            (may_hold self.old) (finds self.new) (may_break self.new) }
        ensures idle { IsTrue result → is_settled self.old → self.new ≡ self.old }
        ensures ended { IsTrue (is_down self.old) → (result ≡ false) × (self.new ≡ self.old) }
        ensures down { (result ≡ false) ↔ IsTrue (is_down self.new) }
        ensures counted { is_down self.old ≡ false → result ≡ false
            → CountsOne (failures_of self.old) (failures_of self.new) }
        ensures uncounted { IsTrue result → failures_of self.new ≡ failures_of self.old };

    /// The state and the log that the store holds. Nothing may wait.
    ///
    /// At Ok the keeper is not Down, and its store holds what was given alone. Damaged: what the
    /// store holds is not a state in its ranges, or the failures are 2^64 - 1. Device: the device
    /// refused, now or in an earlier call, a failure is counted, and the keeper is Down. NoMemory
    /// leaves it as it was. A keeper that is Down stays so until a load is Ok, which a kind of
    /// keeper may rule out, as `SqlKeeper` does. Whatever the answer, an opening finds nothing that
    /// it could not find before.
    fn load(&mut self, alloc: Global) -> Result<(Stored, Log), LoadFault>
        requires settled { is_settled self.old }
        ensures store { (is_honest self.new → is_honest self.old)
            × (home_of self.new ≡ home_of self.old) }

        // At Ok.
        ensures up { IfOk result (λ r. (is_down self.new ≡ false)
            × IsFit (home_of self.old).desks r.0 r.1.entries) }
        ensures loaded { IfOk result (λ r. is_honest self.new
            → IsLoaded (may_hold self.old) (keeps self.old) r.0 r.1.entries) }
        ensures kept { IfOk result (λ r. is_honest self.new → keeps self.new r.0 r.1.entries) }

        // What the store holds after a refusal, and may hold after any answer.
        ensures memory { result ≡ Err LoadFault.NoMemory → is_honest self.new
            → (s : State) (log : List Entry) → keeps self.old s log → keeps self.new s log }
        ensures finds { is_honest self.new → FindsNoMore (may_hold self.old) (may_break self.old)
            (may_hold self.new) (may_break self.new) }
        ensures settled { is_settled self.new }

        // When it is Damaged, what counts, and when it is Down.
        ensures damaged { IsDamaged (result ≡ Err LoadFault.Damaged) (failures_of self.old)
            (is_honest self.new) (IsSound (home_of self.old)) (keeps self.old) }
        ensures counted { Counts (result ≡ Err LoadFault.Device) (failures_of self.old)
            (failures_of self.new) (is_down self.new) }
        ensures down { (result ≢ Err LoadFault.Device → IsTrue (is_down self.new)
            → IsTrue (is_down self.old))
            × OnErr result (IsTrue (is_down self.old) → IsTrue (is_down self.new)) }

        // What this kind of keeper adds.
        ensures more { load_gives self.old result self.new };

    /// What a keeper keeps is what an opening finds once what waits is settled.
    ghost alone: { (k : Self) (s : State) (log : List Entry) → is_honest k → keeps k s log
        → HoldsOnly (may_hold k) (may_break k) s log };

    /// What a keeper keeps is in its ranges.
    ghost ranges: { (k : Self) (s : State) (log : List Entry) → keeps k s log
        → IsFit (home_of k).desks s log };

    /// A keeper that keeps a state is not Down.
    ghost works: { (k : Self) (s : State) (log : List Entry) → keeps k s log → is_down k ≡ false };

    /// Where nothing waits, an opening finds nothing but what the store may hold.
    ghost rests: { (k : Self) (s : State) (log : List Entry) → is_settled k → finds k s log
        → may_hold k s log };
}
