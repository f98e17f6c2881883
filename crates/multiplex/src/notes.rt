//! What is kept of a client beside its connection: until when an Await of it is put off, and what
//! the hall's desks reported before.

ghost use Rattle.std.specs.Prelude.{◌≡◌, ◌≤◌, None};
ghost use Rattle.std.specs.List.{AllByRecursion};
ghost use Rattle.multiplex.specs.Noting.{awaited_next, first_notes, is_due, is_known, listened};
ghost use Rattle.multiplex.specs.Noting.{AreNoted, PutsOff, heard_next, until_of};

use answers::Desk;
use guarded::LockedConnection;
use serving::{AwaitRequest, awaited_by, differs_by, first_difference, known_after};
use store::home::Home;
use wire::Difference;

/// What is kept of a client beside its connection.
#[derive(Clone, Copy)]
pub(crate) struct Notes {
    /// Until when the Await that comes next is put off, in milliseconds after the first round,
    /// where one is.
    pub(crate) until: Option<u64>,
    /// The lengths of their logs that the hall's desks reported before the connection was opened,
    /// or on it, that of desk 1 first.
    pub(crate) known: [u32; 5],
}

impl Notes {
    /// Those of a client that came now.
    pub(crate) fn new<D: Desk>(node: &D) -> Notes
        ensures first { result ≡ first_notes (D.seen node.now) }
        ensures most { AllByRecursion (λ len. len ≤ 65536) (D.seen node.now).told }
    {
        Notes {
            until: None,
            known: node.told(),
        }
    }
}

/// What the frame waits for that is begun next, where it is an Await that is for this desk.
pub(crate) fn awaited_next(talk: &LockedConnection, home: Home) -> Option<AwaitRequest>
    ensures { result ≡ awaited_next home talk.now }
{
    match talk.next() {
        Some(frame) => awaited_by(home, frame),
        None => None,
    }
}

/// Whether what becomes of an id is known: it is in the log, or nothing comes of it here, since the
/// desk is down.
fn is_known<D: Desk>(node: &D, id: u64) -> bool
    ensures { result ≡ is_known (D.seen node.now) id }
{
    node.is_down() || node.log().position_of(id).is_some()
}

/// Whether an Await that is put off until then is to be answered now.
pub(crate) fn is_due<D: Desk>(node: &D, awaited: AwaitRequest, until: u64, time: u64) -> bool
    ensures { result ≡ is_due (D.seen node.now) awaited until time }
{
    until <= time || is_known(node, awaited.id)
}

/// Until when an Await is put off that was put off until then, or wasn't yet.
fn until_of(awaited: AwaitRequest, time: u64, until: Option<u64>) -> u64
    ensures { result ≡ until_of awaited time until }
{
    match until {
        Some(until) => until,
        None => time.saturating_add(1000 * u64::from(awaited.seconds)),
    }
}

/// Whether the next frame is put off, since it is an Await that is not to be answered yet.
pub(crate) fn put_off<D: Desk>(
    talk: &LockedConnection,
    notes: &mut Notes,
    node: &D,
    time: u64,
) -> bool
    requires home { D.home_of node.now ≡ talk.now.talk.home }
    ensures { PutsOff result (D.home_of node.now) (D.seen node.now) time talk.now notes.old
        notes.new }
{
    let Some(awaited) = awaited_next(talk, node.home()) else {
        notes.until = None;
        return false;
    };
    let until = until_of(awaited, time, notes.until);
    if is_due(node, awaited, until, time) {
        notes.until = None;
        return false;
    }
    notes.until = Some(until);
    true
}

/// Notes what the next frame says, where it is a message of a desk: how that desk differs, if it
/// does and none did before, and how long its log is.
pub(crate) fn listen<D: Desk>(
    talk: &LockedConnection,
    notes: &mut Notes,
    differs: &mut Option<Difference>,
    node: &D,
)
    requires noted { AreNoted notes.old.known differs.old }
    ensures differs { differs.new ≡ heard_next (D.home_of node.now) (D.seen node.now) talk.now
        notes.old differs.old }
    ensures notes { notes.new ≡ listened (D.home_of node.now) talk.now notes.old }
    ensures noted { AreNoted notes.new.known differs.new }
{
    let Some(frame) = talk.next() else {
        return;
    };
    let home = node.home();
    let may = talk.permission();
    let new = differs_by(home, may, frame, node.log(), notes.known);
    *differs = first_difference(*differs, new);
    notes.known = known_after(home, may, frame, notes.known);
}
