//! What of a competition's file is seen at the paths of the board.

ghost use Rattle.std.specs.Prelude.{◌≡◌};
ghost use Rattle.file_views.specs.Paths.{psych_at, records_at, today_at, view_at};

use card_forms::round_of;
use formats::Event;
use texts::{RoundId, number_between};

/// The greatest number of a competitor.
const LAST_NUMBER: u64 = 9999;

/// What is seen of a competition's file.
#[derive(Clone, Copy, Debug, PartialEq, Eq)]
pub enum FileView {
    /// `/psych/333`: who is registered for an event, in order of their bests.
    Psych(Event),
    /// `/schedule`: what is where and when.
    Schedule,
    /// `/today/17`: what a competitor does, and when.
    Today(u16),
    /// `/records/333-1`: the results of a round beside the bests of the file.
    Records(RoundId),
}

/// `/psych/333`.
fn psych_at(path: &[u8]) -> Option<FileView>
    ensures { result ≡ psych_at path.now }
{
    let name = path.strip_prefix(b"/psych/".as_slice())?;
    Some(FileView::Psych(Event::from_name(name)?))
}

/// `/today/17`.
fn today_at(path: &[u8]) -> Option<FileView>
    ensures { result ≡ today_at path.now }
{
    let number = path.strip_prefix(b"/today/".as_slice())?;
    Some(FileView::Today(number_between(1, LAST_NUMBER, number)? as u16))
}

/// `/records/333-1`.
fn records_at(path: &[u8]) -> Option<FileView>
    ensures { result ≡ records_at path.now }
{
    let name = path.strip_prefix(b"/records/".as_slice())?;
    Some(FileView::Records(round_of(name)?))
}

impl FileView {
    /// What is seen at a path; none where the path is none of the file's. A competitor's number is
    /// 1 to 9999 and a round 1 to 4, both in decimal without a sign or a zero in front.
    #[tactic(auto, unfolding(crate::specs::Paths::view_at))]
    pub fn from_path(path: &[u8]) -> Option<FileView>
        ensures { result ≡ view_at path.now }
    {
        if path == b"/schedule".as_slice() {
            return Some(FileView::Schedule);
        }
        if let Some(view) = psych_at(path) {
            return Some(view);
        }
        if let Some(view) = today_at(path) {
            return Some(view);
        }
        records_at(path)
    }
}
