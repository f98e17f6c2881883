//! What the table keeps of an entrant, so that no call has to work it out again.

ghost use Rattle.std.specs.Prelude.{◌≡◌, All};
ghost use Rattle.attempts.specs.Attempts.{IsInRangeOf};
ghost use Rattle.formats.specs.Results.{IsFormatOf};
ghost use Rattle.rounds.specs.model.KeptEntrants.{kept_of};

use crate::rules::Rules;
use attempts::Value;
use formats::{Averaged, RankKey, average, best, key};

/// What an entrant's values make, and its place among the entrants.
#[derive(Clone, Copy, Debug, PartialEq, Eq)]
pub struct EntrantResult {
    /// The least number; without one DNF where a DNF is there, else DNS.
    pub best: Value,
    /// The average of an ao5 or the mean of an mo3; Missing in the best-of formats, and until all
    /// attempts are done.
    pub average: Averaged,
    /// What the entrant is ranked by.
    pub key: RankKey,
    /// 1 plus the number of entrants who are better.
    pub place: u16,
}

impl EntrantResult {
    /// What these values make, with this place.
    pub(crate) fn of(rules: Rules, values: &[Value], place: u16) -> Self
        requires format { IsFormatOf rules.unit rules.format }
        requires in_range { All (IsInRangeOf rules.unit) values.now }
        ensures { result ≡ kept_of rules values.now place }
    {
        EntrantResult {
            best: best(values),
            average: average(rules.format, rules.unit, values),
            key: key(rules.format, rules.unit, values),
            place,
        }
    }
}
