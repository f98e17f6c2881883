//! What is known of the desks.

ghost use Rattle.std.specs.Prelude.{◌≡◌};
ghost use Rattle.table_views.specs.Desks.{holding, holds, is_everywhere, too_few};

use sealed::ends::CallTrouble;
use wire::{ClientRefusal, Difference};

/// What is known of the desks of a hall.
#[derive(Drop)]
pub struct HallStatus {
    /// The desk that is followed, 1 to 5.
    pub followed: u8,
    /// The milliseconds since it was asked what it has not answered yet, where it does not answer.
    pub silent: Option<u64>,
    /// The milliseconds for which what was entered here has waited, where something waits.
    pub undecided: Option<u64>,
    /// The id of the item that a desk refused to take when it was submitted last, and why.
    pub refused: Option<(u64, ClientRefusal)>,
    /// How many entries the log of each desk has, by what it said last; one for each desk of the
    /// hall.
    pub lengths: Vec<Option<u32>>,
    /// The numbers of the desks, in order, that do not say how they are: that are not reached,
    /// refuse, or said so last a second ago or longer.
    pub away: Vec<u8>,
    /// What is wrong with the table's key at the desk that was called last, where it is known.
    pub trouble: Option<CallTrouble>,
    /// The first desk that says that it is of another hall, 1 to 5.
    pub of_other_hall: Option<u8>,
    /// How a desk differs from others, if one has said so.
    pub differs: Option<Difference>,
}

/// Whether a log of this length has the entries before a position.
fn holds(length: Option<u32>, position: u64) -> bool
    ensures { result ≡ holds position length }
{
    match length {
        Some(length) => position <= length as u64,
        None => false,
    }
}

impl HallStatus {
    /// How many desks are known to have the first `position` entries in their logs.
    pub fn holding(&self, position: u64) -> usize
        ensures { result ≡ holding self.now position }
    {
        self.lengths
            .iter()
            .filter(|length| holds(**length, position))
            .count()
    }

    /// Whether all desks of the hall are known to have the first `position` entries in their logs.
    pub fn is_everywhere(&self, position: u64) -> bool
        ensures { result ≡ is_everywhere self.now position }
    {
        let desks = self.lengths.len();
        desks > 0 && self.holding(position) == desks
    }

    /// Whether no majority of the desks answers.
    pub fn too_few(&self) -> bool
        ensures { result ≡ too_few self.now }
    {
        self.away.len() > self.lengths.len() / 2
    }
}
