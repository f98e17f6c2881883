//! Who advances from a round.

/// The most entrants of a round, and so the most who advance from one.
pub const MOST_ENTRANTS: u16 = 999;

/// Who advances from a round to the next one.
#[derive(Clone, Copy, Debug, PartialEq, Eq)]
pub enum Advance {
    /// Nobody: the round is the event's last.
    Final,
    /// This many competitors, 1 to 999.
    Top(u16),
    /// This many in a hundred of the round's competitors, 1 to 75.
    Percent(u8),
}
