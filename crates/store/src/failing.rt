//! Which save of a keeper in memory fails.

/// Which save of a keeper in memory fails, counted from 1, and whether its change is kept all the
/// same.
#[derive(Clone, Copy, PartialEq, Eq, Debug)]
pub struct Failing {
    pub saves: u64,
    pub kept: bool,
}
