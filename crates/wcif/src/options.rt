//! How a competition is imported.

/// What becomes of a time limit that is for several attempts together.
#[derive(Clone, Copy, Debug, PartialEq, Eq)]
pub enum CumulativeLimits {
    /// It is a fault: a desk has a limit for each attempt.
    Refuse,
    /// It is the limit of each attempt.
    AsSingle,
}

/// What becomes of a name that several accepted persons have.
#[derive(Clone, Copy, Debug, PartialEq, Eq)]
pub enum SameNames {
    /// It is a fault: a desk has each name once.
    Refuse,
    /// Each of them gets his WCA ID behind his name, after a space, where he has one.
    WithId,
}

/// The edition of the commands with which an import begins.
#[derive(Clone, Copy, Debug, PartialEq, Eq)]
pub enum Edition {
    /// `EDITION 3`, for desks of a program that does not know edition 4.
    Three,
    /// `EDITION 4`.
    Four,
}

/// How a competition is imported.
#[derive(Clone, Copy, Debug, PartialEq, Eq)]
pub struct Options {
    pub edition: Edition,
    pub limits: CumulativeLimits,
    pub names: SameNames,
}
