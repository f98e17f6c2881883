//! What is wrong with the keys of the two sides of a connection.

/// What is wrong with the keys of the two sides of a connection.
#[derive(Clone, Copy, Debug, PartialEq, Eq)]
pub enum CallTrouble {
    /// The caller has a key, and the desk asks for none.
    NoKey,
    /// The desk has another key, or somebody changed what it sent.
    OtherKey,
    /// The desk asks for a key, and the caller has none.
    HasKey,
}
