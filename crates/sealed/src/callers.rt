//! Who calls a desk, and what a desk asks of a stream.

/// Which of a desk's keys a stream is sealed under.
#[derive(Clone, Copy, Debug, PartialEq, Eq)]
pub enum Holder {
    /// The hall's key, which desks and the hall's own programs have.
    Hall,
    /// The second key.
    Entry,
}

/// Who calls a desk over a connection.
#[derive(Clone, Copy, Debug, PartialEq, Eq)]
pub enum Caller {
    /// Anybody who reached its port: the desk asks for no key.
    Anyone,
    /// Anybody who reached its port, without a key: the desk shows its sheets to all.
    Visitor,
    /// One that has a key of the desk.
    Holder { key: Holder },
}

/// The keys of a desk that asks for one.
#[derive(Clone, Copy)]
pub struct DeskKeys {
    /// The hall's key.
    pub hall: [u8; 32],
    /// A second key, where there is one: the entry key, or the one that was the hall's.
    pub entry: Option<[u8; 32]>,
    /// Whether the second key was the hall's, and is one of its keys until it is changed at each
    /// desk.
    pub old: bool,
    /// Whether streams that are not sealed are let pass.
    pub sheets: bool,
}

/// What a desk asks of a stream.
#[derive(Clone, Copy)]
pub enum Access {
    /// Nothing: it has no key.
    Open,
    /// A key.
    Locked { locks: DeskKeys },
}

/// Why a desk reads no more of a stream.
#[derive(Clone, Copy, Debug, PartialEq, Eq)]
pub enum StreamRefusal {
    /// It is not sealed, and the desk lets none such pass.
    Unsealed,
    /// Memory was refused.
    NoMemory,
}
