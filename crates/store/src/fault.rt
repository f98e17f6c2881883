//! Why an opening, a load or a save is refused.

/// Why a store was not opened.
///
/// The tables and the row of the desk are looked at first: Damaged. A row that is whole and in its
/// ranges may be another desk's: WrongDesk, whatever the log is. Then the log is looked at: Damaged
/// again. Device and NoMemory come where they happen.
#[derive(Clone, Copy, PartialEq, Eq, Debug)]
pub enum OpenFault {
    /// The store belongs to another desk or hall, or to a hall of another number of desks.
    WrongDesk,
    /// What the file holds is not a desk's store, whole and in its ranges.
    Damaged,
    /// The device refused.
    Device,
    /// Memory was refused.
    NoMemory,
}

/// Why a load was refused.
#[derive(Clone, Copy, PartialEq, Eq, Debug)]
pub enum LoadFault {
    /// What the store holds is not a desk's state in its ranges, or the count of failures is at its
    /// end.
    Damaged,
    /// The device refused, in this call or in an earlier one.
    Device,
    /// Memory was refused, and the store is as it was.
    NoMemory,
}

/// Why a save was refused.
#[derive(Clone, Copy, PartialEq, Eq, Debug)]
pub enum SaveFault {
    /// The device refused. The store holds the state before the change or the one after it, and
    /// every save from now on is Down until the store is opened again.
    Device,
    /// Memory was refused, and the store is as it was.
    NoMemory,
    /// An earlier save or load was refused by the device, or the count of failures is at its end.
    Down,
}
