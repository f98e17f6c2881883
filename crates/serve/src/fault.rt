//! Why a desk does not serve, or ends early.

ghost use Rattle.std.specs.Prelude.{◌≡◌};
ghost use Rattle.serve.specs.Printing.{IsOfStore, opening_fault};

use keys::key_file::KeyFileFault;
use store::fault::OpenFault;

/// Why a desk does not serve, or ends early.
#[derive(Clone, Copy, Debug, PartialEq, Eq)]
pub enum ServeFault {
    /// A hall has three desks or five.
    BadCount,
    /// A desk's number is 1 to the number of desks.
    BadDesk,
    /// Two desks of a hall's file have one address.
    SameAddresses,
    /// A second key, or open sheets, are asked for without a hall's key.
    NoHallKey,
    /// The file of the hall's key, or that of the second key, gives no key.
    KeyFile(KeyFileFault),
    /// The hall's key and the second key are one.
    SameKeys,
    /// A store has to be there, and the file is not there or empty.
    NoStore,
    /// A store has to be made, and one is there.
    StoreThere,
    /// No address can be found of the desk of this number, from 1, of a hall's file.
    UnknownHost { desk: u8 },
    /// The file is the store of another desk or hall, or of a hall of another number of desks.
    WrongDesk,
    /// What the file holds is no desk's store, whole and in its ranges. Where a store has to be
    /// there, that is also a database without a table, as a file whose log was lost.
    Damaged,
    /// The file could not be opened or read, or another program has it open.
    Device,
    /// The address could not be had, or a client could not be accepted.
    CannotListen,
    /// The store refused a save while the desk served.
    Down,
    /// A line could not be written.
    Write,
    /// Memory ran out.
    NoMemory,
}

/// The fault of a file that was not opened as a desk's store, or not loaded.
pub fn fault_of_open(fault: OpenFault) -> ServeFault
    ensures same { result ≡ opening_fault fault }
    ensures of_store { IsOfStore result }
{
    match fault {
        OpenFault::WrongDesk => ServeFault::WrongDesk,
        OpenFault::Damaged => ServeFault::Damaged,
        OpenFault::Device => ServeFault::Device,
        OpenFault::NoMemory => ServeFault::NoMemory,
    }
}
