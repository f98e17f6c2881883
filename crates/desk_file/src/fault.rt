//! The faults of a desk's file, which are those of a store that is opened.

ghost use Rattle.std.specs.Prelude.{◌≡◌};
ghost use Rattle.desk_file.specs.Files.{loading_fault};

use store::fault::{LoadFault, OpenFault};

/// The fault of a store that was opened and then not loaded, as a fault of its opening.
pub fn fault_of_load(fault: LoadFault) -> OpenFault
    ensures { result ≡ loading_fault fault }
{
    match fault {
        LoadFault::Damaged => OpenFault::Damaged,
        LoadFault::Device => OpenFault::Device,
        LoadFault::NoMemory => OpenFault::NoMemory,
    }
}
