//! A key that is made.

ghost use Rattle.std.specs.Prelude.{◌≡◌, option_map, OnErr, OnOk};
ghost use Rattle.std.specs.Io.KnownBytes.{Keeps};
ghost use Rattle.desk.specs.Keys.{EndsKey, IsMade, IsUnmade, fault_of_making};

use desk_requests::DeskFault;
use keys::key_file::{MakeFault, make_key, make_key_at};
use lines::RunFault;
use std::io::Write;
use subcommands::tell_missing;

/// The fault of a key that is not made.
fn fault_of_making(fault: MakeFault) -> DeskFault
    ensures { result ≡ fault_of_making fault }
{
    match fault {
        MakeFault::NoRandom => DeskFault::Run(RunFault::Read),
        MakeFault::IsThere => DeskFault::KeyThere,
        MakeFault::CannotWrite => DeskFault::Run(RunFault::Write),
        MakeFault::NoMemory => DeskFault::Run(RunFault::NoMemory),
    }
}

/// Makes a key, in a file of its own, or on the writer.
fn made<W: Write>(rt: &HostRuntime, file: Option<&str>, writer: &mut W) -> Result<(), MakeFault>
    ensures ok { OnOk result (IsMade (option_map (λ f. f.now) file.entry)
        (W.contents writer.old) (W.contents writer.new)) }
    ensures err { OnErr result (IsUnmade (option_map (λ f. f.now) file.entry)
        (W.contents writer.old) (W.contents writer.new)) }
{
    match file {
        Some(file) => make_key_at(rt, file),
        None => make_key(rt, writer),
    }
}

/// Makes a key, in a file of its own as [`make_key_at`] does, or on the writer as [`make_key`]
/// does, and returns the exit status.
pub fn run_key<W: Write, F: Write>(
    rt: &HostRuntime,
    file: Option<&str>,
    explains: bool,
    writer: &mut W,
    faults: &mut F,
) -> u8
    ensures ends { EndsKey (option_map (λ f. f.now) file.entry) result
        (W.contents writer.old) (W.contents writer.new) }
    ensures quiet { result ≡ 0 → Keeps (F.contents faults.old) (F.contents faults.new) }
{
    match made(rt, file, writer) {
        Ok(()) => 0,
        Err(fault) => tell_missing(rt, faults, fault_of_making(fault), explains),
    }
}
