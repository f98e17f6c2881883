//! What nobody gave: ids, and the random bytes of a connection.

ghost use Rattle.std.specs.Prelude.{IfErr, IfOk, ◌≡◌};
ghost use Rattle.desk_requests.specs.Entering.{HasRoom};
ghost use Rattle.desk_requests.specs.declared.fault.DeskFault.TheVariants as desk_fault;
ghost use Rattle.lines.specs.declared.fault.RunFault.TheVariants as run_fault;

use crate::fault::DeskFault;
use lines::RunFault;
use std::io;
use std::random::RandomSource;

/// How many ids there are: 1 to 2^63 - 1.
const IDS: u64 = 9_223_372_036_854_775_807;

/// Draws the first of this many ids in a row: 63 random bits, not 0, and below the greatest id by
/// as many as are wanted.
///
/// # Errors
///
/// `Read` where the source of random bytes fails.
pub(crate) fn drawn_id<T: RandomSource>(source: &T, count: u32) -> Result<u64, DeskFault>
    ensures drawn { IfOk result (HasRoom count) }
    ensures err { IfErr result (λ f. f ≡ desk_fault.Run run_fault.Read) }
{
    let mut bytes = [0; 8];
    if source.fill_bytes(&mut bytes).is_err() {
        return Err(DeskFault::Run(RunFault::Read));
    }
    Ok(u64::from_le_bytes(bytes) % (IDS - u64::from(count)) + 1)
}

/// Draws the random bytes of one connection.
pub(crate) fn drawn_bytes<T: RandomSource>(source: &T) -> io::Result<[u8; 16]> {
    let mut bytes = [0; 16];
    source.fill_bytes(&mut bytes)?;
    Ok(bytes)
}
