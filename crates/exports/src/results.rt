//! The results of a log printed as JSON.

ghost use Rattle.std.specs.Prelude.{◌≡◌, IfErr, IfOk, OnOk};
ghost use Rattle.exports.specs.Results.{FailsResults, IsJsonLine, PrintsResults};
ghost use Rattle.exports.specs.declared.fault.ResultsFault.TheVariants as fault;

use crate::fault::ResultsFault;
use crate::logs::read_log;
use lines::write_text;
use std::alloc::Global;
use std::io::{Read, Write};
use wcif_results::NamedMeet;
use wcif_results::results_json::results_text;

/// The JSON of the results of a meet, and a line feed.
fn results_line(alloc: Global, meet: &NamedMeet) -> Result<Vec<u8>, ResultsFault>
    ensures ok { IfOk result (λ line. IsJsonLine meet.now.accepted line.items) }
    ensures err { IfErr result (λ f. f ≡ fault.NoMemory) }
{
    let mut text = results_text(alloc, meet.meet())?;
    text.extend_from_slice(b"\n")?;
    Ok(text)
}

/// Reads a desk's log, and prints the results of each round that it opens as one JSON object,
/// without white space, and a line feed: [`results_text`] says which.
///
/// # Errors
///
/// - `Log` where the log is not read as a meet: [`read_log`] says when.
/// - `Write` where a write fails: a front part of the text is written.
/// - `NoMemory` where memory runs out.
///
/// Nothing is written but where a write fails.
pub fn print_results<L: Read, W: Write>(
    alloc: Global,
    log: &mut L,
    writer: &mut W,
) -> Result<(), ResultsFault>
    ensures ok { OnOk result (PrintsResults (L.remaining log.old)
        (W.contents writer.old) (W.contents writer.new)) }
    ensures err { IfErr result (λ f. FailsResults f (L.remaining log.old)
        (W.contents writer.old) (W.contents writer.new)) }
{
    let meet = match read_log(alloc, log) {
        Ok(meet) => meet,
        Err(fault) => return Err(ResultsFault::Log(fault)),
    };
    let text = results_line(alloc, &meet)?;
    match write_text(writer, &text) {
        Ok(()) => Ok(()),
        Err(_) => Err(ResultsFault::Write),
    }
}
