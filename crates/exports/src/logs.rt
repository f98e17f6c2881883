//! A desk's log, read as a meet.

ghost use Rattle.std.specs.Prelude.{◌≡◌, IfErr, IfOk, OnOk};
ghost use Rattle.commands.specs.History.{after, nothing};
ghost use Rattle.exports.specs.Logs.{IsMeetOf, IsNoMeet, LogFails, ReadsMeet, is_whole, opens_any};
ghost use Rattle.exports.specs.model.Applying.{AppliesAll, AppliesNotAll};
ghost use Rattle.exports.specs.declared.logs.LogFault.TheVariants as log_fault;

use crate::imports::{InputFault, read_bytes};
use commands::Meet;
use formats::Event;
use lines::{LineReader, RunFault};
use std::alloc::{AllocError, Global};
use std::io::Read;
use wcif_results::NamedMeet;

/// Why a log is not read as a meet.
#[derive(Clone, Copy, Debug, PartialEq, Eq)]
pub enum LogFault {
    /// The log has more than 65,536 lines, more than 10,000 bytes in a line, or more than
    /// 39,387,136 bytes.
    TooLong,
    /// The last line of the log has no line feed.
    CutOff,
    /// A read failed.
    Read,
    /// Memory ran out.
    NoMemory,
}

impl From<AllocError> for LogFault {
    ghost from_gives = { λ _ fault. fault ≡ log_fault.NoMemory };

    fn from(_: AllocError) -> LogFault {
        LogFault::NoMemory
    }
}

impl From<RunFault> for LogFault {
    ghost use Rattle.exports.specs.Logs.{fault_of_run};

    ghost from_gives = { λ run fault. fault ≡ fault_of_run run };

    fn from(fault: RunFault) -> LogFault {
        match fault {
            RunFault::InputTooLong => LogFault::TooLong,
            RunFault::NoMemory => LogFault::NoMemory,
            RunFault::Read | RunFault::Write | RunFault::BadCount | RunFault::BadLine { line: _ } =>
                LogFault::Read,
        }
    }
}

impl From<InputFault> for LogFault {
    ghost use Rattle.exports.specs.Logs.{fault_of_read};

    ghost from_gives = { λ read fault. fault ≡ fault_of_read read };

    fn from(fault: InputFault) -> LogFault {
        match fault {
            InputFault::Read => LogFault::Read,
            InputFault::NoMemory => LogFault::NoMemory,
        }
    }
}

/// Whether a line feed is the last byte, where there is one.
fn is_whole(bytes: &[u8]) -> bool
    ensures { result ≡ is_whole bytes.now }
{
    match bytes.last() {
        Some(byte) => *byte == b'\n',
        None => true,
    }
}

/// Applies the command of a line, whose number is its id.
fn apply_line(meet: &mut NamedMeet, number: u32, line: &[u8]) -> Result<(), LogFault>
    ensures after { OnOk result (meet.new ≡ after meet.old number line.now) }
    ensures err { IfErr result (λ fault. fault ≡ log_fault.NoMemory) }
{
    meet.apply(u64::from(number), line)?;
    Ok(())
}

/// Applies the commands of all lines.
fn apply_lines<R: Read>(alloc: Global, meet: &mut NamedMeet, reader: &mut R) -> Result<(), LogFault>
    requires { meet.old ≡ nothing }
    ensures ok { OnOk result (AppliesAll meet.new (R.remaining reader.old)) }
    ensures err { IfErr result (AppliesNotAll (R.remaining reader.old)) }
{
    let mut lines = LineReader::new();
    let mut line = Vec::new(alloc);
    loop {
        match lines.read_line(reader, &mut line) {
            Ok(true) => apply_line(meet, lines.count(), &line)?,
            Ok(false) => return Ok(()),
            Err(fault) => return Err(LogFault::from(fault)),
        }
    }
}

/// The meet of the lines of a log, each a command whose id is the line's number, from 1.
fn lines_meet(alloc: Global, bytes: &[u8]) -> Result<NamedMeet, LogFault>
    ensures ok { IfOk result (λ meet. IsMeetOf bytes.now meet) }
    ensures err { IfErr result (IsNoMeet bytes.now) }
{
    let mut meet = NamedMeet::new(alloc)?;
    let mut rest = bytes;
    apply_lines(alloc, &mut meet, &mut rest)?;
    Ok(meet)
}

/// Reads a log, as `desk log` prints it, and gives the meet of its lines: line `n`, counted from 1,
/// is the command with the id `n`, as `desk replay` takes it. A refused line changes nothing.
///
/// # Errors
///
/// - `TooLong` where the log is above the limits of what is replayed.
/// - `CutOff` where its last line has no line feed, which `desk log` ends each line with.
/// - `Read` where a read fails.
/// - `NoMemory` where memory runs out.
pub fn read_log<R: Read + Drop>(alloc: Global, reader: R) -> Result<NamedMeet, LogFault>
    ensures ok { IfOk result (ReadsMeet (R.remaining reader)) }
    ensures err { IfErr result (LogFails (R.remaining reader)) }
{
    let bytes = read_bytes(alloc, reader)?;
    let meet = lines_meet(alloc, &bytes)?;
    if !is_whole(&bytes) {
        return Err(LogFault::CutOff);
    }
    Ok(meet)
}

/// Whether a first round was opened.
pub fn opens_any(meet: &Meet) -> bool
    ensures { result ≡ opens_any meet.now.accepted }
{
    Event::ALL
        .iter()
        .any(|event| meet.round(*event, 1).is_some())
}
