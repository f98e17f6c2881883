//! A competition's file with the results of a meet.

ghost use Rattle.std.specs.Prelude.{◌≡◌, ◌≤◌, map, IfOk, IfErr};
ghost use Rattle.json.specs.{Tree.HasNumbers, Tree.depth, Value.value_view};
ghost use Rattle.wcif.specs.Files.{most_levels};
ghost use Rattle.wcif_results.specs.Files.{AreFindings, ExportFails, Exports, HasNotes, Holds};
ghost use Rattle.wcif_results.specs.Files.{IsNotJson, IsTextOf, ReadFails};
ghost use Rattle.wcif_results.specs.{Filled.filled_file, model.Opened.round_view};

use crate::fault::MeetFault;
use crate::faults::faults_of;
use crate::filling::write_file;
use crate::meet_rounds::{MeetRound, meet_rounds};
use crate::named_meet::NamedMeet;
use crate::nesting::nests_within;
use crate::note::ExportNote;
use crate::notes::notes_of;
use attempts::NoMemory;
use json::{Error, Scratch, Value, Writer};
use std::alloc::{AllocError, Global};
use wcif::without_mark;

/// The most bytes of a file: 64 MiB.
const MOST_BYTES: usize = 67_108_864;

/// How deep lists and objects may nest in a file.
const MOST_LEVELS: u32 = 64;

/// A competition's file with the results of a meet, and what is said of it.
#[derive(Drop)]
pub struct ExportedFile {
    pub text: Vec<u8>,
    pub notes: Vec<ExportNote>,
}

/// Why nothing is exported.
#[derive(Drop)]
pub enum ExportFault {
    /// The file has more than 64 MiB.
    TooLong,
    /// The file is no JSON in UTF-8, or nests more than 128 deep. The line and the column are
    /// counted from 1, in bytes; they are 0 where no place is known.
    NotJson { line: usize, column: usize },
    /// Lists and objects nest more than 64 deep.
    TooDeep,
    /// The file has no place for this of the meet: one fault at least.
    Refused(Vec<MeetFault>),
    /// Memory ran out.
    NoMemory,
}

/// What an export would be refused for, by rounds, and what would be said of it.
#[derive(Drop)]
pub struct Findings {
    pub faults: Vec<MeetFault>,
    pub notes: Vec<ExportNote>,
}

impl From<AllocError> for ExportFault {
    ghost use Rattle.wcif_results.specs.declared.exporting.ExportFault.TheVariants as export_fault;

    ghost from_gives = { λ _ fault. fault ≡ export_fault.NoMemory };

    fn from(_: AllocError) -> ExportFault {
        ExportFault::NoMemory
    }
}

/// That a text is no JSON, with the place where `serde_json` stops in it.
fn not_json(alloc: Global, text: &[u8]) -> ExportFault
    ensures { IsNotJson result }
{
    match serde_json::Value::from_slice(alloc, text) {
        Ok(_) => ExportFault::NotJson { line: 0, column: 0 },
        Err(error) => ExportFault::NotJson {
            line: error.line(),
            column: error.column(),
        },
    }
}

/// The value of a file within the limits.
fn read_file<'a>(
    alloc: Global,
    bytes: &'a [u8],
    scratch: &'a mut Scratch,
) -> Result<Value<'a>, ExportFault>
    ensures ok { IfOk result (λ file. Holds bytes.now (value_view file)) }
    ensures numbers { IfOk result (λ file. HasNumbers (value_view file)) }
    ensures err { IfErr result (ReadFails bytes.now) }
{
    if bytes.len() > MOST_BYTES {
        return Err(ExportFault::TooLong);
    }
    let file = match Value::from_slice(alloc, without_mark(bytes), scratch) {
        Ok(file) => file,
        Err(Error::OutOfMemory) => return Err(ExportFault::NoMemory),
        Err(_) => return Err(not_json(alloc, without_mark(bytes))),
    };
    if !nests_within(&file, MOST_LEVELS) {
        return Err(ExportFault::TooDeep);
    }
    Ok(file)
}

/// The text of a file with the results of these rounds.
fn text_of(alloc: Global, rounds: &[MeetRound<'_>], file: &Value<'_>) -> Result<Vec<u8>, NoMemory>
    requires numbers { HasNumbers (value_view file.now) }
    requires shallow { depth (value_view file.now) ≤ most_levels }
    ensures { IfOk result (λ text. IsTextOf text.items
        (filled_file (map round_view rounds.now) (value_view file.now))) }
{
    let mut out = Writer::new(Vec::new(alloc));
    write_file(&mut out, rounds, file)?;
    Ok(out.into_inner())
}

/// A competition's file in the WCA Competition Interchange Format with the results of a meet: the
/// `results` of each round that the meet has are those of the meet.
///
/// Every other member is as it was and where it was: numbers are spelled as they were, texts have
/// their characters, and members that come twice stay. White space goes, and the shortest escapes
/// are in texts. A byte-order mark at the front is dropped. A round that the file lacks is left out
/// where it has no result.
///
/// # Errors
///
/// - `TooLong` where the file has more than 64 MiB.
/// - `NotJson` where it is no JSON in UTF-8.
/// - `TooDeep` where lists and objects nest more than 64 deep.
/// - `Refused` where the file lacks a round that has a result, an entrant's number is no
///   `registrantId` of its accepted persons, or that person's name is none that the number was
///   given: every fault, by rounds in the order of the events' numbers.
/// - `NoMemory` where memory ran out.
#[tactic(auto, using(crate::proofs::Unread::unread_fails))]
pub fn export(alloc: Global, bytes: &[u8], meet: &NamedMeet) -> Result<ExportedFile, ExportFault>
    ensures ok { IfOk result (λ made. Exports meet.now.accepted bytes.now made.text.items) }
    ensures told { IfOk result (λ made. HasNotes meet.now.accepted bytes.now made.notes.items) }
    ensures err { IfErr result (ExportFails meet.now.accepted bytes.now) }
{
    let mut scratch = Scratch::new(alloc);
    let file = read_file(alloc, bytes, &mut scratch)?;
    let rounds = meet_rounds(alloc, meet.meet())?;
    let faults = faults_of(alloc, meet, &rounds, &file)?;
    if !faults.is_empty() {
        return Err(ExportFault::Refused(faults));
    }
    Ok(ExportedFile {
        text: text_of(alloc, &rounds, &file)?,
        notes: notes_of(alloc, &rounds, &file)?,
    })
}

/// What [`export`] of a meet over a competition's file would be refused for, and what it would say
/// of the file, were it not refused. Nothing where the file is not read, as `export` says.
///
/// # Errors
///
/// Where memory runs out.
#[tactic(auto, using(crate::proofs::Unread::holds_nothing))]
pub fn findings_of(
    alloc: Global,
    bytes: &[u8],
    meet: &NamedMeet,
) -> Result<Option<Findings>, NoMemory>
    ensures { IfOk result (AreFindings meet.now.accepted bytes.now) }
{
    let mut scratch = Scratch::new(alloc);
    let file = match read_file(alloc, bytes, &mut scratch) {
        Ok(file) => file,
        Err(ExportFault::NoMemory) => return Err(AllocError),
        Err(_) => return Ok(None),
    };
    let rounds = meet_rounds(alloc, meet.meet())?;
    Ok(Some(Findings {
        faults: faults_of(alloc, meet, &rounds, &file)?,
        notes: notes_of(alloc, &rounds, &file)?,
    }))
}
