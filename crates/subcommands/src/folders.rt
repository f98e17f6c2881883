//! A hall's file and its keys, and a folder for each machine.

ghost use Rattle.std.specs.Prelude.{◌≡◌, OnOk};
ghost use Rattle.std.specs.Io.KnownBytes.{Keeps};
ghost use Rattle.subcommands.specs.Folders.{EndsFolders, mode_of, name_of, names_in, text_of};

use crate::telling::tell_missing;
use desk_choice::print_hall_file;
use desk_requests::{DeskFault, tell};
use keys::key_file::{MakeFault, make_key};
use lines::{RunFault, write_text};
use std::alloc::{AllocError, Global};
use std::fs::{DirBuilder, OpenOptions};
use std::io;
use std::io::{ErrorKind, Write};
use std::os::unix::fs::{DirBuilderExt, OpenOptionsExt};

/// What is printed once all is made.
const MADE: &[u8] = b"\
hall.toml, hall.key and entry.key are made, and a folder for each machine:
for-desk-1 and so on, for-table, for-board; the board needs --open-sheets at each desk
";

/// Where files are made: where the program runs, or in a folder for a machine.
#[derive(Clone, Copy)]
enum Folder {
    Here,
    /// That of the desk with this number.
    Desk(usize),
    Table,
    Board,
}

/// A file that is made.
#[derive(Clone, Copy)]
enum File {
    Hall,
    /// That with the hall's key.
    Key,
    /// That with the key for entries alone.
    EntryKey,
}

impl File {
    /// Its name.
    fn name(self) -> &'static str
        ensures { result.now ≡ name_of self }
    {
        match self {
            File::Hall => "hall.toml",
            File::Key => "hall.key",
            File::EntryKey => "entry.key",
        }
    }

    /// Who may read and write it: only its owner reads a key.
    fn mode(self) -> u32
        ensures { result ≡ mode_of self }
    {
        match self {
            File::Hall => 0o644,
            File::Key | File::EntryKey => 0o600,
        }
    }
}

impl Folder {
    /// The files that are made in it: what its machine needs, and nothing else.
    fn files(self) -> &'static [File]
        ensures { result.now ≡ names_in self }
    {
        match self {
            Folder::Here | Folder::Desk(_) => &[File::Hall, File::Key, File::EntryKey],
            Folder::Table => &[File::Hall, File::EntryKey],
            Folder::Board => &[File::Hall],
        }
    }
}

/// The files of a hall.
#[derive(Drop)]
struct HallTexts {
    /// The hall's file for those who have the hall's key.
    desk: Vec<u8>,
    /// The hall's file for those who have the entry key.
    table: Vec<u8>,
    /// The hall's file for those who have no key.
    board: Vec<u8>,
    key: Vec<u8>,
    entry_key: Vec<u8>,
}

impl HallTexts {
    /// The text of a file in a folder: the hall's file names the key that is beside it.
    fn of(&self, folder: Folder, file: File) -> &[u8]
        ensures { result.now ≡ text_of self.now folder file }
    {
        match (file, folder) {
            (File::Hall, Folder::Here | Folder::Desk(_)) => &self.desk,
            (File::Hall, Folder::Table) => &self.table,
            (File::Hall, Folder::Board) => &self.board,
            (File::Key, _) => &self.key,
            (File::EntryKey, _) => &self.entry_key,
        }
    }
}

/// Why not all was made.
#[derive(Drop)]
enum MakeStop {
    /// There are no random bytes for a key.
    NoRandom,
    /// The file or the folder at this path is there already.
    IsThere { path: String },
    /// That at this path can't be made, or a write failed.
    CannotWrite { path: String },
    /// Memory ran out.
    NoMemory,
}

impl From<AllocError> for MakeStop {
    ghost use Rattle.std.specs.Prelude.{◌≡◌};
    ghost use Rattle.subcommands.specs.declared.folders.MakeStop.TheVariants.{NoMemory};

    ghost from_gives = { λ _ why. why ≡ NoMemory };

    fn from(_: AllocError) -> MakeStop {
        MakeStop::NoMemory
    }
}

/// What a failure to make the file or the folder at a path says.
fn why_not(error: &io::Error, path: String) -> MakeStop {
    match error.kind() {
        ErrorKind::AlreadyExists => MakeStop::IsThere { path },
        ErrorKind::OutOfMemory => MakeStop::NoMemory,
        _ => MakeStop::CannotWrite { path },
    }
}

/// A new key, as its file has it.
fn key_text(rt: &HostRuntime) -> Result<Vec<u8>, MakeStop> {
    let mut text = Vec::new(rt.alloc());
    match make_key(rt, &mut text) {
        Ok(()) => Ok(text),
        Err(MakeFault::NoRandom) => Err(MakeStop::NoRandom),
        Err(_) => Err(MakeStop::NoMemory),
    }
}

/// A hall's file that names a key's file beside it.
fn naming(alloc: Global, hall: &[u8], key: &str) -> Result<Vec<u8>, AllocError> {
    let mut text = Vec::from_slice(alloc, hall)?;
    let line = format!(in alloc; "key = \"{key}\"\n")?;
    text.extend_from_slice(line.as_bytes())?;
    Ok(text)
}

/// The files of a hall whose file has this text and names no key.
fn texts_of(rt: &HostRuntime, hall: &[u8]) -> Result<HallTexts, MakeStop> {
    let alloc = rt.alloc();
    let key = key_text(rt)?;
    let entry_key = key_text(rt)?;
    Ok(HallTexts {
        desk: naming(alloc, hall, File::Key.name())?,
        table: naming(alloc, hall, File::EntryKey.name())?,
        board: Vec::from_slice(alloc, hall)?,
        key,
        entry_key,
    })
}

/// Makes a file with this text in a folder, in which there is none of its name.
fn put(rt: &HostRuntime, path: &str, file: File, text: &[u8]) -> Result<(), MakeStop> {
    let name = file.name();
    let path = format!(in rt.alloc(); "{path}{name}")?;
    let mut options = OpenOptions::new();
    options.write(true).create_new(true).mode(file.mode());
    let mut made = match options.open(rt, path.as_str()) {
        Ok(made) => made,
        Err(error) => return Err(why_not(&error, path)),
    };
    match made.write_all(text) {
        Ok(()) => Ok(()),
        Err(error) => Err(why_not(&error, path)),
    }
}

/// Makes a folder that only its owner may enter, and that is not there.
fn put_folder(rt: &HostRuntime, path: String) -> Result<String, MakeStop> {
    match DirBuilder::new().mode(0o700).create(rt, path.as_str()) {
        Ok(()) => Ok(format!(in rt.alloc(); "{path}/")?),
        Err(error) => Err(why_not(&error, path)),
    }
}

/// Makes a folder, and returns its path with a slash at the end; nothing is made where the program
/// runs.
fn path_of(rt: &HostRuntime, folder: Folder) -> Result<String, MakeStop> {
    match folder {
        Folder::Here => Ok(String::new(rt.alloc())),
        Folder::Desk(number) => put_folder(rt, format!(in rt.alloc(); "for-desk-{number}")?),
        Folder::Table => put_folder(rt, String::from_str(rt.alloc(), "for-table")?),
        Folder::Board => put_folder(rt, String::from_str(rt.alloc(), "for-board")?),
    }
}

/// Makes a folder and its files.
fn put_files(rt: &HostRuntime, texts: &HallTexts, folder: Folder) -> Result<(), MakeStop> {
    let path = path_of(rt, folder)?;
    for file in folder.files() {
        put(rt, path.as_str(), *file, texts.of(folder, *file))?;
    }
    Ok(())
}

/// Makes all that a hall with this number of desks needs.
fn put_all(rt: &HostRuntime, texts: &HallTexts, desks: usize) -> Result<(), MakeStop> {
    put_files(rt, texts, Folder::Here)?;
    for place in 0..desks {
        put_files(rt, texts, Folder::Desk(place.saturating_add(1)))?;
    }
    put_files(rt, texts, Folder::Table)?;
    put_files(rt, texts, Folder::Board)
}

/// The fault of a hall of which not all was made. What was not is said before.
fn fault_of<F: Write>(faults: &mut F, why: &MakeStop) -> DeskFault {
    match why {
        MakeStop::NoRandom => DeskFault::Run(RunFault::Read),
        MakeStop::NoMemory => DeskFault::Run(RunFault::NoMemory),
        MakeStop::IsThere { path } => {
            let _ = writeln!(
                faults,
                "{path} is there already: begin in a folder without it"
            );
            DeskFault::BadHallFile
        }
        MakeStop::CannotWrite { path } => {
            let _ = writeln!(faults, "{path} cannot be made");
            DeskFault::Run(RunFault::Write)
        }
    }
}

/// Makes all of a hall whose file has this text and names no key.
fn make_all(rt: &HostRuntime, hall: &[u8], desks: usize) -> Result<(), MakeStop> {
    let texts = texts_of(rt, hall)?;
    put_all(rt, &texts, desks)
}

/// Makes all of a hall whose desks listen at these addresses.
fn make_hall<F: Write>(
    rt: &HostRuntime,
    hall: u32,
    addresses: &[&str],
    faults: &mut F,
) -> Result<(), DeskFault>
    ensures { OnOk result (Keeps (F.contents faults.old) (F.contents faults.new)) }
{
    let mut plain = Vec::new(rt.alloc());
    match print_hall_file(rt.alloc(), hall, addresses, &mut plain, faults) {
        Ok(()) => match make_all(rt, &plain, addresses.len()) {
            Ok(()) => Ok(()),
            Err(why) => Err(fault_of(faults, &why)),
        },
        Err(fault) => Err(fault),
    }
}

/// Makes a hall's file, two keys, and a folder for each machine, where the program runs: each
/// folder has what its machine needs, and nothing else. It returns the exit status. Where one of
/// these is there already, or can't be made, a line names it; what was made before it stays.
pub fn make_folders<W: Write, F: Write>(
    rt: &HostRuntime,
    hall: u32,
    addresses: &[&str],
    writer: &mut W,
    faults: &mut F,
) -> u8
    ensures ends { EndsFolders result (W.contents writer.old) (W.contents writer.new) }
    ensures quiet { result ≡ 0 → Keeps (F.contents faults.old) (F.contents faults.new) }
{
    match make_hall(rt, hall, addresses, faults) {
        Ok(()) => match write_text(writer, MADE) {
            Ok(()) => 0,
            Err(_) => tell(faults, DeskFault::Run(RunFault::Write)),
        },
        Err(fault) => tell_missing(rt, faults, fault, false),
    }
}
