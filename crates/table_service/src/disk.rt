//! A file of which is known what a crash leaves.

ghost use Rattle.std.specs.Prelude.{IfOk, Option};
ghost use Rattle.table_service.specs.Disks.{Appends, Cuts, DiskOf, Syncs};
ghost use Rattle.table_service.specs.Openings.{HasBytes};

use crate::journal_file::{JournalFileFault, fault_of};
use std::alloc::Global;
use std::fs::File;
use std::io::{Read, Write};

/// The most bytes that a journal may have when it is read: those of more than 200,000 cards.
const MOST_BYTES: u64 = 67_108_864;

/// A file at whose end bytes are put.
pub trait Disk {
    /// Its bytes, how many of the first of them a crash leaves, and how many of its calls failed,
    /// where that is known.
    ghost holds: { Self → Option DiskOf };

    /// All its bytes, at most 67,108,864.
    fn read(&self, alloc: Global) -> Result<Vec<u8>, JournalFileFault>
        ensures { IfOk result (λ bytes. HasBytes bytes.items (holds self.now)) };

    /// Puts bytes after the others. False where that fails; then a front part of them may be there.
    fn append(&mut self, bytes: &[u8]) -> bool
        ensures { Appends result bytes.now (holds self.old) (holds self.new) };

    /// Makes sure that a crash leaves what it has. False where that fails.
    fn sync(&mut self) -> bool
        ensures { Syncs result (holds self.old) (holds self.new) };

    /// Removes what follows this many bytes. False where that fails; then nothing is removed.
    fn cut(&mut self, length: u64) -> bool
        ensures { Cuts result length (holds self.old) (holds self.new) };
}

/// A file of the system.
#[derive(Drop)]
pub struct SystemFile {
    pub(crate) file: File,
}

impl Disk for SystemFile {
    ghost use Rattle.std.specs.Prelude.{None};

    // No contract can say what is in a file of the system.
    ghost holds = { λ _. None };

    fn read(&self, alloc: Global) -> Result<Vec<u8>, JournalFileFault> {
        let mut bytes = Vec::new(alloc);
        let file = &self.file;
        let mut reader = file.take(MOST_BYTES + 1);
        match reader.read_to_end(&mut bytes) {
            Ok(_) => {}
            Err(error) => return Err(fault_of(&error)),
        }
        if bytes.len() as u64 > MOST_BYTES {
            return Err(JournalFileFault::TooLong);
        }
        Ok(bytes)
    }

    fn append(&mut self, bytes: &[u8]) -> bool {
        self.file.write_all(bytes).is_ok()
    }

    fn sync(&mut self) -> bool {
        self.file.sync_all().is_ok()
    }

    fn cut(&mut self, length: u64) -> bool {
        self.file.set_len(length).is_ok()
    }
}
