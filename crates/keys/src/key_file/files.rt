//! Where keys' files are, and where new keys come from.

ghost use Rattle.std.specs.Prelude.{ℕ, List, Option, IfOk, IfSome};
ghost use Rattle.keys.specs.key_file.KeyFiles.{HasBytes, IsAbout, IsDrawn, KeyFileOf};

use std::fs::{File, Metadata, OpenFile};
use std::io::Read;
use std::random::RandomSource;
use std::rt::Files;
use std::{fs, io};

/// Files, of which it may be known what is in them.
pub trait KeyFiles {
    type Opened: Read + Drop;

    /// The file at a path, where that is known.
    ghost file_at: { Self → List ℕ → Option KeyFileOf };

    /// What is known of the file at a path beside its bytes.
    fn look(&self, path: &str) -> io::Result<Metadata>
        ensures { IfOk result (IsAbout (file_at self.now path.now)) };

    /// Opens the file at a path, and tells what is known of it. Nothing is read.
    fn open_to_read(&self, path: &str) -> io::Result<(Self::Opened, Metadata)>
        ensures about { IfOk result (λ f. IsAbout (file_at self.now path.now) f.1) }
        ensures bytes { IfOk result (λ f.
            HasBytes (file_at self.now path.now) (Self.Opened.remaining f.0)) };
}

impl<R: Files> KeyFiles for R {
    ghost use Rattle.std.specs.Prelude.{None};

    type Opened = R::File;

    // What is in a file of the system no contract can say.
    ghost file_at = { λ _ _. None };

    fn look(&self, path: &str) -> io::Result<Metadata> {
        fs::metadata(self, path)
    }

    fn open_to_read(&self, path: &str) -> io::Result<(R::File, Metadata)> {
        let file = File::open(self, path)?;
        let metadata = file.metadata()?;
        Ok((file, metadata))
    }
}

/// A source of keys, of which it may be known what it gives.
pub trait KeySource {
    /// The key that it gives, where that is known.
    ghost gives: { Self → Option (List ℕ) };

    /// A key that was drawn, or none where the source fails.
    fn draw_key(&self) -> Option<[u8; 32]>
        ensures { IfSome result (IsDrawn (gives self.now)) };
}

impl<T: RandomSource> KeySource for T {
    ghost use Rattle.std.specs.Prelude.{None};

    // What the system draws no contract can say.
    ghost gives = { λ _. None };

    fn draw_key(&self) -> Option<[u8; 32]> {
        let mut key = [0; 32];
        if self.fill_bytes(&mut key).is_err() {
            return None;
        }
        Some(key)
    }
}
