//! The competition's file at a path, which may be replaced by a newer one while a program runs.
#![tactic(auto)]

ghost use Rattle.std.specs.Prelude.{◌≡◌, ℕ, Option, IfSome, option_map, true};
ghost use Rattle.competition_file.specs.Opening.{IsReadOf};
ghost use Rattle.renewed_file.specs.Asking.{asked, first_watch, is_changed, is_other, noted};

use competition_file::{RenewFault, file_bytes};
use std::alloc::Global;
use std::fmt::Display;
use std::fs;
use std::fs::Files;
use std::io::Write;
use std::marker::Model;
use std::time::UNIX_EPOCH;

/// How often the path is asked for, in milliseconds.
const PAUSE: u64 = 5_000;

/// When the file at a path was changed last, in nanoseconds since 1970; none where the system does
/// not say.
fn change_of<R: Files>(runtime: &R, path: &str) -> Option<u128> {
    let Ok(metadata) = fs::metadata(runtime, path) else {
        return None;
    };
    let Ok(changed) = metadata.modified() else {
        return None;
    };
    match changed.duration_since(UNIX_EPOCH) {
        Ok(since) => Some(since.as_nanos()),
        Err(_) => None,
    }
}

/// Whether the system says a time, and another than before.
fn is_other(said: Option<u128>, before: Option<u128>) -> bool
    ensures { result ≡ is_other said before }
{
    match (said, before) {
        (Some(said), Some(before)) => said != before,
        (said, _) => said.is_some(),
    }
}

/// The competition's file at a path, and when it was changed last. A contract sees what is kept of
/// the system's answers.
#[derive(Drop)]
pub struct RenewedFile<'a> {
    path: &'a str,
    changed: Option<u128>,
    next: u64,
}

impl<'a> Model for RenewedFile<'a> {
    ghost use Rattle.renewed_file.specs.Asking.{Watch};

    ghost Value = { Watch };

    ghost view = { λ file. record { changed = file.changed; next = file.next } };
}

impl<'a> RenewedFile<'a> {
    /// The file at a path, where there is one, as it is now: it is to be read after this call.
    pub fn at<R: Files>(runtime: &R, path: Option<&'a str>) -> Option<RenewedFile<'a>>
        ensures { (said : Option ℕ) × (result ≡ option_map (λ _. first_watch said) path.entry) }
    {
        let path = path?;
        Some(RenewedFile {
            path,
            changed: change_of(runtime, path),
            next: 0,
        })
    }

    /// Keeps what the system said at a time, and returns whether the file was changed.
    fn note(&mut self, now: u64, said: Option<u128>) -> bool
        ensures other { result ≡ is_other said self.old.changed }
        ensures kept { self.new ≡ noted said self.old now }
    {
        self.next = now.saturating_add(PAUSE);
        let other = is_other(said, self.changed);
        if other {
            self.changed = said;
        }
        other
    }

    /// Whether the file was changed since this was asked last. The system is asked every five
    /// seconds at most; the time is in milliseconds.
    fn is_changed<R: Files>(&mut self, runtime: &R, now: u64) -> bool
        ensures { (said : Option ℕ) × (result ≡ is_changed said self.old now)
            × (self.new ≡ asked said self.old now) }
    {
        if now < self.next {
            return false;
        }
        let said = change_of(runtime, self.path);
        self.note(now, said)
    }

    /// Says that the file before is kept, and why.
    fn tell<T: Display, F: Write>(&self, program: &str, why: &T, faults: &mut F) {
        let path = self.path;
        let _ = writeln!(faults, "{program}: {path}: {why}: the file before is kept");
    }

    /// The bytes of the file, where it was changed since it was read last. Where it can't be read a
    /// line says so.
    pub fn newer<R: Files, F: Write>(
        &mut self,
        runtime: &R,
        alloc: Global,
        now: u64,
        program: &str,
        faults: &mut F,
    ) -> Option<Vec<u8>>
        ensures asked { (said : Option ℕ) × (self.new ≡ asked said self.old now)
            × IfSome result (λ _. is_changed said self.old now ≡ true) }
        ensures read { IfSome result (λ bytes. (file : R.File) × IsReadOf (R.File.remaining file)
            bytes.items) }
    {
        if !self.is_changed(runtime, now) {
            return None;
        }
        match file_bytes(runtime, alloc, self.path) {
            Ok(bytes) => Some(bytes),
            Err(fault) => {
                self.tell(program, &fault, faults);
                None
            }
        }
    }

    /// Says why the newer file does not take the place of the one before.
    pub fn tell_fault<F: Write>(&self, program: &str, fault: &RenewFault, faults: &mut F) {
        self.tell(program, fault, faults);
    }
}
