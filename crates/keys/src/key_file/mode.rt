//! Who may read a file.

ghost use Rattle.std.specs.Prelude.{◌≡◌, ◌↔◌, IsTrue};
ghost use Rattle.keys.specs.key_file.KeyFiles.{IsOpenToOthers};

/// The permissions of a file's group and of all others.
const OTHERS: u32 = 0o077;

/// Whether a file of this mode may be read, written or run by others than its owner.
pub fn is_open_to_others(mode: u32) -> bool
    ensures { IsTrue result ↔ IsOpenToOthers mode }
{
    mode & OTHERS != 0
}
