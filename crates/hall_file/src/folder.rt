//! Where the key's file is that a hall's file names.

ghost use Rattle.std.specs.Prelude.{◌≡◌, IfOk, string_bytes};
ghost use Rattle.std.specs.Path.{path_join};
ghost use Rattle.hall_file.specs.Halls.{folder_of};

use std::alloc::{AllocError, Global};
use std::path::Path;

/// The path of the key's file that the hall's file at a path names by `key`: `key` itself where it
/// begins with `/`, and else a path from the folder of the hall's file on.
///
/// # Errors
///
/// Memory ran out.
pub fn key_path(alloc: Global, path: &str, key: &str) -> Result<String, AllocError>
    ensures { IfOk result (λ text. string_bytes text ≡ path_join (folder_of path.now) key.now) }
{
    let folder = match Path::new(path).parent() {
        Some(folder) => folder,
        None => Path::new(""),
    };
    let whole = folder.join(alloc, key)?;
    Ok(whole.into_string())
}
