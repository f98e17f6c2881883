//! Why a key's file gives no key, and why none is made.

use std::alloc::AllocError;
use thiserror::Error;

/// Why a key's file gives no key. Its text is one line for people.
#[derive(Clone, Copy, Debug, PartialEq, Eq, Error)]
pub enum KeyFileFault {
    /// There is no file at the path.
    #[error("no such key file")]
    NotThere,
    /// It cannot be opened or read.
    #[error("cannot read the key file")]
    Unreadable,
    /// It is no regular file: nothing is read of a pipe, which might never end.
    #[error("the key file is a folder, a pipe or a device: name a file")]
    NotFile,
    /// Others than its owner may read, write or run it.
    #[error("key file is open to others")]
    Open,
    /// It begins with a byte-order mark, which an editor puts there.
    #[error("the key file begins with a byte-order mark: copy it again, byte by byte")]
    Mark,
    /// A carriage return is before its line feed, which an editor puts there.
    #[error("the key file ends with a carriage return: copy it again, byte by byte")]
    Return,
    /// Its digits are all zeros: nobody drew that key.
    #[error("the key file has only zeros: make a key with 'desk key'")]
    Zeros,
    /// Its bytes are nothing of this, and not 64 hexadecimal digits and at most one line feed.
    #[error("the key file has no key")]
    NoKey,
    /// Memory ran out.
    #[error("no memory")]
    NoMemory,
}

/// Why no key is made. Its text is one line for people.
#[derive(Clone, Copy, Debug, PartialEq, Eq, Error)]
pub enum MakeFault {
    /// The system gave no random bytes.
    #[error("no random bytes")]
    NoRandom,
    /// There is a file at the path already.
    #[error("key file is there")]
    IsThere,
    /// The file cannot be made, or a write failed.
    #[error("cannot write")]
    CannotWrite,
    /// Memory ran out.
    #[error("no memory")]
    NoMemory,
}

impl From<AllocError> for MakeFault {
    ghost use Rattle.std.specs.Prelude.{◌≡◌};
    ghost use Rattle.keys.specs.declared.key_file.fault.MakeFault.TheVariants as make_fault;

    ghost from_gives = { λ _ fault. fault ≡ make_fault.NoMemory };

    fn from(_: AllocError) -> MakeFault {
        MakeFault::NoMemory
    }
}
