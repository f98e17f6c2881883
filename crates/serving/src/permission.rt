//! What a connection may ask of a desk.

ghost use Rattle.std.specs.Prelude.{◌≡◌};
ghost use Rattle.serving.specs.Permissions.{admits};

use crate::request::Request;

/// What a connection may ask of a desk: that depends on the key under which it came.
#[derive(Clone, Copy, PartialEq, Eq, Debug)]
pub enum Permission {
    /// Everything.
    All,
    /// What clients ask, but for a Stop: Submit, Ask, Sheet, Status, Log and Tick.
    Entries,
    /// What changes nothing: Sheet, Ask, Status and Log.
    Sheets,
}

impl Permission {
    /// Whether a connection with this permission may ask for that.
    pub fn admits(self, request: &Request) -> bool
        ensures { result ≡ admits self request.now }
    {
        match self {
            Permission::All => true,
            Permission::Entries => request.reads() || request.enters(),
            Permission::Sheets => request.reads(),
        }
    }
}
