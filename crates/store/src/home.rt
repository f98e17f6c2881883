//! Which desk of which hall a store belongs to.

ghost use Rattle.std.specs.Prelude.{◌↔◌, IsTrue};
ghost use Rattle.store.specs.Ranges.{IsHome};

/// Which desk of which hall a store belongs to.
///
/// A hall has 3 or 5 desks, which are numbered from 1.
#[derive(Clone, Copy, PartialEq, Eq, Debug)]
pub struct Home {
    pub hall: u32,
    pub desk: u8,
    pub desks: u8,
}

impl Home {
    /// Whether the hall has 3 or 5 desks, and this is one of them.
    pub fn is_valid(self) -> bool
        ensures { IsTrue result ↔ IsHome self }
    {
        (self.desks == 3 || self.desks == 5) && self.desk >= 1 && self.desk <= self.desks
    }
}
