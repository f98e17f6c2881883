//! What a fault is about.

use batch::Contact;

/// What a fault is about, as far as it is known.
#[derive(Clone, Copy)]
pub enum FaultSubject<'a> {
    /// A desk that was to serve: the path of its store, and the address at which it was to listen.
    Serving {
        store: &'a str,
        address: &'a str,
    },
    /// The log of the desk's file at this path.
    Log {
        store: &'a str,
    },
    /// A desk that was to be asked, before it was known which one and how.
    Finding,
    /// A desk of a hall that was asked.
    Asking {
        hall: u32,
        desk: u8,
        contact: Contact<'a>,
    },
}
