//! A desk that is to serve, and what is asked of it.

use wire::Version;

/// Where the store of a desk comes from.
#[derive(Clone, Copy, Debug, PartialEq, Eq)]
pub enum StoreOrigin {
    /// The store in the file is opened, and where there is none it is made.
    AsNeeded,
    /// The store in the file is opened, and none is made.
    Open,
    /// A store is made, and one that is there is not opened.
    New,
}

/// What is asked of a desk that is to serve, in whichever hall.
#[derive(Clone, Copy)]
pub struct ServeOptions<'a> {
    /// The desk's number, from 1.
    pub desk: u8,
    /// The path of its store.
    pub store: &'a str,
    /// Whether that store is opened or made. In the hall of a file it is `Open` or `New`, and then
    /// the addresses have to be found as well, each of another desk.
    pub making: StoreOrigin,
    /// How many seconds a client may be silent, and take nothing of what is sent to it.
    pub patience: u32,
    /// How many connections are served; without it, as many as come.
    pub connections: Option<u32>,
    /// The version of the wire in which frames for other desks are pushed.
    pub wire: Version,
    /// The period of the desk's own Ticks, 100 to 60,000 milliseconds; without it, the desk gives
    /// itself none.
    pub tick: Option<u32>,
    /// Whether no lines about other desks are written.
    pub quiet: bool,
    /// The path of the file with the hall's key; without it, the hall has no key.
    pub key: Option<&'a str>,
    /// The path of the file with the key for entries alone, which comes beside the hall's key.
    pub entry_key: Option<&'a str>,
    /// The path of the file with the key that was the hall's, in the place of the entry key.
    pub old_key: Option<&'a str>,
    /// Whether callers without a key may ask for sheets, which is said beside the hall's key.
    pub open_sheets: bool,
}

/// A desk that is to serve.
#[derive(Clone, Copy)]
pub struct Service<'a> {
    /// The hall's number.
    pub hall: u32,
    /// Where the desks of the hall listen, in the order of their numbers.
    pub addresses: &'a [&'a str],
    /// What is asked of the desk.
    pub options: ServeOptions<'a>,
}
