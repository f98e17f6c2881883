//! A desk's file, closed when the desk has served.

use answers::Desk;
use desk_file::put_away;
use node::Node;
use sqlite::{FileFrom, FileStore, Start};
use store::keeper::Keeper;
use store::sql::SqlKeeper;

/// A keeper that can be closed.
pub trait Close {
    /// Closes it, with all that it has kept.
    fn close(self);
}

impl<S: Start> Close for SqlKeeper<FileStore<FileFrom<S>>> {
    /// Copies what is in the file's log into the file itself, so that a copy of the file alone has
    /// everything, and notes in the file that it is no longer in use. Where the device refuses
    /// that, the log beside the file still has it.
    fn close(self) {
        let _ = put_away(self);
    }
}

/// Closes the keeper of a desk that has served. Where the desk is down, its file is left as it is.
pub fn close_node<K: Keeper + Close + Drop>(node: Node<K>) {
    if !node.is_down() {
        node.into_keeper().close();
    }
}
