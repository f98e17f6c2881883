//! The lines about other desks.

use desk_sockets::{CallTrouble, ConnectionTrouble};
use links::Notice;
use std::io;
use std::io::Write;
use std::net::SocketAddr;
use wire::Difference;

/// What a line is about: a desk, where it is to be found, and what went wrong last with a
/// connection to it.
#[derive(Clone, Copy)]
pub struct Subject {
    pub desk: u8,
    pub address: SocketAddr,
    pub trouble: ConnectionTrouble,
}

/// Writes that a desk can't be reached, and why.
fn tell_unreachable<W: Write>(writer: &mut W, subject: Subject) -> io::Result<()> {
    let (desk, address) = (subject.desk, subject.address);
    match subject.trouble {
        ConnectionTrouble::System { kind } => writeln!(writer, "desk {desk} at {address}: {kind}"),
        ConnectionTrouble::Key {
            trouble: CallTrouble::HasKey,
        } => writeln!(writer, "desk {desk} at {address} has a key"),
        ConnectionTrouble::Key { .. } => {
            writeln!(writer, "desk {desk} at {address} has another key, or none")
        }
    }
}

/// Writes that another desk differs, and what follows.
pub fn tell_difference<W: Write>(writer: &mut W, difference: Difference) -> io::Result<()> {
    match difference {
        Difference::OtherEntry { desk, position } => writeln!(
            writer,
            "desk {desk} has another command at {position}: no more commands are accepted here; \
             see HALL, 'Two desks differ'"
        )?,
        Difference::Shorter { desk, length } => writeln!(
            writer,
            "desk {desk} has {length} commands and had more, its file was lost or is an older \
             one: no more commands are accepted here; see HALL, 'Two desks differ'"
        )?,
    }
    writer.flush()
}

/// Writes a line about a desk.
pub fn tell<W: Write>(writer: &mut W, subject: Subject, notice: Notice) -> io::Result<()> {
    let desk = subject.desk;
    match notice {
        Notice::Unreachable => tell_unreachable(writer, subject)?,
        Notice::Reached { seconds } => {
            writeln!(writer, "desk {desk}: reached again after {seconds} s")?;
        }
        Notice::Foreign => {
            let address = subject.address;
            writeln!(
                writer,
                "desk {desk} at {address}: another hall or desk answers"
            )?;
        }
    }
    writer.flush()
}
