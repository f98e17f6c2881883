//! What else has to fit before the day: the desks' programs, and this machine.

use batch::{Contact, Dial, knows_await};
use desk_requests::Inquiry;
use fault_hints::room_beside;
use hall_file::key_path;
use keys::key_file::{KeyFileFault, read_key_at};
use lines::{WriteFailed, write_text};
use std::alloc::{AllocError, Global};
use std::io::Write;
use std::time::Clock;

/// Adds whether the program of a desk is of this version.
fn push_program<D: Dial>(
    alloc: Global,
    dial: &mut D,
    inquiry: Inquiry<'_>,
    desk: u8,
    address: &str,
    text: &mut Vec<u8>,
) -> Result<(), AllocError> {
    let contact = Contact {
        address,
        patience: inquiry.patience.max(4),
        key: inquiry.key,
    };
    let said = if knows_await(dial, contact, inquiry.hall, desk) {
        "its program is of this version"
    } else {
        "its program is of an earlier version, or does not answer"
    };
    let line = format!(in alloc; "desk {desk}: {said}\n")?;
    text.extend_from_slice(line.as_bytes())
}

/// Adds that of each desk.
fn push_programs<D: Dial>(
    alloc: Global,
    dial: &mut D,
    inquiry: Inquiry<'_>,
    text: &mut Vec<u8>,
) -> Result<(), AllocError> {
    let mut desk = 0_u8;
    for address in inquiry.addresses {
        desk = desk.saturating_add(1);
        push_program(alloc, dial, inquiry, desk, address, text)?;
    }
    Ok(())
}

/// Adds a number from 0 to 99, as two digits.
fn push_two_digits(text: &mut Vec<u8>, number: u64) -> Result<(), AllocError> {
    let two = (number % 100) as u8;
    text.push(b'0' + two / 10)?;
    text.push(b'0' + two % 10)?;
    Ok(())
}

/// Adds what this machine's clock says.
fn push_clock(rt: &HostRuntime, text: &mut Vec<u8>) -> Result<(), AllocError> {
    let Ok(since) = rt.since_1970() else {
        return text.extend_from_slice(b"this machine: its clock can't be read\n");
    };
    let seconds = since.as_secs();
    text.extend_from_slice(b"this machine: its clock says ")?;
    push_two_digits(text, seconds / 3600 % 24)?;
    text.push(b':')?;
    push_two_digits(text, seconds / 60 % 60)?;
    text.push(b':')?;
    push_two_digits(text, seconds % 60)?;
    text.extend_from_slice(b" UTC; compare it with a watch\n")
}

/// Adds whether the disk has room on which the hall's file is.
fn push_room(rt: &HostRuntime, file: &str, text: &mut Vec<u8>) -> Result<(), AllocError> {
    let line = match room_beside(rt, file) {
        Some(found) => format!(in rt.alloc(); "this machine: {found}\n")?,
        None => format!(in rt.alloc(); "this machine: there is room beside {file}\n")?,
    };
    text.extend_from_slice(line.as_bytes())
}

/// Adds whether a key's file of this name is beside the hall's file, and gives a key.
fn push_key(
    rt: &HostRuntime,
    file: &str,
    name: &str,
    text: &mut Vec<u8>,
) -> Result<(), AllocError> {
    let path = key_path(rt.alloc(), file, name)?;
    let line = match read_key_at(rt, path.as_str()) {
        Ok(_) => format!(in rt.alloc(); "this machine: {path} has a key\n")?,
        Err(KeyFileFault::NotThere) => {
            format!(in rt.alloc(); "this machine: there is no {path}\n")?
        }
        Err(fault) => format!(in rt.alloc(); "this machine: {path}: {fault}\n")?,
    };
    text.extend_from_slice(line.as_bytes())
}

/// The lines about the desks' programs and this machine.
fn lines_of<D: Dial>(
    rt: &HostRuntime,
    dial: &mut D,
    inquiry: Inquiry<'_>,
    file: &str,
) -> Result<Vec<u8>, AllocError> {
    let mut text = Vec::new(rt.alloc());
    push_programs(rt.alloc(), dial, inquiry, &mut text)?;
    push_clock(rt, &mut text)?;
    push_room(rt, file, &mut text)?;
    push_key(rt, file, "hall.key", &mut text)?;
    push_key(rt, file, "entry.key", &mut text)?;
    Ok(text)
}

/// Prints of each desk whether its program is of this version, and of this machine what its clock
/// says, whether the disk has room on which the hall's file is, and which keys are beside it.
///
/// # Errors
///
/// `WriteFailed` where the lines can't be written, or memory ran out.
pub(crate) fn print_machine<D: Dial, W: Write>(
    rt: &HostRuntime,
    dial: &mut D,
    inquiry: Inquiry<'_>,
    file: &str,
    writer: &mut W,
) -> Result<(), WriteFailed> {
    match lines_of(rt, dial, inquiry, file) {
        Ok(text) => write_text(writer, &text),
        Err(_) => Err(WriteFailed),
    }
}
