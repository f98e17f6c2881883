//! Which desks of a hall are reached, said while a command waits.

use arguments::Place;
use batch::{Contact, ask_over};
use client::status_request;
use desk_requests::{Reasons, TcpDialer};
use hall_file::{HallFile, read_hall_at};
use std::alloc::{AllocError, Global};
use wire::FrameBody;

/// For how many seconds each desk is waited for.
const PATIENCE: u32 = 1;

/// Looks which desks of a hall answer, where its file is known.
#[derive(Drop)]
pub(crate) struct HallSearch<'a> {
    rt: &'a HostRuntime,
    place: Place<'a>,
    key: Option<[u8; 32]>,
}

impl<'a> HallSearch<'a> {
    /// Of the hall of this place, whose desks are asked under this key.
    pub(crate) fn new(
        rt: &'a HostRuntime,
        place: Place<'a>,
        key: Option<[u8; 32]>,
    ) -> HallSearch<'a> {
        HallSearch { rt, place, key }
    }
}

/// Whether the desk of a number says how it is, asked over a connection of its own.
fn is_reached(rt: &HostRuntime, hall: &HallFile, key: Option<[u8; 32]>, desk: u8) -> bool {
    let Some(address) = hall.address_of(desk) else {
        return false;
    };
    let mut dial = TcpDialer::new(rt);
    let contact = Contact {
        address,
        patience: PATIENCE,
        key,
    };
    if desk == 0 || desk > 5 {
        return false;
    }
    let request = status_request(hall.hall, desk);
    matches!(
        ask_over(&mut dial, contact, &request),
        Ok(FrameBody::Standing { .. })
    )
}

/// Adds a small number.
fn push_digit(text: &mut Vec<u8>, number: u8) -> Result<(), AllocError> {
    text.push(b'0' + number % 10)?;
    Ok(())
}

/// What is said if this many desks answer in a hall of this many, and this one is the last of them.
fn sentence(alloc: Global, count: u8, last: u8, desks: u8) -> Result<Vec<u8>, AllocError> {
    let mut text = Vec::new(alloc);
    let majority = desks / 2 + 1;
    if count >= majority {
        push_digit(&mut text, count)?;
        text.extend_from_slice(b" of ")?;
        push_digit(&mut text, desks)?;
        text.extend_from_slice(b" desks are reached, and it is not decided yet")?;
        return Ok(text);
    }
    if count == 0 {
        text.extend_from_slice(b"no desk is reached, a majority is ")?;
    } else if count == 1 {
        text.extend_from_slice(b"desk ")?;
        push_digit(&mut text, last)?;
        text.extend_from_slice(b" alone is reached, a majority is ")?;
    } else {
        push_digit(&mut text, count)?;
        text.extend_from_slice(b" desks are reached, a majority is ")?;
    }
    push_digit(&mut text, majority)?;
    Ok(text)
}

/// What is said of the desks of a hall that answer.
fn reason_of(rt: &HostRuntime, hall: &HallFile, key: Option<[u8; 32]>) -> Option<Vec<u8>> {
    let (mut count, mut last) = (0_u8, 0);
    let desks = hall.desk_count();
    for desk in 1..=desks {
        if is_reached(rt, hall, key, desk) {
            count = count.saturating_add(1);
            last = desk;
        }
    }
    sentence(rt.alloc(), count, last, desks).ok()
}

impl Reasons for HallSearch<'_> {
    fn reason(&mut self, _alloc: Global) -> Option<Vec<u8>> {
        match self.place {
            Place::File { file, .. } => match read_hall_at(self.rt, file) {
                Ok(hall) => reason_of(self.rt, &hall, self.key),
                Err(_) => None,
            },
            Place::Desk { .. } => None,
        }
    }
}
