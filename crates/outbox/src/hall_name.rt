//! What a journal says of its hall.

ghost use Rattle.std.specs.Prelude.{◌≡◌, ◌++◌, ◌∷◌, IfOk, OnOk, decimal, map, string_bytes};
ghost use Rattle.std.specs.List.{flat_map};
ghost use Rattle.outbox.specs.Lines.{hall_line, with_end};

use itoa::Buffer;
use std::alloc::{AllocError, Global};
use std::marker::Model;

/// A hall, as the first line of a journal names it: its number, and the addresses of its desks in
/// order. A contract sees the addresses as lists of bytes.
#[derive(Drop)]
pub struct HallName {
    number: u32,
    addresses: Vec<String>,
}

impl Model for HallName {
    ghost use Rattle.std.specs.Prelude.{map, string_bytes};
    ghost use Rattle.outbox.specs.Lines.{HallOf};

    ghost Value = { HallOf };

    ghost view = { λ h. record {
      number = h.number;
      addresses = map string_bytes h.addresses.items;
    } };
}

/// Puts the addresses after the others, with a space in front of each.
fn push_addresses(line: &mut Vec<u8>, addresses: &[String]) -> Result<(), AllocError>
    ensures { OnOk result (line.new.items
        ≡ line.old.items ++ flat_map (λ address. 32 ∷ address) (map string_bytes addresses.now)) }
{
    for address in addresses {
        line.extend_from_slice(b" ")?;
        line.extend_from_slice(address.as_bytes())?;
    }
    Ok(())
}

impl HallName {
    /// The hall with this number, whose desks have these addresses, in order.
    pub fn new(number: u32, addresses: Vec<String>) -> HallName
        ensures { result ≡ record {
          number = number;
          addresses = map string_bytes addresses.items;
        } }
    {
        HallName { number, addresses }
    }

    /// Its number.
    pub fn number(&self) -> u32
        ensures { result ≡ self.now.number }
    {
        self.number
    }

    /// The first line of its journals, without its end.
    pub(crate) fn line(&self, alloc: Global) -> Result<Vec<u8>, AllocError>
        ensures { IfOk result (λ line. line.items ≡ hall_line self.now) }
    {
        let mut line = Vec::from_slice(alloc, b"hall ")?;
        line.extend_from_slice(Buffer::new().format(self.number).as_bytes())?;
        push_addresses(&mut line, &self.addresses)?;
        Ok(line)
    }

    /// The first line of its journals, with its end.
    pub fn first_line(&self, alloc: Global) -> Result<Vec<u8>, AllocError>
        ensures { IfOk result (λ line. line.items ≡ with_end (hall_line self.now)) }
    {
        let mut line = self.line(alloc)?;
        line.extend_from_slice(b"\n")?;
        Ok(line)
    }
}
