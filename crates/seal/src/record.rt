//! The tag of a record.

ghost use Rattle.std.specs.Prelude.{◌≡◌, ◌↔◌, ◌+◌, ◌^◌, ◌<◌, IsTrue, length};
ghost use Rattle.seal.specs.{Records.tag, Streams.IsWhole, Streams.length_at, model.Steps.IsRecord};

use crate::channel::Channel;
use crate::mac::hmac_of_parts;

/// The bytes of a length.
pub(crate) const LENGTH: usize = 2;

/// The bytes of a tag.
pub(crate) const TAG: usize = 32;

/// The tag of a record: the HMAC, under the connection's key, of its direction (one byte), its
/// number (8 bytes), its length (2 bytes) and its body.
pub(crate) fn tag(channel: &Channel, number: u64, body: &[u8]) -> [u8; 32]
    requires { length body.now < 2 ^ 16 }
    ensures { result ≡ tag channel.now number body.now }
{
    let direction = [channel.direction.byte()];
    let number = number.to_be_bytes();
    let length = (body.len() as u16).to_be_bytes();
    hmac_of_parts(&channel.key, &[&direction, &number, &length, body])
}

/// Whether two tags are the same. Each byte is read, whatever the others are.
pub(crate) fn same(tag: &[u8; 32], other: &[u8; 32]) -> bool
    ensures { IsTrue result ↔ (tag.now ≡ other.now) }
{
    let mut difference = 0;
    for i in 0..TAG {
        difference |= tag[i] ^ other[i];
    }
    difference == 0
}

/// Whether the bytes of a whole record are the record with this number.
pub(crate) fn fits(channel: &Channel, number: u64, bytes: &[u8]) -> bool
    requires whole { IsWhole bytes.now }
    requires exact { length bytes.now ≡ length_at bytes.now + 34 }
    ensures { IsTrue result ↔ IsRecord channel.now number bytes.now }
{
    let end = bytes.len() - TAG;
    let mut came = [0; TAG];
    came.copy_from_slice(&bytes[end..]);
    let fitting = tag(channel, number, &bytes[LENGTH..end]);
    same(&fitting, &came) && number < u64::MAX
}
