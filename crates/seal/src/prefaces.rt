//! How a sealed stream begins, and the key that follows from it.

ghost use Rattle.std.specs.Prelude.{◌≡◌, ◌↔◌, ◌++◌, IsTrue, Option, None, MatchOption, length};
ghost use Rattle.std.specs.Prelude.{drop, take};
ghost use Rattle.seal.specs.Records.{mark, preface_of, key_of};

use crate::mac::hmac_of_parts;

/// The bytes that a sealed stream begins with. No frame begins with them.
const MARK: [u8; 4] = [0x44, 0x53, 0x4B, 0x31];

/// What is taken in front of the random bytes, so that this key is no tag.
const LABEL: &[u8] = b"DSK1 connection key";

/// What a side of a sealed connection sends first: the four bytes `DSK1`, and these random bytes,
/// which are new in each connection.
pub fn preface(random: &[u8; 16]) -> [u8; 20]
    ensures { result ≡ preface_of random.now }
{
    let mut bytes = [0; 20];
    bytes[..4].copy_from_slice(&MARK);
    bytes[4..].copy_from_slice(random);
    bytes
}

/// Whether a stream that begins with these bytes is sealed: they are `DSK1`. A frame begins with
/// its length, which is never the number of these bytes.
pub fn is_sealed(first: &[u8; 4]) -> bool
    ensures { IsTrue result ↔ (first.now ≡ mark) }
{
    *first == MARK
}

/// The random bytes of a preface. None: it does not begin with `DSK1`.
pub fn random_of(preface: &[u8; 20]) -> Option<[u8; 16]>
    ensures { MatchOption result (¬ (take 4 preface.now ≡ mark))
        (λ random. preface.now ≡ preface_of random) }
{
    let (first, random) = preface.split_at(4);
    if first != MARK.as_slice() {
        return None;
    }
    let mut bytes = [0; 16];
    bytes.copy_from_slice(random);
    Some(bytes)
}

/// The key of a connection: the HMAC, under the hall's key, of a label and the random bytes of both
/// sides.
#[tactic(auto, unfolding(crate::specs::Records::key_of))]
pub fn connection_key(hall: &[u8; 32], client: &[u8; 16], server: &[u8; 16]) -> [u8; 32]
    ensures { result ≡ key_of hall.now client.now server.now }
{
    hmac_of_parts(hall, &[LABEL, client, server])
}
