//! HMAC-SHA-256 (RFC 2104, FIPS 180-4).

ghost use Rattle.std.specs.Prelude.{◌≡◌, ◌≤◌, ◌-◌, ◌++◌, length, replicate};
ghost use Rattle.std.specs.List.{flat_map};
ghost use Rattle.sha2.specs.Sha256.{sha256};
ghost use Rattle.seal.specs.Hmac.{key_block, xor_each, hmac};

use sha2::{Digest, Sha256};

/// The bytes of a block of SHA-256.
const BLOCK: usize = 64;

/// A key of at most one block, with zeros after it.
fn filled(key: &[u8]) -> [u8; 64]
    requires { length key.now ≤ 64 }
    ensures { result ≡ key.now ++ replicate (64 - length key.now) 0 }
{
    let mut block = [0; BLOCK];
    block[..key.len()].copy_from_slice(key);
    block
}

/// The key as one block.
#[tactic(auto, unfolding(crate::specs::Hmac::key_block))]
fn block_of(key: &[u8]) -> [u8; 64]
    ensures { result ≡ key_block key.now }
{
    if key.len() > BLOCK {
        filled(&Sha256::digest(key))
    } else {
        filled(key)
    }
}

/// The block, each byte XOR this one.
fn padded(block: &[u8; 64], pad: u8) -> [u8; 64]
    ensures { result ≡ xor_each block.now pad }
{
    let mut bytes = *block;
    for i in 0..BLOCK {
        bytes[i] = block[i] ^ pad;
    }
    bytes
}

/// The digest of a block and a text that comes in parts.
fn digest_of(block: &[u8; 64], parts: &[&[u8]]) -> [u8; 32]
    ensures { result ≡ sha256 (block.now ++ flat_map (λ part. part.now) parts.now) }
{
    let mut hasher = Sha256::new();
    hasher.update(block);
    for part in parts {
        hasher.update(*part);
    }
    hasher.finalize()
}

/// The HMAC-SHA-256 of a text that comes in parts, under a key of any length.
#[tactic(auto, unfolding(crate::specs::Hmac::hmac))]
pub fn hmac_of_parts(key: &[u8], parts: &[&[u8]]) -> [u8; 32]
    ensures { result ≡ hmac key.now (flat_map (λ part. part.now) parts.now) }
{
    let block = block_of(key);
    let inner = digest_of(&padded(&block, 0x36), parts);
    digest_of(&padded(&block, 0x5C), &[&inner])
}

/// The HMAC-SHA-256 of a text, under a key of any length (RFC 2104).
pub fn hmac(key: &[u8], text: &[u8]) -> [u8; 32]
    ensures { result ≡ hmac key.now text.now }
{
    hmac_of_parts(key, &[text])
}
