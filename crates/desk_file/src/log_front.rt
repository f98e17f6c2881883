//! The bytes with which a log begins, as SQLite's format has them.

ghost use Rattle.std.specs.Prelude.{◌≡◌, ◌+◌, ◌/◌, ◌≤◌, ◌↔◌, IsTrue, length, slice_index};
ghost use Rattle.sqlite_disk.specs.Disk.{Torn};
ghost use Rattle.sqlite_wal.specs.Format.{IsHeader, IsSigned, be32, part, stored_sum};

use sqlite_wal::checksum_of;

/// A log's header, and its first frame up to the byte that says whether frames count.
pub const FRONT_LEN: usize = 41;

/// A shorter file is no log: a header, and that of a frame.
pub const LOG_LEN: usize = 56;

/// The four bytes as a number, the highest first.
pub fn get_be32(b: &[u8], at: usize) -> u32
    requires { at + 4 ≤ length b.now }
    ensures { result ≡ be32 b.now at }
{
    b[at] as u32 * 0x100_0000
        + b[at + 1] as u32 * 0x1_0000
        + b[at + 2] as u32 * 0x100
        + b[at + 3] as u32
}

/// Writes a number as four bytes, the highest first.
pub fn put_be32(b: &mut [u8], at: usize, x: u32)
    requires { at + 4 ≤ length b.old }
    ensures written { be32 b.new at ≡ x }
    ensures first { slice_index b.new at ≡ x / 0x100_0000 }
    ensures others { Torn at 4 b.old b.new }
{
    b[at] = (x / 0x100_0000) as u8;
    b[at + 1] = (x / 0x1_0000 % 0x100) as u8;
    b[at + 2] = (x / 0x100 % 0x100) as u8;
    b[at + 3] = (x % 0x100) as u8;
}

fn get_sum(b: &[u8], at: usize) -> (u32, u32)
    requires { at + 8 ≤ length b.now }
    ensures { result ≡ stored_sum b.now at }
{
    (get_be32(b, at), get_be32(b, at + 4))
}

fn put_sum(b: &mut [u8], at: usize, sum: (u32, u32))
    requires { at + 8 ≤ length b.old }
    ensures written { stored_sum b.new at ≡ sum }
    ensures others { Torn at 8 b.old b.new }
{
    put_be32(b, at, sum.0);
    put_be32(b, at + 4, sum.1);
}

/// The first 32 bytes.
pub fn header_of(b: &[u8]) -> [u8; 32]
    requires { 32 ≤ length b.now }
    ensures { result ≡ part b.now 0 32 }
{
    let mut head = [0u8; 32];
    head.copy_from_slice(&b[..32]);
    head
}

/// Whether it is a log's header, by its magic number and its checksum.
pub fn is_signed(head: &[u8; 32]) -> bool
    ensures { IsTrue result ↔ IsSigned head.now }
{
    if head[0] != 0x37 || head[1] != 0x7f || head[2] != 0x06 {
        return false;
    }
    if head[3] != 0x82 && head[3] != 0x83 {
        return false;
    }
    checksum_of(head[3] == 0x83, (0, 0), &head[..24]) == get_sum(head, 24)
}

/// The header of a log that has no frame and was never emptied, with this salt, and the first
/// frame's bytes up to the one that says that it does not count.
pub fn empty_log(page_size: u32, salt: &[u8; 8]) -> [u8; 41]
    ensures len { length result ≡ 41 }
    ensures head { IsHeader page_size (part result 0 32) }
    ensures round { be32 result 12 ≡ 0 }
    ensures salt { part result 16 8 ≡ salt.now }
    ensures gate { slice_index result 40 ≡ 0 }
{
    let mut b = [0u8; 41];
    b[16..24].copy_from_slice(salt);
    b[0] = 0x37;
    b[1] = 0x7f;
    b[2] = 0x06;
    b[3] = 0x82;
    put_be32(&mut b, 4, 3_007_000);
    put_be32(&mut b, 8, page_size);
    put_be32(&mut b, 12, 0);
    let sum = checksum_of(false, (0, 0), &b[..24]);
    put_sum(&mut b, 24, sum);
    b
}
