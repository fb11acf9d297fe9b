//! Vectors of RFC 2202.

ghost use Rattle.std.specs.Prelude.{◌≤◌, length};

use hmac_plain::HashFunction;
use hmac_sha1::{HmacSha1, Sha1Hasher, hmac_sha1, laws};

// A key, a message and its code: RFC 2202, section 3, test cases 1 to 7.
const CODES: &[(&[u8], &[u8], &[u8; 20])] = &[
    (
        &[0x0b; 20],
        b"Hi There",
        b"\xb6\x17\x31\x86\x55\x05\x72\x64\xe2\x8b\xc0\xb6\xfb\x37\x8c\x8e\xf1\x46\xbe\x00",
    ),
    (
        b"Jefe",
        b"what do ya want for nothing?",
        b"\xef\xfc\xdf\x6a\xe5\xeb\x2f\xa2\xd2\x74\x16\xd5\xf1\x84\xdf\x9c\x25\x9a\x7c\x79",
    ),
    (
        &[0xaa; 20],
        &[0xdd; 50],
        b"\x12\x5d\x73\x42\xb9\xac\x11\xcd\x91\xa3\x9a\xf4\x8a\xa1\x7b\x4f\x63\xf1\x75\xd3",
    ),
    (
        b"\x01\x02\x03\x04\x05\x06\x07\x08\x09\x0a\x0b\x0c\x0d\x0e\x0f\x10\x11\x12\x13\x14\x15\x16\x17\x18\x19",
        &[0xcd; 50],
        b"\x4c\x90\x07\xf4\x02\x62\x50\xc6\xbc\x84\x14\xf9\xbf\x50\xc8\x6c\x2d\x72\x35\xda",
    ),
    (
        &[0x0c; 20],
        b"Test With Truncation",
        b"\x4c\x1a\x03\x42\x4b\x55\xe0\x7f\xe7\xf2\x7b\xe1\xd5\x8b\xb9\x32\x4a\x9a\x5a\x04",
    ),
    (
        &[0xaa; 80],
        b"Test Using Larger Than Block-Size Key - Hash Key First",
        b"\xaa\x4a\xe5\xe1\x52\x72\xd0\x0e\x95\x70\x56\x37\xce\x8a\x3b\x55\xed\x40\x21\x12",
    ),
    (
        &[0xaa; 80],
        b"Test Using Larger Than Block-Size Key and Larger Than One Block-Size Data",
        b"\xe8\xe9\x9d\x0f\x45\x23\x7d\x78\x6d\x6b\xba\xa7\x96\x5c\x78\x08\xbb\xff\x1a\x91",
    ),
];

fn rows() -> &'static [(&'static [u8], &'static [u8], &'static [u8; 20])] {
    CODES
}

// The code of a message that is taken in by two pieces, the first of which has `cut` bytes.
fn code_of_two(key: &[u8], message: &[u8], cut: usize) -> [u8; 20]
    requires { cut ≤ length message.now }
{
    let mut state = HmacSha1::new(key);
    state.update(&message[..cut]);
    let mut other = state.copy();
    other.update(b"another end");
    state.update(&message[cut..]);
    state.finalize()
}

#[test]
fn codes(rt: HostRuntime) {
    for row in rows() {
        assert!(rt; hmac_sha1(row.0, row.1) == *row.2);
        assert!(rt; code_of_two(row.0, row.1, row.1.len().min(8)) == *row.2);
    }
    laws::code_length();
}

// FIPS 180-4's example message: a hasher, and a copy of it that goes its own way.
#[test]
fn digests(rt: HostRuntime) {
    let mut hasher = Sha1Hasher::start();
    hasher.feed(b"ab");
    let mut other = hasher.copy();
    other.feed(b"d");
    hasher.feed(b"c");
    let digest =
        b"\xa9\x99\x3e\x36\x47\x06\x81\x6a\xba\x3e\x25\x71\x78\x50\xc2\x6c\x9c\xd0\xd8\x9d";
    assert!(rt; hasher.finish() == *digest);
    let of_another =
        b"\xcb\x4c\xc2\x8d\xf0\xfd\xbe\x0e\xcf\x9d\x96\x62\xe2\x94\xb1\x18\x09\x2a\x57\x35";
    assert!(rt; other.finish() == *of_another);
}
