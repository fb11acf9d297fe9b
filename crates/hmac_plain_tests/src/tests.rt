//! Vectors of RFC 4231.

use hmac_plain::{
    Hmac, HmacSha256, HmacSha384, HmacSha512, block_key, hmac_sha256, hmac_sha384, hmac_sha512,
    laws,
};
use sha2::{Sha256, Sha512};
use std::test::Fail;

// A key, a message, and its codes by SHA-256, SHA-384 and SHA-512: RFC 4231, test cases 2 and 6.
const CODES: [(&[u8], &[u8], [u8; 32], [u8; 48], [u8; 64]); 2] = [
    (
        b"Jefe",
        b"what do ya want for nothing?",
        *b"\x5b\xdc\xc1\x46\xbf\x60\x75\x4e\x6a\x04\x24\x26\x08\x95\x75\xc7\x5a\x00\x3f\x08\x9d\x27\x39\x83\x9d\xec\x58\xb9\x64\xec\x38\x43",
        *b"\xaf\x45\xd2\xe3\x76\x48\x40\x31\x61\x7f\x78\xd2\xb5\x8a\x6b\x1b\x9c\x7e\xf4\x64\xf5\xa0\x1b\x47\xe4\x2e\xc3\x73\x63\x22\x44\x5e\x8e\x22\x40\xca\x5e\x69\xe2\xc7\x8b\x32\x39\xec\xfa\xb2\x16\x49",
        *b"\x16\x4b\x7a\x7b\xfc\xf8\x19\xe2\xe3\x95\xfb\xe7\x3b\x56\xe0\xa3\x87\xbd\x64\x22\x2e\x83\x1f\xd6\x10\x27\x0c\xd7\xea\x25\x05\x54\x97\x58\xbf\x75\xc0\x5a\x99\x4a\x6d\x03\x4f\x65\xf8\xf0\xe6\xfd\xca\xea\xb1\xa3\x4d\x4a\x6b\x4b\x63\x6e\x07\x0a\x38\xbc\xe7\x37",
    ),
    (
        &[0xaa; 131],
        b"Test Using Larger Than Block-Size Key - Hash Key First",
        *b"\x60\xe4\x31\x59\x1e\xe0\xb6\x7f\x0d\x8a\x26\xaa\xcb\xf5\xb7\x7f\x8e\x0b\xc6\x21\x37\x28\xc5\x14\x05\x46\x04\x0f\x0e\xe3\x7f\x54",
        *b"\x4e\xce\x08\x44\x85\x81\x3e\x90\x88\xd2\xc6\x3a\x04\x1b\xc5\xb4\x4f\x9e\xf1\x01\x2a\x2b\x58\x8f\x3c\xd1\x1f\x05\x03\x3a\xc4\xc6\x0c\x2e\xf6\xab\x40\x30\xfe\x82\x96\x24\x8d\xf1\x63\xf4\x49\x52",
        *b"\x80\xb2\x42\x63\xc7\xc1\xa3\xeb\xb7\x14\x93\xc1\xdd\x7b\xe8\xb4\x9b\x46\xd1\xf4\x1b\x4a\xee\xc1\x12\x1b\x01\x37\x83\xf8\xf3\x52\x6b\x56\xd0\x37\xe0\x5f\x25\x98\xbd\x0f\xd2\x21\x5d\x6a\x1e\x52\x95\xe6\x4f\x73\xf6\x3f\x0a\xec\x8b\x91\x5a\x98\x5d\x78\x65\x98",
    ),
];

#[test]
fn codes(rt: HostRuntime) {
    for (key, message, short, middle, long) in CODES {
        let len = message.len();
        assert!(rt;
            hmac_sha256(key, message).as_slice() == short.as_slice(),
            "{len} bytes"
        );
        assert!(rt;
            hmac_sha384(key, message).as_slice() == middle.as_slice(),
            "{len} bytes"
        );
        assert!(rt;
            hmac_sha512(key, message).as_slice() == long.as_slice(),
            "{len} bytes"
        );
    }
}

#[test]
fn pieces_and_copies(rt: HostRuntime) -> Result<(), Fail> {
    for (key, message, short, middle, long) in CODES {
        let mut state = HmacSha256::new(key);
        state.update(&message[..10]);
        let mut other = state.copy();
        let mut third = state.clone()?;
        state.update(&message[10..]);
        other.update(b"another end");
        third.update(&message[10..]);
        assert!(rt; state.finalize().as_slice() == short.as_slice());
        assert!(rt; other.finalize().as_slice() != short.as_slice());
        assert!(rt; third.finalize().as_slice() == short.as_slice());
        let mut state = HmacSha384::new(key);
        state.update(&message[..20]);
        state.update(&message[20..]);
        assert!(rt; state.copy().finalize().as_slice() == middle.as_slice());
        let mut state: HmacSha512 = Hmac::new(key);
        state.update(&message[..1]);
        state.update(&message[1..]);
        assert!(rt; state.finalize().as_slice() == long.as_slice());
    }
    Ok(())
}

// Keys of a block, of less and of more.
#[test]
fn keys_as_blocks(rt: HostRuntime) {
    let short = block_key::<64, 32, Sha256>(b"Jefe");
    assert!(rt; &short[..6] == b"Jefe\0\0".as_slice());
    let whole = block_key::<64, 32, Sha256>(&[7; 64]);
    assert!(rt; whole.as_slice() == [7u8; 64].as_slice());
    let long = block_key::<128, 64, Sha512>(&[7; 128]);
    assert!(rt; long.as_slice() == [7u8; 128].as_slice());
    let hashed = block_key::<64, 32, Sha256>(&[7; 65]);
    assert!(rt; &hashed[32..] == [0u8; 32].as_slice());
    laws::code_lengths();
}
