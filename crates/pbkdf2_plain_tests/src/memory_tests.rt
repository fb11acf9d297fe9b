//! How often memory is asked for: a test named `takes_N_..` asks N times. `bench/refused_memory.py` refuses each request in turn,
//! and each of these N runs has to end by want of memory, and the next one as usual.

use line_io::{MemorySink, MemorySource};
use pbkdf2_plain::{Pbkdf2Hash, Pbkdf2Plain, run_either};
use stored_check::{StoredError, check_stored};

// A record of each hash function, whose password is `password`: as OpenSSL and Python's hashlib give the keys.
const RECORDS: [(Pbkdf2Hash, &str); 3] = [
    (
        Pbkdf2Hash::Sha256,
        "$pbkdf2-sha256$i=1000,l=32$c2FsdHNhbHRzYWx0$sYIePhT5IXESDKvnouJXtE5pTJ6Znbmef4vViYmc9Uc",
    ),
    (
        Pbkdf2Hash::Sha512,
        "$pbkdf2-sha512$i=999$c2FsdHNhbHRzYWx0$8N07HlNE0KGKiZaNfzRpL/X+YSDHNOkcoyz9w4RrUqWJtJVlZC6G1uFP8DIUI6WZaO/NuYT4awbld/qfm5pcTw",
    ),
    (
        Pbkdf2Hash::Sha1,
        "$pbkdf2-sha1$i=998$c2FsdHNhbHRzYWx0$gqZFs98WgVJw95yKyonam+6zC+o",
    ),
];

#[test]
fn takes_0_requests_for_records(rt: HostRuntime) {
    for (hash, stored) in RECORDS {
        let answer = check_stored(rt.alloc(), &Pbkdf2Plain { hash }, "password", stored);
        let is_wanting = answer == Err(StoredError::OutOfMemory);
        assert!(rt; !is_wanting, "want of memory: {stored}");
        assert!(rt; answer == Ok(true), "{stored}");
    }
}

// Each line's table is that of the first. A line at which memory is refused ends the run with 5: no request is tried again.
#[test]
fn takes_1_request_for_lines_of_scrypt(rt: HostRuntime) {
    let lines =
        b"\t$scrypt$ln=4,r=1,p=1$abcdabcdabc$pD4UWShsOuWpZmDptoXHTRSo68CYHCw5zKTiBB5COvc\n\t$scrypt$ln=4,r=1,p=1$abcdabcdabc$pD4UWShsOuWpZmDptoXHTRSo68CYHCw5zKTiBB5COvc\n";
    let mut room = [0; 16];
    let mut source = MemorySource::new(lines, 200, &[]);
    let mut sink = MemorySink::new(&mut room, 16, &[]);
    let status = run_either(rt.alloc(), &mut source, &mut sink);
    assert!(rt; status != 5, "want of memory");
    assert!(rt; status == 0);
    assert!(rt; sink.bytes() == b"match\nmatch\n".as_slice());
}
