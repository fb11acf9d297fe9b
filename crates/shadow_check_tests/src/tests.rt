//! Lines of users. The text is openssl's, of the password `secret`.

use any_check::{Costs, NO_COSTS, SchemeCosts};
use line_io::{MemorySink, MemorySource};
use shadow_check::run_users;

#[test]
fn users_are_kept(rt: HostRuntime) {
    let input = b"ann:secret\t$1$abcdefgh$cHJi5PXp/ki/ktXzqlk6I1\n\
        web_adm:Secret\t$1$abcdefgh$cHJi5PXp/ki/ktXzqlk6I1\n\
        root:secret\t*\n\
        :secret\t$1$abcdefgh$cHJi5PXp/ki/ktXzqlk6I1\n\
        a:b:c\tsecret\t$1$abcdefgh$cHJi5PXp/ki/ktXzqlk6I1\n\
        lone:\n\
        no user\t$1$abcdefgh$cHJi5PXp/ki/ktXzqlk6I1\n\
        secret\t$1$abcdefgh$cHJi5PXp/ki/ktXzqlk6I1:19000:0:99999:7:::\n\
        \xff:secret\t$1$abcdefgh$cHJi5PXp/ki/ktXzqlk6I1\n\
        bob:\xff\t$1$abcdefgh$cHJi5PXp/ki/ktXzqlk6I1\n\
        \n\
        last:secret\t$1$abcdefgh$cHJi5PXp/ki/ktXzqlk6I1"
        .as_slice();
    let words =
        b"ann\tmatch\nweb_adm\tmismatch\nroot\tno-scheme\n\tmatch\na\tmismatch\nlone\tbadline\nbadline\nbadline\n\
        \xff\tmatch\nbob\tbadline\nbadline\nlast\tmatch\n"
            .as_slice();
    let mut room = [0; 200];
    let mut source = MemorySource::new(input, 50, &[]);
    let mut sink = MemorySink::new(&mut room, 7, &[]);
    assert!(rt; run_users(rt.alloc(), None, &mut source, &mut sink, 1000) == 1);
    assert!(rt; sink.bytes() == words);
}

// The most bytes of a read, the read that fails, the most bytes of a write, the write that fails, the output and the status.
const STATUSES: [(usize, &[u64], usize, &[u64], &[u8], u8); 3] = [
    (64, &[], 64, &[], b"ann\tmatch\n", 0),
    (20, &[1], 64, &[], b"", 3),
    (64, &[], 4, &[1], b"ann\t", 4),
];

#[test]
fn statuses_with_users(rt: HostRuntime) {
    let line = b"ann:secret\t$1$abcdefgh$cHJi5PXp/ki/ktXzqlk6I1\n".as_slice();
    for (read, bad_reads, write, bad_writes, output, status) in STATUSES {
        assert!(rt; read >= 1 && write >= 1);
        let mut room = [0; 16];
        let mut source = MemorySource::new(line, read, bad_reads);
        let mut sink = MemorySink::new(&mut room, write, bad_writes);
        let got = run_users(rt.alloc(), None, &mut source, &mut sink, 64);
        assert!(rt; got == status, "{status}: {got}");
        assert!(rt; sink.bytes() == output, "{status}");
    }
}

// An input, the writes that fail, the output and the status. A user with a verdict is written at once, so that the second write
// comes after the first user. Users without a verdict wait.
const WRITES: [(&[u8], &[u64], &[u8], u8); 3] = [
    (TWO_USERS, &[], b"ann\tmatch\nbob\tmismatch\n", 1),
    (TWO_USERS, &[1], b"ann\tmatch\n", 4),
    (
        b"ann:secret\t*\nbob:secret\t*\n",
        &[1],
        b"ann\tno-scheme\nbob\tno-scheme\n",
        1,
    ),
];

const TWO_USERS: &[u8] = b"ann:secret\t$1$abcdefgh$cHJi5PXp/ki/ktXzqlk6I1\n\
    bob:Secret\t$1$abcdefgh$cHJi5PXp/ki/ktXzqlk6I1\n";

#[test]
fn users_written_after_a_verdict(rt: HostRuntime) {
    for (input, failing, output, status) in WRITES {
        let mut room = [0; 40];
        let mut source = MemorySource::new(input, 1_000, &[]);
        let mut sink = MemorySink::new(&mut room, 1_000, failing);
        let got = run_users(rt.alloc(), None, &mut source, &mut sink, 1_000);
        assert!(rt; got == status, "{output:?}: {got}");
        assert!(rt; sink.bytes() == output, "{output:?}");
    }
}

#[test]
fn bounds_with_users(rt: HostRuntime) {
    let limits = SchemeCosts {
        sha_crypt: Costs {
            rounds: 4_999,
            ..NO_COSTS
        },
        bcrypt: Costs {
            cost: 31,
            ..NO_COSTS
        },
        yescrypt: Costs {
            ln: 23,
            r: 524_287,
            t: 1_024,
            ..NO_COSTS
        },
        pbkdf2_sha256: Costs {
            rounds: 10_000_000,
            ..NO_COSTS
        },
        pbkdf2_sha512: Costs {
            rounds: 10_000_000,
            ..NO_COSTS
        },
        scrypt: Costs {
            ln: 24,
            r: 131_072,
            p: 1_024,
            ..NO_COSTS
        },
        argon2: Costs {
            m: 2_097_152,
            t: 2_097_152,
            p: 262_144,
            ..NO_COSTS
        },
    };
    let line = b"ann:secret\t$5$abcdefgh$gruCpC7VkOTspMQTTSAR8mtlO9Upms.fwqE5y16JVM.\n".as_slice();
    let mut room = [0; 32];
    let mut source = MemorySource::new(line, 100, &[]);
    let mut sink = MemorySink::new(&mut room, 64, &[]);
    assert!(rt; run_users(rt.alloc(), Some(limits), &mut source, &mut sink, 100) == 1);
    assert!(rt; sink.bytes() == b"ann\ttoo-costly\n".as_slice());
}

#[test]
fn long_lines_with_users(rt: HostRuntime) {
    let mut input = [b':'; 8194];
    input[8193] = b'\n';
    let mut room = [0; 16];
    let mut source = MemorySource::new(&input, 8194, &[]);
    let mut sink = MemorySink::new(&mut room, 64, &[]);
    assert!(rt; run_users(rt.alloc(), None, &mut source, &mut sink, 10_000) == 1);
    assert!(rt; sink.bytes() == b"toolong\n".as_slice());
}
