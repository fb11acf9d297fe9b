//! Lines of a password and a stored text. The texts are those of openssl, libxcrypt's crypt and the program argon2.

use any_check::{Costs, NO_COSTS, SchemeCosts};
use line_io::{MemorySink, MemorySource};
use shadow_check::run_any;

const LINES: &[u8] = b"secret\t$1$abcdefgh$cHJi5PXp/ki/ktXzqlk6I1\n\
    Secret\t$2b$04$abcdefghijklmnopqrstuu2r9OfJnfCsdneAXAGHnS4UpFFP8WIrW\n\
    a\tb\t*\nno tab\n\xff\t*\nsec\0ret\t$2y$05$abcdefghijklmnopqrstuuOQiyCxlgf/oeuTqixKmWdcYUh4Hjl0a\n\
    secret\t$argon2d$v=19$m=128,t=1,p=1$c2FsdHNhbHRzYWx0$cnmEAHaXnZyNK8al32lcZA";

#[test]
fn lines(rt: HostRuntime) {
    let limits = SchemeCosts {
        sha_crypt: Costs {
            rounds: 5_000,
            ..NO_COSTS
        },
        bcrypt: Costs {
            cost: 5,
            ..NO_COSTS
        },
        yescrypt: Costs {
            ln: 10,
            r: 8,
            t: 2,
            ..NO_COSTS
        },
        pbkdf2_sha256: Costs {
            rounds: 1_000,
            ..NO_COSTS
        },
        pbkdf2_sha512: Costs {
            rounds: 1_000,
            ..NO_COSTS
        },
        scrypt: Costs {
            ln: 6,
            r: 8,
            p: 2,
            ..NO_COSTS
        },
        argon2: Costs {
            m: 64,
            t: 2,
            p: 2,
            ..NO_COSTS
        },
    };
    for (limits, step, words) in [
        (
            None,
            7,
            b"match\nmismatch\nno-scheme\nbadline\nbadline\nzero-byte\nmatch\n".as_slice(),
        ),
        (
            Some(limits),
            100,
            b"match\nmismatch\nno-scheme\nbadline\nbadline\nzero-byte\ntoo-costly\n",
        ),
    ] {
        let mut room = [0; 100];
        let mut source = MemorySource::new(LINES, 50, &[]);
        let mut sink = MemorySink::new(&mut room, step, &[]);
        let status = run_any(rt.alloc(), limits, &mut source, &mut sink, 1000);
        assert!(rt; status == 1, "{step}: {status}");
        assert!(rt; sink.bytes() == words, "{step}");
    }
}

// The most bytes of a read and the read that fails, the same of a write, the bound, the output and the status.
type Devices = (usize, &'static [u64], usize, &'static [u64], u64);

const STATUSES: [(Devices, &[u8], u8); 4] = [
    ((64, &[], 64, &[], 64), b"match\n", 0),
    ((20, &[1], 64, &[], 64), b"", 3),
    ((64, &[], 4, &[1], 64), b"matc", 4),
    ((64, &[], 64, &[], 20), b"", 6),
];

#[test]
fn statuses(rt: HostRuntime) {
    let line = b"secret\t$1$abcdefgh$cHJi5PXp/ki/ktXzqlk6I1\n".as_slice();
    for ((read, bad_reads, write, bad_writes, max), output, status) in STATUSES {
        assert!(rt; read >= 1 && write >= 1 && max <= 64);
        let mut room = [0; 16];
        let mut source = MemorySource::new(line, read, bad_reads);
        let mut sink = MemorySink::new(&mut room, write, bad_writes);
        let got = run_any(rt.alloc(), None, &mut source, &mut sink, max);
        assert!(rt; got == status, "{status}: {got}");
        assert!(rt; sink.bytes() == output, "{status}");
    }
}

#[test]
fn long_lines(rt: HostRuntime) {
    let mut input = [b'a'; 8194];
    input[8193] = b'\n';
    let mut room = [0; 16];
    let mut source = MemorySource::new(&input, 8194, &[]);
    let mut sink = MemorySink::new(&mut room, 64, &[]);
    assert!(rt; run_any(rt.alloc(), None, &mut source, &mut sink, 10_000) == 1);
    assert!(rt; sink.bytes() == b"toolong\n".as_slice());
}

// An input, the writes that fail, the output and the status. A line with a verdict is written at once: the second write comes
// behind it. Other words wait.
const WRITES: [(&[u8], &[u64], &[u8], u8); 6] = [
    (TWO_VERDICTS, &[], b"match\nmismatch\n", 1),
    (TWO_VERDICTS, &[1], b"match\n", 4),
    (
        b"x\nsecret\t$1$abcdefgh$cHJi5PXp/ki/ktXzqlk6I1\nx\n",
        &[1],
        b"badline\nmatch\n",
        4,
    ),
    (
        b"Secret\t$1$abcdefgh$cHJi5PXp/ki/ktXzqlk6I1\nx\n",
        &[1],
        b"mismatch\n",
        4,
    ),
    (b"x\na\t*\n", &[1], b"badline\nno-scheme\n", 1),
    (b"x\na\t*\n", &[0], b"", 4),
];

const TWO_VERDICTS: &[u8] = b"secret\t$1$abcdefgh$cHJi5PXp/ki/ktXzqlk6I1\n\
    Secret\t$1$abcdefgh$cHJi5PXp/ki/ktXzqlk6I1\n";

#[test]
fn written_behind_a_verdict(rt: HostRuntime) {
    for (input, failing, output, status) in WRITES {
        let mut room = [0; 32];
        let mut source = MemorySource::new(input, 1_000, &[]);
        let mut sink = MemorySink::new(&mut room, 1_000, failing);
        let got = run_any(rt.alloc(), None, &mut source, &mut sink, 1_000);
        assert!(rt; got == status, "{output:?}: {got}");
        assert!(rt; sink.bytes() == output, "{output:?}");
    }
}
