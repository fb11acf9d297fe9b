//! Worked lines, bounds and failing devices.

use crate::runs::{Devices, ONE_CALL, SMALL_STEPS, run_over, run_within, runs, words};
use pwcheck_run::word;
use std::alloc::{AllocError, Global};
use std::process::Abort;
use stored_check::{PhcFault, StoredError};

// One line of a password that matches, and the same with another password.
const TWO_LINES: &str = "Hello world!\t$5$saltstring$5B8vYYiY.CVt1RlTTf8KbXBH3hsxY/GNooZaBBGWEc5\n\
    Hello world\t$5$saltstring$5B8vYYiY.CVt1RlTTf8KbXBH3hsxY/GNooZaBBGWEc5\n";

// An input, the output and the status.
const ROWS: &[(&[u8], &str, u8)] = &[
    (b"", "", 0),
    (
        b"Hello world!\t$5$saltstring$5B8vYYiY.CVt1RlTTf8KbXBH3hsxY/GNooZaBBGWEc5\n",
        "match\n",
        0,
    ),
    (
        b"Hello world!\t$5$saltstring$5B8vYYiY.CVt1RlTTf8KbXBH3hsxY/GNooZaBBGWEc5",
        "match\n",
        0,
    ),
    (
        b"Hello world\t$5$saltstring$5B8vYYiY.CVt1RlTTf8KbXBH3hsxY/GNooZaBBGWEc5\n",
        "mismatch\n",
        1,
    ),
    (
        b"Hello world!\t$5$saltstring$5B8vYYiY.CVt1RlTTf8KbXBH3hsxY/GNooZaBBGWEc8\n",
        "mismatch\n",
        1,
    ),
    (
        b"Hello world!\t$5$saltstring$5B8vYYiY.CVt1RlTTf8KbXBH3hsxY/GNooZaBBGWEcL\n",
        "sha-format\n",
        1,
    ),
    (
        b"Hello world!\t$5$saltstring$5B8vYYiY.CVt1RlTTf8KbXBH3hsxY/GNooZaBBGWEcO\n",
        "sha-format\n",
        1,
    ),
    (
        b"Hello world!\t$5$rounds=+05000$saltstring$5B8vYYiY.CVt1RlTTf8KbXBH3hsxY/GNooZaBBGWEc5\n",
        "sha-format\n",
        1,
    ),
    (
        b"Hello world!\t$5$rounds=5000$saltstring$5B8vYYiY.CVt1RlTTf8KbXBH3hsxY/GNooZaBBGWEc5\n",
        "match\n",
        0,
    ),
    (
        b"Hello world!\t$6$saltstring$5B8vYYiY.CVt1RlTTf8KbXBH3hsxY/GNooZaBBGWEc5\n",
        "sha-format\n",
        1,
    ),
    (b"Hello world!\n", "badline\n", 1),
    (b"\n", "badline\n", 1),
    (b"\xff\t$\n", "badline\n", 1),
    (b"a\tb\t\n\tx\r\n", "mcf-delimiter\nmcf-delimiter\n", 1),
    (
        b"tab\tin it\t$5$x$yHbtfs4Y8t6X1xcJemNX.4JQRfUTafA2qQenWGLBee2\n\t$5$x$yHbtfs4Y8t6X1xcJemNX.4JQRfUTafA2qQenWGLBee2",
        "mismatch\nmatch\n",
        1,
    ),
    (
        b"\t$5$saltstring$5B8vYYiY.CVt1RlTTf8KbXBH3hsxY/GNooZaBBGWEc5$\n",
        "mcf-delimiter\n",
        1,
    ),
    (
        b"\t5$saltstring$5B8vYYiY.CVt1RlTTf8KbXBH3hsxY/GNooZaBBGWEc5\n",
        "mcf-delimiter\n",
        1,
    ),
    (
        b"\t$5$$saltstring$5B8vYYiY.CVt1RlTTf8KbXBH3hsxY/GNooZaBBGWEc5\n",
        "mcf-field\n",
        1,
    ),
    (
        b"\t$5$saltstring$5B8vYYiY.CVt1RlTTf8KbXBH3hsxY/GNooZaBBGWEc5=\n",
        "sha-format\n",
        1,
    ),
    (b"\t$5$salt string$x\n", "mcf-encoding\n", 1),
    (b"\t$-a$x\n", "mcf-identifier\n", 1),
    (
        b"\t$2a$12$R9h/cIPz0gi.URNNX3kh2OPST9/PgBkqquzi.Ss7KIUgO2t0jWMUW\n",
        "phc-salt-short\n",
        1,
    ),
    (
        b"\t$argon2d$v=19$m=512,t=3,p=2$5VtWOO3cGWYQHEMaYGbsfQ$AcmqasQgW/wI6wAHAMk4aQ\n",
        "kdf\n",
        1,
    ),
    (
        b"password\t$scrypt$ln=16,r=8,p=1$aM15713r3Xsvxbi31lqr1Q$nFNh2CVHVjNldFVKDHDlm4CbdRSCdEBsjjJxD+iCs5E\n",
        "match\n",
        0,
    ),
    (
        b"password\t$scrypt$ln=16,r=8,p=1$aM15713r3Xsvxbi31lqr1Q\n",
        "no-hash\n",
        1,
    ),
    (
        b"password\t$scrypt$v=019$ln=16,r=8,p=1$aM15713r3Xsvxbi31lqr1Q$nFNh2CVHVjNldFVKDHDlm4CbdRSCdEBsjjJxD+iCs5E\n",
        "phc-value\n",
        1,
    ),
    (
        b"password\t$scrypt$ln=16,r=8,p=1,ln=4$aM15713r3Xsvxbi31lqr1Q$nFNh2CVHVjNldFVKDHDlm4CbdRSCdEBsjjJxD+iCs5E\n",
        "kdf\n",
        1,
    ),
    (
        b"\t$scrypt$ln=4,r=1,p=1$abcdabcdabc$.......................................................................................\n",
        "phc-hash-long\n",
        1,
    ),
    // Tables of scrypt that grow and serve a smaller record after a larger one. The texts are OpenSSL's.
    (
        b"password\t$scrypt$ln=1,r=1,p=1$U29kaXVtQ2hsb3JpZGUuLg$aXeJ8OAWXZrChJSPC3VT+ciipv4fbEZS4cE8anFKgiE\n\
        password\t$scrypt$ln=4,r=1,p=1$U29kaXVtQ2hsb3JpZGUuLg$WrDz6Xexws1Y/UQzk3c+1RN7RoqTJ2sRZTmobThr0dQ\n\
        passwort\t$scrypt$ln=1,r=1,p=1$U29kaXVtQ2hsb3JpZGUuLg$aXeJ8OAWXZrChJSPC3VT+ciipv4fbEZS4cE8anFKgiE\n\
        password\t$scrypt$ln=1,r=1,p=1$U29kaXVtQ2hsb3JpZGUuLg$aXeJ8OAWXZrChJSPC3VT+ciipv4fbEZS4cE8anFKgiE\n",
        "match\nmatch\nmismatch\nmatch\n",
        1,
    ),
    // The salt of 20 bytes, and its first 16, which give the same field.
    (
        b"Hello world!\t$5$saltstringsaltstring$a5C8Ofk71MUIoKve2QuP9FMl.dwNgseF5tR1LGAL7iB\n",
        "sha-format\n",
        1,
    ),
    (
        b"Hello world!\t$5$saltstringsaltst$a5C8Ofk71MUIoKve2QuP9FMl.dwNgseF5tR1LGAL7iB\n",
        "match\n",
        0,
    ),
    (
        b"\t$5$rounds=999$s$x\n\t$5$rounds=0$s$x\n",
        "sha-rounds\nsha-rounds\n",
        1,
    ),
    (b"\t$5$rounds=01000$s$x\n", "sha-format\n", 1),
    (b"\t$6$rounds=x$s\n", "sha-format\n", 1),
    (b"\t$5\n\t$5$a\n", "sha-format\nsha-format\n", 1),
    (
        b"Hello world!\t$6$saltstring$svn8UoSVapNtMuq1ukKS4tPQd8iKwSMHWjl/O817G3uBnIFNjnQJuesI68u4OTLiBFdcbYEdFCoEOfaS35inz1",
        "match\n",
        0,
    ),
    (
        b"Hello world\t$6$saltstring$svn8UoSVapNtMuq1ukKS4tPQd8iKwSMHWjl/O817G3uBnIFNjnQJuesI68u4OTLiBFdcbYEdFCoEOfaS35inz1",
        "mismatch\n",
        1,
    ),
];

fn rows() -> &'static [(&'static [u8], &'static str, u8)] {
    ROWS
}

// The parts of a stored text, of which the second is taken so many times, and the word.
const PHC_CAUSES: &[(&str, &str, usize, &str, &str)] = &[
    ("$", "a", 33, "", "phc-name\n"),
    ("$x$", "=", 1, "1", "phc-name\n"),
    ("$x$a=1", ",", 1, "", "phc-name\n"),
    ("$x$v=", "1", 65, "", "phc-value-long\n"),
    ("$x$a=", "1", 65, "", "phc-value-long\n"),
    ("$x$v=", "4294967296", 1, "", "phc-value\n"),
    ("$x$a=1,", "b", 1, "", "phc-value\n"),
    ("$x$a", "=", 2, "", "phc-value\n"),
    ("$x$a=", "1", 126, "", "phc-params-long\n"),
    ("$x$", "A", 65, "", "phc-salt-long\n"),
    ("$x$", "abcdabcdab.", 1, "", "phc-b64\n"),
    ("$x$abcdabcdabc$", "A", 4, "", "phc-hash-short\n"),
    ("$x$abcdabcdabc$", "A", 14, "$b", "phc-trailing\n"),
    ("$x$abcdabcdabc", "$", 0, "", "no-hash\n"),
    ("$x$abcdabcdabc$", "A", 14, "", "kdf\n"),
];

fn phc_causes() -> &'static [(
    &'static str,
    &'static str,
    usize,
    &'static str,
    &'static str,
)] {
    PHC_CAUSES
}

// An input of `check --count`, the output and the status. Each line has fresh counts.
const COUNTED: &[(&str, &str, u8)] = &[
    (
        TWO_LINES,
        "match looks=44 sames=36\nmismatch looks=44 sames=36\n",
        1,
    ),
    (
        "Hello world!\t$5$saltstring$5B8vYYiY.CVt1RlTTf8KbXBH3hsxY/GNooZaBBGWEc5\n",
        "match looks=44 sames=36\n",
        0,
    ),
    (
        "Hello world!\t$5$saltstring$5B8vYYiY.CVt1RlTTf8KbXBH3hsxY/GNooZaBBGWEcL\n",
        "sha-format\n",
        1,
    ),
    (
        "Hello world!\t$6$saltstring$svn8UoSVapNtMuq1ukKS4tPQd8iKwSMHWjl/O817G3uBnIFNjnQJuesI68u4OTLiBFdcbYEdFCoEOfaS35inz1\n",
        "match looks=88 sames=68\n",
        0,
    ),
    (
        "password\t$scrypt$ln=16,r=8,p=1$aM15713r3Xsvxbi31lqr1Q$nFNh2CVHVjNldFVKDHDlm4CbdRSCdEBsjjJxD+iCs5E\nx\n",
        "match looks=68 sames=40\nbadline\n",
        1,
    ),
];

fn counted() -> &'static [(&'static str, &'static str, u8)] {
    COUNTED
}

// How many bytes of a stored text are kept, and the word.
const PREFIXES: &[(usize, usize, &str)] = &[
    (0, 2, "mcf-delimiter\n"),
    (2, 3, "sha-format\n"),
    (3, 4, "mcf-delimiter\n"),
    (4, 14, "sha-format\n"),
    (14, 15, "mcf-delimiter\n"),
    (15, 36, "sha-format\n"),
    (36, 57, "sha-format\n"),
    (57, 58, "match\n"),
];

// A stored text of scrypt, how many of its bytes are kept, and the word.
const SCRYPT_TEXT: &str =
    "password\t$scrypt$ln=16,r=8,p=1$aM15713r3Xsvxbi31lqr1Q$nFNh2CVHVjNldFVKDHDlm4CbdRSCdEBsjjJxD+iCs5E";

const SCRYPT_PREFIXES: &[(&[usize], &str)] = &[
    (&[0, 1, 8, 22, 45], "mcf-delimiter\n"),
    (
        &[
            2, 3, 4, 5, 6, 7, 11, 12, 13, 16, 17, 20, 21, 33, 34, 38, 42, 44,
        ],
        "no-hash\n",
    ),
    (
        &[9, 10, 23, 24, 25, 26, 27, 28, 29, 30, 31, 32],
        "phc-salt-short\n",
    ),
    (&[14, 18], "phc-name\n"),
    (&[15, 19], "phc-value\n"),
    (&[35, 36, 37, 39, 40, 41, 43], "phc-b64\n"),
    (&[49], "phc-hash-short\n"),
    (&[46, 50, 87], "phc-b64\n"),
    (&[61], "match\n"),
];

// The step of a source, the call of it that fails, and the output before status 3.
const FAILING_READS: &[(usize, u64, &str)] = &[
    (8, 0, ""),
    (8, 8, ""),
    (8, 9, "match\n"),
    (8, 17, "match\n"),
    (8, 18, "match\nmismatch\n"),
    (16384, 1, "match\nmismatch\n"),
];

// A line that matches.
const LINE: &str = "Hello world!\t$5$saltstring$5B8vYYiY.CVt1RlTTf8KbXBH3hsxY/GNooZaBBGWEc5\n";

// What stands before some letters, how many there are, what stands behind them, and the output.
const LENGTHS: &[(&str, usize, &str, &str)] = &[
    ("", 4_096, "\t$\n", "mcf-delimiter\nmatch\n"),
    ("", 4_097, "\t$\n", "password-too-long\nmatch\n"),
    ("", 8_192, "\n", "badline\nmatch\n"),
    ("", 8_193, "\n", "toolong\nmatch\n"),
    (LINE, 20_000, "\n", "match\ntoolong\nmatch\n"),
];

fn lengths() -> &'static [(&'static str, usize, &'static str, &'static str)] {
    LENGTHS
}

// An input, the writes that fail, the output and the status. A line with a verdict is written at once; other words
// wait.
const WRITES: &[(&str, &[u64], &str, u8)] = &[
    (TWO_LINES, &[], "match\nmismatch\n", 1),
    (TWO_LINES, &[1], "match\n", 4),
    ("x\n\t\n", &[1], "badline\nmcf-delimiter\n", 1),
    ("x\n\t\n", &[0], "", 4),
    (
        "x\nHello world!\t$5$saltstring$5B8vYYiY.CVt1RlTTf8KbXBH3hsxY/GNooZaBBGWEc5\nx\n",
        &[1],
        "badline\nmatch\n",
        4,
    ),
];

fn writes() -> &'static [(&'static str, &'static [u64], &'static str, u8)] {
    WRITES
}

// A constant is written out in each function that names it, so only this one does.
fn two_lines() -> &'static str {
    TWO_LINES
}

const CHECK: &[&str] = &["check"];

#[test]
fn lines_and_their_words(rt: HostRuntime) {
    for (input, output, status) in rows() {
        let output = output.as_bytes();
        runs(&rt, rt.alloc(), CHECK, input, &ONE_CALL, output, *status);
    }
}

// The front of a line is answered by a word.
fn is_answered(rt: &impl Abort, alloc: Global, line: &str, kept: usize, word: &str) {
    let line = line.as_bytes();
    let input = &line[..kept.min(line.len())];
    let status = if word == "match\n" { 0 } else { 1 };
    runs(rt, alloc, CHECK, input, &ONE_CALL, word.as_bytes(), status);
}

#[test]
fn prefixes_of_stored_texts(rt: HostRuntime) {
    assert!(rt; two_lines().len() == 141);
    for (from, to, word) in PREFIXES {
        for kept in *from..*to {
            is_answered(&rt, rt.alloc(), two_lines(), kept.saturating_add(13), word);
        }
    }
}

#[test]
fn prefixes_of_a_record_of_scrypt(rt: HostRuntime) {
    assert!(rt; SCRYPT_TEXT.len() == 97);
    for (lengths, word) in SCRYPT_PREFIXES {
        for kept in *lengths {
            is_answered(&rt, rt.alloc(), SCRYPT_TEXT, kept.saturating_add(9), word);
        }
    }
}

// A tab, and a text of which the second part is taken so many times.
fn line_of(
    alloc: Global,
    front: &str,
    middle: &str,
    count: usize,
    back: &str,
) -> Result<String, AllocError> {
    let mut line = String::from_str(alloc, "\t")?;
    line.push_str(front)?;
    for _ in 0..count {
        line.push_str(middle)?;
    }
    line.push_str(back)?;
    Ok(line)
}

#[test]
fn causes_of_phc_texts(rt: HostRuntime) {
    for (front, middle, count, back, word) in phc_causes() {
        let line = line_of(rt.alloc(), front, middle, *count, back).expect(&rt, "want of memory");
        is_answered(&rt, rt.alloc(), &line, line.len(), word);
    }
}

const COUNT: &[&str] = &["check", "--count"];

#[test]
fn lines_and_their_counts(rt: HostRuntime) {
    for (input, output, status) in counted() {
        let (input, output) = (input.as_bytes(), output.as_bytes());
        runs(&rt, rt.alloc(), COUNT, input, &ONE_CALL, output, *status);
    }
}

#[test]
fn words_of_answers(rt: HostRuntime) {
    assert!(rt; word(&Ok(true)) == "match");
    assert!(rt; word(&Err(StoredError::PasswordTooLong)) == "password-too-long");
    let long = StoredError::Phc(PhcFault::Base64(base64ct::Error::InvalidLength));
    assert!(rt; word(&Err(long)) == "phc-hash-long");
}

// A text before letters, how many they are, a text after them, and a line that matches.
fn long_line(alloc: Global, front: &str, count: usize, back: &str) -> Result<Vec<u8>, AllocError> {
    let mut input = Vec::from_slice(alloc, front.as_bytes())?;
    input.resize(front.len().saturating_add(count), b'a')?;
    input.extend_from_slice(back.as_bytes())?;
    input.extend_from_slice(LINE.as_bytes())?;
    Ok(input)
}

const BY_ONE: Devices<'static> = Devices {
    read: 1,
    ..ONE_CALL
};

const BY_SEVEN: Devices<'static> = Devices {
    read: 7,
    ..ONE_CALL
};

fn is_read(rt: &impl Abort, alloc: Global, input: &[u8], output: &[u8]) {
    runs(rt, alloc, CHECK, input, &BY_ONE, output, 1);
    runs(rt, alloc, CHECK, input, &BY_SEVEN, output, 1);
    runs(rt, alloc, CHECK, input, &ONE_CALL, output, 1);
}

#[test]
fn lines_by_length(rt: HostRuntime) {
    for (front, count, back, output) in lengths() {
        let input = long_line(rt.alloc(), front, *count, back).expect(&rt, "want of memory");
        is_read(&rt, rt.alloc(), &input, output.as_bytes());
    }
}

// How many bytes of the two lines count, the output and the status.
const BOUNDS: &[(u64, &[u8], u8)] = &[
    (70, b"", 6),
    (71, b"match\n", 6),
    (140, b"match\n", 6),
    (141, b"match\nmismatch\n", 1),
];

#[test]
fn bounds_on_the_input(rt: HostRuntime) {
    let input = two_lines().as_bytes();
    for (max, output, status) in BOUNDS {
        run_within(&rt, rt.alloc(), CHECK, input, *max, output, *status);
    }
}

fn is_read_in_part(rt: &impl Abort, alloc: Global, read: usize, call: u64, output: &str) {
    let devices = Devices {
        read,
        bad_reads: &[call],
        ..ONE_CALL
    };
    let input = two_lines().as_bytes();
    runs(rt, alloc, CHECK, input, &devices, output.as_bytes(), 3);
}

#[test]
fn failing_reads(rt: HostRuntime) {
    for (read, call, output) in FAILING_READS {
        is_read_in_part(&rt, rt.alloc(), *read, *call, output);
    }
}

fn is_written_in_part(rt: &impl Abort, alloc: Global, call: usize) {
    let devices = Devices {
        write: 1,
        bad_writes: &[call as u64],
        ..ONE_CALL
    };
    let output = b"match\nmismatch\n";
    let written = &output[..call.min(output.len())];
    runs(
        rt,
        alloc,
        CHECK,
        two_lines().as_bytes(),
        &devices,
        written,
        4,
    );
}

#[test]
fn each_write_of_two_words_failing(rt: HostRuntime) {
    for call in 0..15usize {
        is_written_in_part(&rt, rt.alloc(), call);
    }
}

fn is_written_as(rt: &impl Abort, alloc: Global, row: &(&str, &[u64], &str, u8)) {
    let (input, bad_writes, output, status) = *row;
    let devices = Devices {
        bad_writes,
        ..ONE_CALL
    };
    let (input, output) = (input.as_bytes(), output.as_bytes());
    runs(rt, alloc, CHECK, input, &devices, output, status);
}

#[test]
fn when_words_are_written(rt: HostRuntime) {
    for row in writes() {
        is_written_as(&rt, rt.alloc(), row);
    }
}

// Command lines that are refused.
const OTHER_WORDS: &[&[&str]] = &[
    &[],
    &["Check"],
    &["checks"],
    &["chec"],
    &["check", "check"],
    &["check", "--Count"],
    &["check", "--count", "x"],
    &["--count", "check"],
    &["bench"],
    &["wrap", "4", "4"],
    &["Normalize"],
    &["normalize", "x"],
    &[""],
];

const NO_CALL: Devices<'static> = Devices {
    bad_reads: &[0],
    bad_writes: &[0],
    ..SMALL_STEPS
};

fn are_refused(rt: &impl Abort, alloc: Global, list: &[&str]) {
    let words = words(rt, alloc, list);
    assert!(rt; words.len() == list.len(), "{list:?}");
    run_over(rt, alloc, &words, two_lines().as_bytes(), &NO_CALL, b"", 2);
}

#[test]
fn other_words(rt: HostRuntime) {
    for list in OTHER_WORDS {
        are_refused(&rt, rt.alloc(), list);
    }
}

#[test]
fn words_by_number(rt: HostRuntime) {
    let words = words(&rt, rt.alloc(), COUNT);
    assert!(rt; words.get(0) == Some("check"));
    assert!(rt; words.get(1) == Some("--count"));
    assert!(rt; words.get(2).is_none());
}
