//! The forms of words beside `check`, and each device call failing in turn.

use crate::runs::{Devices, ONE_CALL, SMALL_STEPS, run_over, run_within, runs, words};
use line_io::{MemorySink, MemorySource};
use pwcheck_run::{Words, run};
use std::alloc::{AllocError, Global};
use std::process::Abort;

// Earlier texts, and what `normalize` writes for them.
const EARLIER: &str = "$5$rounds=+05000$saltstring$5B8vYYiY.CVt1RlTTf8KbXBH3hsxY/GNooZaBBGWEc5\n\
    $5$saltstringsaltstring$a5C8Ofk71MUIoKve2QuP9FMl.dwNgseF5tR1LGAL7iB\n\
    $5$rounds=5000$saltstring$5B8vYYiY.CVt1RlTTf8KbXBH3hsxY/GNooZaBBGWEc5\n";

const NORMAL: &str = "$5$rounds=5000$saltstring$5B8vYYiY.CVt1RlTTf8KbXBH3hsxY/GNooZaBBGWEc5\n\
    $5$saltstringsaltst$a5C8Ofk71MUIoKve2QuP9FMl.dwNgseF5tR1LGAL7iB\n\
    $5$rounds=5000$saltstring$5B8vYYiY.CVt1RlTTf8KbXBH3hsxY/GNooZaBBGWEc5\n";

// Lines that `normalize` gives back: a bcrypt text, none, bytes that are no UTF-8, rounds out of range.
const LEFT_ALONE: &[u8] =
    b"$2a$12$R9h/cIPz0gi.URNNX3kh2OPST9/PgBkqquzi.Ss7KIUgO2t0jWMUW\n\n\xff\t$\n$5$rounds=999$s$x\n";

// Two words, an input, the output and the status.
const ROWS: &[(&str, &str, &[u8], &[u8], u8)] = &[
    ("wrap", "4", &[0; 6], b"AAAA\nAAAA", 0),
    ("wrap", "5", &[0; 6], b"AAAAA\nAAA", 0),
    ("wrap", "4", &[0; 7], b"AAAA\nAAAA\nAA==", 0),
    ("wrap", "65536", &[0; 6], b"AAAAAAAA", 0),
    ("wrap", "8", &[0; 6], b"AAAAAAAA", 0),
    ("wrap", "4", b"", b"", 0),
    ("wrap", "3", &[0; 6], b"", 2),
    ("wrap", "65537", &[0; 6], b"", 2),
    ("wrap", "04", &[0; 6], b"", 2),
    ("wrap", "+4", &[0; 6], b"", 2),
    ("wrap", "", &[0; 6], b"", 2),
    ("wraps", "4", &[0; 6], b"", 2),
    ("unwrap", "4", b"AAAA\nAAAA", &[0; 6], 0),
    ("unwrap", "4", b"AAAA\r\nAAAA\r", &[0; 6], 0),
    ("unwrap", "4", b"AAA", b"", 7),
    ("unwrap", "4", b"AA*A\nAAAA", b"", 7),
    ("unwrap", "8", b"AAAA\nAAAA", b"", 7),
    ("unwrap", "4", b"\n", b"", 7),
    ("unwrap", "4", b"AAAA\n\n", b"", 7),
    ("unwrap", "4", b"", b"", 0),
    ("unwrap", "99999999999999999999999999", b"", b"", 2),
    (
        "bench",
        "3",
        b"x",
        b"lines 3 match 3 mismatch 0 other 0\n",
        0,
    ),
    (
        "bench",
        "8",
        b"x",
        b"lines 8 match 6 mismatch 2 other 0\n",
        0,
    ),
    (
        "bench",
        "2000",
        b"",
        b"lines 2000 match 1500 mismatch 500 other 0\n",
        0,
    ),
    ("bench", "0", b"x", b"", 2),
    ("bench", "08", b"x", b"", 2),
    ("bench", "2001", b"x", b"", 2),
    ("normalize", "4", b"x", b"", 2),
];

fn rows() -> &'static [(&'static str, &'static str, &'static [u8], &'static [u8], u8)] {
    ROWS
}

// Lines of each word that a line can have, the last without a line feed.
const LINES: &str = "Hello world!\t$5$saltstring$5B8vYYiY.CVt1RlTTf8KbXBH3hsxY/GNooZaBBGWEc5\n\
    x\t$5$rounds=1000$a$5B8vYYiY.CVt1RlTTf8KbXBH3hsxY/GNooZaBBGWEc5\n\
    no tab\n\
    \t\n\
    \t$-a\n\
    \t$5$$\u{e4}$x\n\
    \t$5$ $x\n\
    \t$5$a\n\
    \t$5$rounds=999$s$x\n\
    \t$x$=1\n\
    \t$x$v=4294967296\n\
    \t$x$a=11111111111111111111111111111111111111111111111111111111111111111\n\
    \t$x$abc\n\
    \t$x$abcdabcdab.\n\
    \t$x$abcdabcdabc$AAAA\n\
    \t$x$abcdabcdabc$AAAAAAAAAAAAAA$b\n\
    \t$x\n\
    \t$x$abcdabcdabc$AAAAAAAAAAAAAA\n\
    \t$scrypt$ln=1,r=1,p=1$abcdabcdabc$AAAAAAAAAAAAAA";

// A constant is written out in each function that names it, so only this one does.
fn lines() -> &'static [u8] {
    LINES.as_bytes()
}

#[test]
fn rows_of_two_words(rt: HostRuntime) {
    for (first, second, input, output, status) in rows() {
        let list = [*first, *second];
        runs(&rt, rt.alloc(), &list, input, &SMALL_STEPS, output, *status);
    }
}

const NORMALIZE: &[&str] = &["normalize"];

#[test]
fn earlier_texts_and_others(rt: HostRuntime) {
    let (earlier, normal) = (EARLIER.as_bytes(), NORMAL.as_bytes());
    runs(&rt, rt.alloc(), NORMALIZE, earlier, &SMALL_STEPS, normal, 0);
    runs(&rt, rt.alloc(), NORMALIZE, normal, &SMALL_STEPS, normal, 0);
    runs(
        &rt,
        rt.alloc(),
        NORMALIZE,
        LEFT_ALONE,
        &SMALL_STEPS,
        LEFT_ALONE,
        0,
    );
}

#[test]
fn a_long_line(rt: HostRuntime) {
    let long = repeated(rt.alloc(), &(b"a", 8_193, b"\n$5")).expect(&rt, "want of memory");
    runs(
        &rt,
        rt.alloc(),
        NORMALIZE,
        &long,
        &SMALL_STEPS,
        b"toolong\n$5\n",
        1,
    );
}

// How many line feeds stand among the first bytes.
fn feeds(bytes: &[u8]) -> usize {
    bytes.iter().filter(|byte| **byte == b'\n').count()
}

// The number of bytes of the first lines of a text.
fn first_lines(text: &[u8], count: usize) -> usize {
    let mut left = count;
    for (at, byte) in text.iter().enumerate() {
        if left == 0 {
            return at;
        }
        if *byte == b'\n' {
            left = left.saturating_sub(1);
        }
    }
    text.len()
}

// Texts of each ending that are wrapped at 4, and the bytes that they stand for.
const WRAPPED: &[&[u8]] = &[
    b"AAAA\nAAAA\nAA==\n",
    b"AAAA\r\nAAAA\r\nAA==",
    b"AAAA\rAAAA\rAA==\r",
];

// What a run writes.
fn whole_output(rt: &impl Abort, alloc: Global, words: &Words, input: &[u8]) -> Vec<u8> {
    let mut room = [0u8; 1_024];
    let mut source = MemorySource::new(input, 4_096, &[]);
    let mut sink = MemorySink::new(&mut room, 1_024, &[]);
    let _ = run(alloc, words, &mut source, &mut sink);
    Vec::from_slice(alloc, sink.bytes()).expect(rt, "want of memory")
}

// A run whose read `call` fails ends with 3, and has written `kept`.
fn failing_read(
    rt: &impl Abort,
    alloc: Global,
    words: &Words,
    input: &[u8],
    read: usize,
    call: usize,
    kept: &[u8],
) {
    let devices = Devices {
        read,
        bad_reads: &[call as u64],
        ..ONE_CALL
    };
    run_over(rt, alloc, words, input, &devices, kept, 3);
}

// A run whose write `call` fails ends with 4, and has written the beginning of the output, with a sink of step 1 its
// first `call` bytes.
fn failing_write(
    rt: &impl Abort,
    alloc: Global,
    words: &Words,
    input: &[u8],
    output: &[u8],
    step: usize,
    call: usize,
) {
    let calls = [call as u64];
    let mut room = [0u8; 1_024];
    let mut source = MemorySource::new(input, 4_096, &[]);
    let mut sink = MemorySink::new(&mut room, step.max(1), &calls);
    let status = run(alloc, words, &mut source, &mut sink);
    assert!(rt; status == 4, "{call}: {status}");
    assert!(rt; output.starts_with(sink.bytes()), "{call}");
    assert!(rt; step > 1 || sink.bytes().len() == call, "{call}");
}

// Each of the first reads fails, of `step` bytes each: the lines that were read whole have their output.
fn failing_reads(
    rt: &impl Abort,
    alloc: Global,
    words: &Words,
    output: &[u8],
    step: usize,
    calls: usize,
) {
    let input = lines();
    for call in 0..calls {
        let taken = call.saturating_mul(step).min(input.len());
        let kept = first_lines(output, feeds(&input[..taken])).min(output.len());
        failing_read(rt, alloc, words, input, step, call, &output[..kept]);
    }
}

fn each_read_fails(rt: &impl Abort, alloc: Global, word: &str) {
    let words = words(rt, alloc, &[word]);
    let output = whole_output(rt, alloc, &words, lines());
    let length = lines().len();
    failing_reads(rt, alloc, &words, &output, 1, length.saturating_add(1));
    failing_reads(
        rt,
        alloc,
        &words,
        &output,
        7,
        (length / 7).saturating_add(1),
    );
    failing_reads(rt, alloc, &words, &output, 4_096, 2);
}

#[test]
fn each_read_failing(rt: HostRuntime) {
    each_read_fails(&rt, rt.alloc(), "check");
    each_read_fails(&rt, rt.alloc(), "normalize");
}

// Each of the first writes fails, of `step` bytes each.
fn failing_writes(
    rt: &impl Abort,
    alloc: Global,
    words: &Words,
    input: &[u8],
    output: &[u8],
    step: usize,
) {
    for call in 0..output.len() / step.max(1) {
        failing_write(rt, alloc, words, input, output, step, call);
    }
}

fn each_write_fails(rt: &impl Abort, alloc: Global, word: &str) {
    let words = words(rt, alloc, &[word]);
    let input = lines();
    let output = whole_output(rt, alloc, &words, input);
    failing_writes(rt, alloc, &words, input, &output, 1);
    failing_writes(rt, alloc, &words, input, &output, 3);
    failing_writes(rt, alloc, &words, input, &output, 64);
}

#[test]
fn each_write_failing(rt: HostRuntime) {
    each_write_fails(&rt, rt.alloc(), "check");
    each_write_fails(&rt, rt.alloc(), "normalize");
}

// Each read and each write of one byte fails, of a form at width 4 that writes so many bytes at least.
fn each_call_fails(rt: &impl Abort, alloc: Global, first: &str, written: usize, input: &[u8]) {
    let words = words(rt, alloc, &[first, "4"]);
    let output = whole_output(rt, alloc, &words, input);
    assert!(rt; output.len() >= written, "{first}");
    for call in 0..input.len().saturating_add(1) {
        failing_read(rt, alloc, &words, input, 1, call, b"");
    }
    failing_writes(rt, alloc, &words, input, &output, 1);
}

#[test]
fn each_call_failing_over_wrapped_texts(rt: HostRuntime) {
    for input in WRAPPED {
        each_call_fails(&rt, rt.alloc(), "unwrap", 7, input);
        each_call_fails(&rt, rt.alloc(), "wrap", 18, input);
    }
}

// A form at width 4, how many bytes of six count, the output and the status.
const BOUNDS: &[(&str, u64, &[u8], u8)] = &[
    ("wrap", 5, b"", 6),
    ("wrap", 6, b"AAAA\nAAAA", 0),
    ("unwrap", 5, b"", 6),
    ("unwrap", 6, b"", 7),
];

#[test]
fn bounds_of_whole_inputs(rt: HostRuntime) {
    for (first, max, output, status) in BOUNDS {
        let list = [*first, "4"];
        run_within(&rt, rt.alloc(), &list, &[0; 6], *max, output, *status);
    }
}

// A text: some bytes so many times, and what stands behind them.
type Repeated = (&'static [u8], usize, &'static [u8]);

fn repeated(alloc: Global, text: &Repeated) -> Result<Vec<u8>, AllocError> {
    let (unit, count, last) = *text;
    let mut bytes = Vec::new(alloc);
    for _ in 0..count {
        bytes.extend_from_slice(unit)?;
    }
    bytes.extend_from_slice(last)?;
    Ok(bytes)
}

// A word, an input, its output and the status, for 10,000 bytes, for 1,048,576, and for one byte more.
const LONG_INPUTS: &[(&str, Repeated, Repeated, u8)] = &[
    (
        "wrap",
        (b"abc", 3_333, b"a"),
        (b"YWJj\n", 3_333, b"YQ=="),
        0,
    ),
    (
        "wrap",
        (b"abc", 349_525, b"a"),
        (b"YWJj\n", 349_525, b"YQ=="),
        0,
    ),
    ("wrap", (b"abc", 349_525, b"ab"), (b"", 0, b""), 6),
    ("unwrap", (b"YWJj\n", 2_000, b""), (b"abc", 2_000, b""), 0),
    (
        "unwrap",
        (b"YWJj\r\n", 174_762, b"YWJj"),
        (b"abc", 174_763, b""),
        0,
    ),
    (
        "unwrap",
        (b"YWJj\r\n", 174_762, b"YWJj\n"),
        (b"", 0, b""),
        6,
    ),
];

// A run at width 4 must write `output` and end with `status`.
fn is_long_run(
    rt: &impl Abort,
    alloc: Global,
    first: &str,
    input: &[u8],
    output: &[u8],
    status: u8,
) {
    let words = words(rt, alloc, &[first, "4"]);
    let length = output.len().saturating_add(1);
    let mut room = Vec::from_elem(alloc, 0u8, length).expect(rt, "want of memory");
    let mut source = MemorySource::new(input, 65_536, &[]);
    let mut sink = MemorySink::new(&mut room, 65_536, &[]);
    let got = run(alloc, &words, &mut source, &mut sink);
    assert!(rt; got == status, "{first}: {got}");
    assert!(rt; sink.bytes() == output, "{first}: {}", output.len());
}

#[test]
fn long_inputs(rt: HostRuntime) {
    for (first, input, output, status) in LONG_INPUTS {
        let input = repeated(rt.alloc(), input).expect(&rt, "want of memory");
        let output = repeated(rt.alloc(), output).expect(&rt, "want of memory");
        is_long_run(&rt, rt.alloc(), first, &input, &output, *status);
    }
}
