//! Runs of the program over a source and a sink in memory, for the tests.

use line_io::{MemorySink, MemorySource};
use pwcheck_run::{Words, run, run_limited};
use std::alloc::Global;
use std::process::Abort;

/// The words of a command line.
pub fn words(rt: &impl Abort, alloc: Global, list: &[&str]) -> Words {
    let mut words = Words::new(alloc);
    for word in list {
        words.push(word).expect(rt, "want of memory");
    }
    words
}

/// How the source gives its bytes and the sink takes them.
#[derive(Clone, Copy)]
pub struct Devices<'a> {
    /// The most bytes of a read.
    pub read: usize,
    /// The reads that fail.
    pub bad_reads: &'a [u64],
    /// The most bytes of a write.
    pub write: usize,
    /// The writes that fail.
    pub bad_writes: &'a [u64],
}

/// Few bytes at a call, and no fault.
pub const SMALL_STEPS: Devices<'static> = Devices {
    read: 3,
    bad_reads: &[],
    write: 7,
    bad_writes: &[],
};

/// All at one call, and no fault.
pub const ONE_CALL: Devices<'static> = Devices {
    read: 16_384,
    bad_reads: &[],
    write: 1_024,
    bad_writes: &[],
};

// The status of a run, and whether it writes `output`.
fn ran(
    alloc: Global,
    words: &Words,
    input: &[u8],
    devices: &Devices<'_>,
    output: &[u8],
) -> (u8, bool) {
    let mut room = [0u8; 1_024];
    let mut source = MemorySource::new(input, devices.read.max(1), devices.bad_reads);
    let mut sink = MemorySink::new(&mut room, devices.write.max(1), devices.bad_writes);
    let status = run(alloc, words, &mut source, &mut sink);
    (status, sink.bytes() == output)
}

/// A run over these words must write `output` and end with `status`.
pub fn run_over(
    rt: &impl Abort,
    alloc: Global,
    words: &Words,
    input: &[u8],
    devices: &Devices<'_>,
    output: &[u8],
    status: u8,
) {
    let (got, is_written) = ran(alloc, words, input, devices, output);
    if got != status || !is_written {
        panic!(rt;
            "{input:?} by {} and {}, without {:?} and {:?}: status {got}, and not {output:?} and {status}",
            devices.read, devices.write, devices.bad_reads, devices.bad_writes
        );
    }
}

/// The same of a command line.
pub fn runs(
    rt: &impl Abort,
    alloc: Global,
    list: &[&str],
    input: &[u8],
    devices: &Devices<'_>,
    output: &[u8],
    status: u8,
) {
    let words = words(rt, alloc, list);
    run_over(rt, alloc, &words, input, devices, output, status);
}

/// A run of which `max` bytes of the input count must write `output` and end with `status`.
pub fn run_within(
    rt: &impl Abort,
    alloc: Global,
    list: &[&str],
    input: &[u8],
    max: u64,
    output: &[u8],
    status: u8,
) {
    assert!(rt; max <= 1_000);
    let words = words(rt, alloc, list);
    let mut room = [0u8; 64];
    let mut source = MemorySource::new(input, 1, &[]);
    let mut sink = MemorySink::new(&mut room, 7, &[]);
    let got = run_limited(alloc, &words, &mut source, &mut sink, max);
    assert!(rt; got == status, "{max}: status {got}");
    assert!(rt; sink.bytes() == output, "{max}");
}
