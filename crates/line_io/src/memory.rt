// A source and a sink in memory, which fail at the calls that are listed.
ghost use Rattle.std.specs.Prelude.{◌≡◌, ◌≤◌, ◌<◌, ◌+◌, ◌-◌, [], length, min, nat_lt, is_err, ◌==◌, ◌&&◌, ◌||◌, IfOk, OnErr, Some, if◌then◌else◌};
ghost use Rattle.std.specs.Io.{ReadsAtMost, WritesAtMost};
ghost use Rattle.std.specs.Io.KnownBytes.{ReadConsumes, WriteAppends};
ghost use Rattle.line_io.specs.Devices.{WritesSome};
ghost use Rattle.pieces.specs.FaultCounts.{HasRisen, one_more};

use crate::{Failed, Sink, Source};

/// A source of the bytes of a slice, which gives at most `step` of them at a read.
///
/// Its reads are numbered from 0, and a read fails exactly where its number is listed in `failing`.
/// The number stays at `u64::MAX` once it is reached.
#[derive(Debug, Drop)]
pub struct MemorySource<'a> {
    rest: &'a [u8],
    step: usize,
    failing: &'a [u64],
    calls: u64,
    faults: u64,
    ghost steps: { 0 < step },
}

impl<'a> MemorySource<'a> {
    ghost use Rattle.line_io.specs.Memory.{source_left, source_step, source_failing, source_calls, source_faults};

    /// A source with all of `bytes` left. `step` is at least 1.
    pub fn new(bytes: &'a [u8], step: usize, failing: &'a [u64]) -> MemorySource<'a>
        requires { 0 < step }
        ensures left { source_left result ≡ bytes.entry.now }
        ensures step { source_step result ≡ step }
        ensures failing { source_failing result ≡ failing.entry.now }
        ensures calls { source_calls result ≡ 0 }
        ensures faults { source_faults result ≡ 0 }
    {
        MemorySource {
            rest: bytes,
            step,
            failing,
            calls: 0,
            faults: 0,
        }
    }
}

impl Source for MemorySource<'_> {
    ghost use Rattle.line_io.specs.Memory.{is_listed, source_left, source_step, source_failing, source_calls, source_faults};

    ghost left = { λ s. Some (source_left s) };

    ghost faults = { λ s. source_faults s };

    fn read(&mut self, buf: &mut [u8]) -> Result<usize, Failed>
        ensures bound { ReadsAtMost result buf.new }
        ensures bytes { ReadConsumes (Some (source_left self.old)) (Some (source_left self.new)) result buf.new }
        ensures count { source_faults self.old ≤ source_faults self.new }
        ensures cause { OnErr result (HasRisen (source_faults self.old) (source_faults self.new)) }

        // It fails exactly where its number is listed, and its count rises by one there and nowhere else.
        ensures fails { is_err result ≡ is_listed (source_failing self.old) (source_calls self.old) }
        ensures faults { source_faults self.new ≡
            (if is_err result then one_more (source_faults self.old) else source_faults self.old) }
        ensures unlisted { source_failing self.old ≡ [] → source_faults self.new ≡ source_faults self.old }

        // Else it gives as many bytes as the step, the buffer and what is left allow.
        ensures amount { IfOk result (λ n. n ≡
            min (source_step self.old) (min (length buf.old) (length (source_left self.old)))) }
        ensures calls { source_calls self.new ≡ one_more (source_calls self.old) }
        ensures step { source_step self.new ≡ source_step self.old }
        ensures failing { source_failing self.new ≡ source_failing self.old }
    {
        let number = self.calls;
        self.calls = number.saturating_add(1);
        if self.failing.contains(&number) {
            self.faults = self.faults.saturating_add(1);
            return Err(Failed);
        }
        let count = self.step.min(buf.len()).min(self.rest.len());
        buf[..count].copy_from_slice(&self.rest[..count]);
        self.rest = &self.rest[count..];
        Ok(count)
    }
}

/// A sink into a slice, which takes at most `step` bytes at a write.
///
/// Its writes are numbered from 0, and a write fails exactly where its number is listed in `failing`
/// or a nonempty piece meets a full room. The number stays at `u64::MAX` once it is reached.
#[derive(Debug, Drop)]
pub struct MemorySink<'a> {
    room: &'a mut [u8],
    used: usize,
    step: usize,
    failing: &'a [u64],
    calls: u64,
    faults: u64,
    ghost steps: { 0 < step },
    ghost fits: { used ≤ length room.now },
}

impl<'a> MemorySink<'a> {
    ghost use Rattle.line_io.specs.Memory.{sink_written, sink_room, sink_step, sink_failing, sink_calls, sink_faults};

    /// A sink with nothing written. `step` is at least 1.
    pub fn new(room: &'a mut [u8], step: usize, failing: &'a [u64]) -> MemorySink<'a>
        requires { 0 < step }
        ensures written { sink_written result ≡ [] }
        ensures room { sink_room result ≡ length room.entry.now }
        ensures step { sink_step result ≡ step }
        ensures failing { sink_failing result ≡ failing.entry.now }
        ensures calls { sink_calls result ≡ 0 }
        ensures faults { sink_faults result ≡ 0 }
    {
        MemorySink {
            room,
            used: 0,
            step,
            failing,
            calls: 0,
            faults: 0,
        }
    }

    /// What was written.
    pub fn bytes(&self) -> &[u8]
        ensures { result.now ≡ sink_written self.now }
    {
        &self.room[..self.used]
    }
}

impl Sink for MemorySink<'_> {
    ghost use Rattle.line_io.specs.Memory.{is_listed, sink_written, sink_room, sink_step, sink_failing, sink_calls, sink_faults};

    ghost written = { λ s. Some (sink_written s) };

    ghost faults = { λ s. sink_faults s };

    fn write(&mut self, piece: &[u8]) -> Result<usize, Failed>
        ensures bound { WritesAtMost result piece.now }
        ensures some { WritesSome result piece.now }
        ensures bytes { WriteAppends (Some (sink_written self.old)) (Some (sink_written self.new)) result piece.now }
        ensures count { sink_faults self.old ≤ sink_faults self.new }
        ensures cause { OnErr result (HasRisen (sink_faults self.old) (sink_faults self.new)) }

        // It fails exactly where its number is listed or a nonempty piece meets a full room,
        // and its count rises by one there and nowhere else.
        ensures fails { is_err result ≡ is_listed (sink_failing self.old) (sink_calls self.old)
            || ((length (sink_written self.old) == sink_room self.old) && nat_lt 0 (length piece.now)) }
        ensures faults { sink_faults self.new ≡
            (if is_err result then one_more (sink_faults self.old) else sink_faults self.old) }
        ensures unlisted { sink_failing self.old ≡ [] →
            (0 < length piece.now → length (sink_written self.old) < sink_room self.old) →
            sink_faults self.new ≡ sink_faults self.old }

        // Else it takes as many bytes as the step, the piece and the free part of the room allow.
        ensures amount { IfOk result (λ n. n ≡ min (sink_step self.old)
            (min (length piece.now) (sink_room self.old - length (sink_written self.old)))) }
        ensures calls { sink_calls self.new ≡ one_more (sink_calls self.old) }
        ensures room { sink_room self.new ≡ sink_room self.old }
        ensures step { sink_step self.new ≡ sink_step self.old }
        ensures failing { sink_failing self.new ≡ sink_failing self.old }
    {
        let number = self.calls;
        self.calls = number.saturating_add(1);
        let free = self.room.len() - self.used;
        if self.failing.contains(&number) || (free == 0 && !piece.is_empty()) {
            self.faults = self.faults.saturating_add(1);
            return Err(Failed);
        }
        let count = self.step.min(piece.len()).min(free);
        let used = self.used;
        self.room[used..used + count].copy_from_slice(&piece[..count]);
        self.used = used + count;
        Ok(count)
    }
}
