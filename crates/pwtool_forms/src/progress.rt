//! How far a run is, on standard error, by what it has read.

use std::io;
use std::io::{IsTerminal, Read};
use std::time::{Duration, Instant};

/// Tells how many lines of a file are read, how fast, and how long the rest takes: once a second, on a terminal in one line that is
/// renewed.
#[derive(Drop)]
pub struct Progress<'a> {
    rt: &'a HostRuntime,
    name: &'a str,
    started: Instant,
    told: Option<Instant>,
    total: Option<u64>,
    bytes: u64,
    lines: u64,
    is_renewed: bool,
}

// The line feeds in these bytes.
fn line_feeds(bytes: &[u8]) -> u64 {
    let mut count: u64 = 0;
    for b in bytes {
        if *b == b'\n' {
            count = count.saturating_add(1);
        }
    }
    count
}

// The seconds that the bytes which are left take at this speed.
fn seconds_left(total: Option<u64>, bytes: u64, seconds: u64) -> Option<u64> {
    let speed = bytes.checked_div(seconds)?;
    total?.saturating_sub(bytes).checked_div(speed)
}

impl<'a> Progress<'a> {
    /// A run that begins now, over a file of so many bytes if that is known; none where the system has no clock.
    pub fn new(rt: &'a HostRuntime, name: &'a str, total: Option<u64>) -> Option<Progress<'a>> {
        let started = Instant::now(rt).ok()?;
        Some(Progress {
            rt,
            name,
            started,
            told: None,
            total,
            bytes: 0,
            lines: 0,
            is_renewed: rt.stderr().is_terminal(),
        })
    }

    // Takes what was read into account, and tells of it where a second has gone since it last told.
    fn add(&mut self, bytes: &[u8]) {
        self.bytes = self.bytes.saturating_add(bytes.len() as u64);
        self.lines = self.lines.saturating_add(line_feeds(bytes));
        let Ok(now) = Instant::now(self.rt) else {
            return;
        };
        if now.duration_since(self.told.unwrap_or(self.started)) >= Duration::from_secs(1) {
            self.told = Some(now);
            self.tell(now.duration_since(self.started).as_secs());
        }
    }

    // Tells of a run of so many seconds.
    fn tell(&self, seconds: u64) {
        let (rt, name, lines) = (self.rt, self.name, self.lines);
        let speed = lines.checked_div(seconds).unwrap_or(lines);
        let (begin, end) = if self.is_renewed {
            ("\r", "\u{1b}[K")
        } else {
            ("", "\n")
        };
        let _ = match seconds_left(self.total, self.bytes, seconds) {
            Some(left) => eprint!(rt;
                "{begin}pwtool: {name}: lines: {lines}, in a second: {speed}, seconds left: {left}{end}"
            ),
            None => {
                eprint!(rt; "{begin}pwtool: {name}: lines: {lines}, in a second: {speed}{end}")
            }
        };
    }

    // Takes away the line that was renewed.
    fn finish(&mut self) {
        if self.is_renewed && self.told.is_some() {
            self.told = None;
            let _ = eprint!(self.rt; "\r\u{1b}[K");
        }
    }
}

/// A reader whose bytes are counted, and told of where that is asked for.
#[derive(Drop)]
pub struct Watched<'a, R: Read + Drop> {
    reader: R,
    progress: Option<Progress<'a>>,
}

impl<'a, R: Read + Drop> Watched<'a, R> {
    /// A reader of which nothing is read yet.
    pub fn new(reader: R, progress: Option<Progress<'a>>) -> Watched<'a, R> {
        Watched { reader, progress }
    }
}

impl<'a, R: Read + Drop> Read for Watched<'a, R> {
    fn read(&mut self, buffer: &mut [u8]) -> io::Result<usize> {
        let count = self.reader.read(buffer)?;
        if let Some(progress) = &mut self.progress {
            if count == 0 {
                progress.finish();
            } else {
                progress.add(&buffer[..count]);
            }
        }
        Ok(count)
    }
}
