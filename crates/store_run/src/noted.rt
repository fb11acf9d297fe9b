//! Why a read or a write of a stream failed.

use std::io;
use std::io::{ErrorKind, Read, Write};

/// A reader or a writer that keeps why a call last failed.
#[derive(Drop)]
pub(crate) struct Noted<S: Drop> {
    stream: S,
    fault: Option<ErrorKind>,
}

impl<S: Drop> Noted<S> {
    /// A stream of which no call has failed.
    pub fn new(stream: S) -> Noted<S> {
        Noted {
            stream,
            fault: None,
        }
    }

    /// Why the last call failed, if one did.
    pub fn fault(&self) -> Option<ErrorKind> {
        self.fault
    }
}

impl<R: Read + Drop> Read for Noted<R> {
    fn read(&mut self, buffer: &mut [u8]) -> io::Result<usize> {
        match self.stream.read(buffer) {
            Ok(count) => Ok(count),
            Err(error) => {
                self.fault = Some(error.kind());
                Err(error)
            }
        }
    }
}

impl<W: Write + Drop> Write for Noted<W> {
    fn write(&mut self, piece: &[u8]) -> io::Result<usize> {
        match self.stream.write(piece) {
            Ok(count) => Ok(count),
            Err(error) => {
                self.fault = Some(error.kind());
                Err(error)
            }
        }
    }

    fn flush(&mut self) -> io::Result<()> {
        match self.stream.flush() {
            Ok(()) => Ok(()),
            Err(error) => {
                self.fault = Some(error.kind());
                Err(error)
            }
        }
    }
}
