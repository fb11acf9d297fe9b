//! Errors of one line on standard error.

use file_device::{DeviceFault, FileDevice, OpenFault};
use line_log::OpenError;
use std::io::{Error, ErrorKind};

/// Why no file is opened where a standard stream is closed: the file would take its place.
pub const STREAM_CLOSED: &str = "standard input, output or error is closed";

/// The program that speaks, and the file that it speaks of, by their names.
#[derive(Clone, Copy, Debug)]
pub struct Speaker<'a> {
    pub program: &'a str,
    pub file: &'a str,
}

/// Why a call of the file failed, where the device tells, and the name of the new file that would have replaced it.
#[derive(Clone, Copy, Debug)]
pub struct Failure<'a> {
    pub cause: Option<DeviceFault>,
    pub new_name: &'a str,
}

impl<'a> Failure<'a> {
    /// Of a device.
    pub fn of(device: &'a FileDevice<'_>) -> Failure<'a> {
        Failure {
            cause: device.cause(),
            new_name: device.new_name(),
        }
    }
}

/// What is read, by its name, and why a read of it and a write of standard output last failed, where one did.
#[derive(Clone, Copy, Debug)]
pub struct StreamFaults<'a> {
    pub name: &'a str,
    pub input: Option<ErrorKind>,
    pub output: Option<ErrorKind>,
}

impl Speaker<'_> {
    /// Says a cause. That it can't be said has no consequence: the status tells.
    pub fn say(&self, rt: &impl Eprint, cause: &str) {
        let program = self.program;
        let _ = eprintln!(rt; "{program}: {cause}");
    }

    /// Says a cause at the file.
    pub fn say_at(&self, rt: &impl Eprint, cause: &str) {
        let (program, file) = (self.program, self.file);
        let _ = eprintln!(rt; "{program}: {file}: {cause}");
    }

    /// Says a cause at what is read.
    pub fn say_of(&self, rt: &impl Eprint, name: &str, cause: &str) {
        let program = self.program;
        let _ = eprintln!(rt; "{program}: {name}: {cause}");
    }

    /// Says why a file that is to be read isn't opened.
    pub fn say_error(&self, rt: &impl Eprint, name: &str, error: Error) {
        let program = self.program;
        let _ = eprintln!(rt; "{program}: {name}: {error}");
    }

    /// Says why a read failed.
    pub fn say_read(&self, rt: &impl Eprint, name: &str, fault: Option<ErrorKind>) {
        let program = self.program;
        match fault {
            Some(kind) => {
                let _ = eprintln!(rt; "{program}: {name}: {kind}");
            }
            None => self.say_of(rt, name, "a read failed"),
        }
    }

    /// Says why a write of standard output failed. Where the reader of a pipe has gone, nobody waits for the rest, so nothing is
    /// said.
    pub fn say_write(&self, rt: &impl Eprint, fault: Option<ErrorKind>) {
        let program = self.program;
        match fault {
            Some(ErrorKind::BrokenPipe) => {}
            Some(kind) => {
                let _ = eprintln!(rt; "{program}: standard output: {kind}");
            }
            None => self.say(rt, "standard output: a write failed"),
        }
    }

    /// Says that others can read or write the file, where they can.
    pub fn say_shared(&self, rt: &impl Eprint, is_shared: bool) {
        if is_shared {
            self.say_at(rt, "others than its owner may read or write it");
        }
    }

    /// Says why the file isn't opened.
    pub fn say_unopened(&self, rt: &impl Eprint, fault: OpenFault) {
        let (program, file) = (self.program, self.file);
        match fault {
            OpenFault::InUse => self.say_at(rt, "another process has it open"),
            OpenFault::NotAFile => self.say_at(rt, "it isn't a regular file"),
            OpenFault::TooLong => {
                let _ = eprintln!(rt;
                    "{program}: {file}: it has more bytes than {program} can have written"
                );
            }
            OpenFault::NoStandardStream => self.say_at(rt, STREAM_CLOSED),
            OpenFault::Io(error) => {
                let _ = eprintln!(rt; "{program}: {file}: {error}");
            }
            OpenFault::OutOfMemory => self.say_at(rt, "out of memory for its bytes"),
        }
    }

    /// Says that a call of the file failed, and what followed.
    pub fn say_failed(&self, rt: &impl Eprint, failure: Failure<'_>, then: &str) {
        let (program, file) = (self.program, self.file);
        match failure.cause {
            Some(DeviceFault::Io(error)) => {
                let _ = eprintln!(rt; "{program}: {file}: {error}: {then}");
            }
            Some(DeviceFault::NameTaken) => {
                let new_name = failure.new_name;
                let _ = eprintln!(rt;
                    "{program}: {file}: {new_name} is in the way, which no run has left or another process holds: {then}"
                );
            }
            Some(DeviceFault::Moved) => self.say_two(
                rt,
                "its name leads to another file now, or to none",
                then,
            ),
            Some(DeviceFault::InUse) => {
                self.say_two(rt, "another process makes it, or has just made it", then);
            }
            Some(DeviceFault::Shared) => self.say_two(
                rt,
                "others than its owner have rights, perhaps by an access control list, which isn't copied: take them away first (chmod go=)",
                then,
            ),
            None => self.say_at(rt, then),
        }
    }

    // Says a cause at the file, and what followed.
    fn say_two(&self, rt: &impl Eprint, cause: &str, then: &str) {
        let (program, file) = (self.program, self.file);
        let _ = eprintln!(rt; "{program}: {file}: {cause}: {then}");
    }

    /// Says why the file, which was read, isn't taken.
    pub fn say_untaken(
        &self,
        rt: &impl Eprint,
        is_there: bool,
        error: OpenError,
        failure: Failure<'_>,
    ) {
        let (program, file) = (self.program, self.file);
        match error {
            OpenError::NoHeader => {
                self.say_at(rt, "no-header: it doesn't begin with '#pwstore 1'");
            }
            OpenError::BadLine(place) => {
                let _ = eprintln!(rt;
                    "{program}: {file}: bad-line: what begins at byte {place} isn't a line that sets a text or takes away a user who is there"
                );
            }
            OpenError::BadEnd(place) => {
                let _ = eprintln!(rt;
                    "{program}: {file}: bad-end: what stands from byte {place} on is no end that a run leaves"
                );
            }
            OpenError::Failed if is_there => self.say_failed(rt, failure, "it isn't repaired"),
            OpenError::Failed => self.say_failed(rt, failure, "it isn't made"),
            OpenError::OutOfMemory => self.say_at(rt, "out of memory for its users"),
        }
    }
}
