//! That each cause is said in one line.

use file_device::{DeviceFault, OpenFault};
use line_log::OpenError;
use std::cell::Cell;
use std::fmt::Display;
use std::io;
use std::io::ErrorKind;
use store_run::messages::{Failure, Speaker, StreamFaults};
use store_run::tell;

// What counts the lines that are said.
#[derive(Drop)]
struct Ear {
    lines: Cell<usize>,
}

impl Eprint for Ear {
    fn eprint<D: Display + Drop>(&self, _value: D) -> io::Result<()> {
        Ok(())
    }

    fn eprintln<D: Display + Drop>(&self, _value: D) -> io::Result<()> {
        self.lines.set(self.lines.get().saturating_add(1));
        Ok(())
    }
}

const SPEAKER: Speaker<'static> = Speaker {
    program: "pwstore",
    file: "table",
};

const UNTOLD: Failure<'static> = Failure {
    cause: None,
    new_name: ".table.pwstore-new",
};

#[test]
fn why_a_file_is_not_opened(rt: HostRuntime) {
    let ear = Ear {
        lines: Cell::new(0),
    };
    for fault in [
        OpenFault::InUse,
        OpenFault::NotAFile,
        OpenFault::TooLong,
        OpenFault::NoStandardStream,
        OpenFault::Io(io::Error::from(io::ErrorKind::PermissionDenied)),
        OpenFault::OutOfMemory,
    ] {
        SPEAKER.say_unopened(&ear, fault);
    }
    assert!(rt; ear.lines.get() == 6);
    SPEAKER.say_shared(&ear, true);
    assert!(rt; ear.lines.get() == 7);
    SPEAKER.say_shared(&ear, false);
    assert!(rt; ear.lines.get() == 7);
}

#[test]
fn why_a_file_is_not_taken(rt: HostRuntime) {
    let ear = Ear {
        lines: Cell::new(0),
    };
    for error in [
        OpenError::NoHeader,
        OpenError::BadLine(11),
        OpenError::BadEnd(21),
        OpenError::Failed,
        OpenError::OutOfMemory,
    ] {
        SPEAKER.say_untaken(&ear, true, error, UNTOLD);
        SPEAKER.say_untaken(&ear, false, error, UNTOLD);
    }
    assert!(rt; ear.lines.get() == 10);
}

#[test]
fn why_a_call_failed(rt: HostRuntime) {
    let ear = Ear {
        lines: Cell::new(0),
    };
    for cause in [
        DeviceFault::Io(io::Error::from(io::ErrorKind::PermissionDenied)),
        DeviceFault::Moved,
        DeviceFault::InUse,
        DeviceFault::NameTaken,
        DeviceFault::Shared,
    ] {
        let failure = Failure {
            cause: Some(cause),
            new_name: ".table.pwstore-new",
        };
        SPEAKER.say_failed(&ear, failure, "it isn't made");
    }
    assert!(rt; ear.lines.get() == 5);
}

#[test]
fn how_a_run_ended(rt: HostRuntime) {
    let full = Some(ErrorKind::StorageFull);
    // The status, why the last read and the last write failed, whether the store takes changes at the end, and how many lines are said.
    for (status, fault, takes, lines) in [
        (0, None, true, 0),
        (1, None, true, 0),
        (3, None, true, 1),
        (3, full, true, 1),
        (4, None, true, 1),
        (4, full, true, 1),
        (4, full, false, 2),
        (5, None, true, 1),
        (6, None, true, 1),
        (7, None, false, 1),
    ] {
        let ear = Ear {
            lines: Cell::new(0),
        };
        let streams = StreamFaults {
            name: "standard input",
            input: fault,
            output: fault,
        };
        tell(&ear, &SPEAKER, status, streams, takes, UNTOLD);
        assert!(rt; ear.lines.get() == lines, "{status} {fault:?}");
    }
}

// Where the reader of a pipe has gone, only a fault of the file is said, and a fault of standard input is said whatever its cause.
#[test]
fn a_pipe_without_a_reader_is_left_quietly(rt: HostRuntime) {
    let gone = StreamFaults {
        name: "shadow",
        input: Some(ErrorKind::BrokenPipe),
        output: Some(ErrorKind::BrokenPipe),
    };
    for (status, takes, lines) in [(4, true, 0), (4, false, 1), (3, true, 1)] {
        let ear = Ear {
            lines: Cell::new(0),
        };
        tell(&ear, &SPEAKER, status, gone, takes, UNTOLD);
        assert!(rt; ear.lines.get() == lines, "{status} {takes}");
    }
}
