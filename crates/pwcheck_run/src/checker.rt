//! What answers the lines of a password file.

use crate::answer::Answer;
use crate::form::Form;
use crate::line_answer::{LineAnswer, answer_line, put_answer};
use line_io::{OutputBuffer, Sink};
use line_program::Responder;
use scrypt_plain::ScryptKept;
use std::alloc::{AllocError, Global};

/// What answers the lines of a password file, each by itself.
///
/// The table of scrypt is kept from line to line, and given back at the end.
#[derive(Drop)]
pub struct Checker {
    pub alloc: Global,
    pub form: Form,
    pub kdf: ScryptKept,
}

impl Responder for Checker {
    ghost use Rattle.pwcheck_run.specs.Check.{check_rules};

    ghost rules = { check_rules };

    fn answer<K: Sink>(
        &mut self,
        line: &[u8],
        out: &mut OutputBuffer,
        sink: &mut K,
    ) -> Result<bool, AllocError> {
        match answer_line(self.alloc, &self.kdf, line) {
            Some(line) => {
                put_answer(out, sink, self.form, &line);
                let good = line.answer.is_match();
                // A digest took longer than a write. Which line takes one isn't known before its answer, so answers
                // that wait are written after it.
                if line.answer.has_verdict() {
                    out.flush(sink);
                }
                Ok(good)
            }
            None => Err(AllocError),
        }
    }

    fn answer_long<K: Sink>(&mut self, out: &mut OutputBuffer, sink: &mut K) -> bool {
        let long = LineAnswer {
            answer: Answer::TooLong,
            looks: 0,
            sames: 0,
        };
        put_answer(out, sink, self.form, &long);
        false
    }
}
