//! The table as what answers the lines of a command file.

use crate::answer::answer_line;
use crate::listing::put_reply;
use crate::{Policy, Table};
use line_io::{OutputBuffer, Sink};
use line_program::Responder;
use std::alloc::AllocError;

impl<P: Policy> Responder for Table<P> {
    ghost use Rattle.pw_file.specs.Rules.{table_rules};

    ghost rules = { table_rules P.policy };

    fn answer<K: Sink>(
        &mut self,
        line: &[u8],
        out: &mut OutputBuffer,
        sink: &mut K,
    ) -> Result<bool, AllocError> {
        match answer_line(self, line) {
            Some(reply) => {
                put_reply(self, reply, out, sink);
                Ok(reply.is_good())
            }
            None => Err(AllocError),
        }
    }

    fn answer_long<K: Sink>(&mut self, out: &mut OutputBuffer, sink: &mut K) -> bool {
        out.put(sink, b"toolong\n");
        false
    }
}
