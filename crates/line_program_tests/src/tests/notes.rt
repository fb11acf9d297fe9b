//! Notes: a program with a state and with replies as long as all that it keeps.

ghost use Rattle.std.specs.Prelude.{◌≡◌, ◌≤◌, ◌^◌, [], ◌∷◌, ◌++◌, length, map, vec_items, OnErr, OnOk};
ghost use Rattle.line_io.specs.Output.{Puts};
ghost use Rattle.line_program_tests.specs.Toys.{listing};

use line_io::{OutputBuffer, Sink, Source};
use line_program::{Responder, run_lines};
use std::alloc::{AllocError, Global};
use std::marker::Model;

/// The most lines that are kept.
const MOST: usize = 4_096;

/// Kept lines. Contracts see the list of them.
#[derive(Drop)]
pub struct Notes {
    texts: Vec<Vec<u8>>,
    alloc: Global,
}

impl Model for Notes {
    ghost use Rattle.std.specs.Prelude.{List, map, vec_items, ℕ};

    ghost Value = { List (List ℕ) };

    ghost view = { λ n. map vec_items n.texts.items };
}

impl Notes {
    /// None are kept.
    pub fn new(alloc: Global) -> Notes
        ensures none { result ≡ [] }
    {
        Notes {
            texts: Vec::new(alloc),
            alloc,
        }
    }

    fn len(&self) -> usize
        ensures count { result ≡ length self.now }
    {
        self.texts.len()
    }

    // Keeps a line behind the others.
    fn add(&mut self, text: &[u8]) -> Result<(), AllocError>
        ensures added { OnOk result (self.new ≡ self.old ++ text.now ∷ []) }
        ensures unchanged { OnErr result (self.new ≡ self.old) }
    {
        let mut copy = Vec::new(self.alloc);
        copy.extend_from_slice(text)?;
        self.texts.push(copy)?;
        Ok(())
    }

    fn list<K: Sink>(&self, out: &mut OutputBuffer, sink: &mut K)
        ensures puts { Puts (K.written sink.old) (K.written sink.new) (K.faults sink.old) (K.faults sink.new) out.old out.new (listing self.now) }
    {
        put_listing(&self.texts, out, sink);
    }
}

impl Responder for Notes {
    ghost use Rattle.line_program_tests.specs.Toys.{notes_rules};

    ghost rules = { notes_rules };

    fn answer<K: Sink>(
        &mut self,
        line: &[u8],
        out: &mut OutputBuffer,
        sink: &mut K,
    ) -> Result<bool, AllocError> {
        if line == b"list".as_slice() {
            self.list(out, sink);
            return Ok(true);
        }
        if self.len() >= MOST {
            out.put(sink, b"full\n");
            return Ok(false);
        }
        match self.add(line) {
            Ok(()) => {
                out.put(sink, b"ok\n");
                Ok(true)
            }
            Err(_) => Err(AllocError),
        }
    }

    fn answer_long<K: Sink>(&mut self, out: &mut OutputBuffer, sink: &mut K) -> bool {
        out.put(sink, b"toolong\n");
        false
    }
}

/// Puts each text and a line feed.
fn put_listing<K: Sink>(texts: &[Vec<u8>], out: &mut OutputBuffer, sink: &mut K)
    ensures puts { Puts (K.written sink.old) (K.written sink.new) (K.faults sink.old) (K.faults sink.new) out.old out.new (listing (map vec_items texts.now)) }
{
    for text in texts {
        out.put(sink, text.as_slice());
        out.put(sink, b"\n");
    }
}

/// Keeps the lines of a source, and lists them.
pub fn run_notes<S: Source, K: Sink>(alloc: Global, source: &mut S, sink: &mut K, max: u64) -> u8
    requires { max ≤ 2 ^ 40 }
{
    let mut notes = Notes::new(alloc);
    run_lines(&mut notes, source, sink, max)
}
