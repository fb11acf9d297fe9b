//! The top calls.

ghost use Rattle.std.specs.Prelude.{◌≡◌, ◌≢◌, ◌≤◌, ◌^◌, ◌↔◌, ℕ, min};
ghost use Rattle.line_io.specs.Devices.{WhereTold};
ghost use Rattle.pieces.specs.FaultCounts.{HasRisen};
ghost use Rattle.line_program.specs.Outcome.{Outcome};
ghost use Rattle.pwcheck_run.specs.Answer.{line_rules};
ghost use Rattle.pwcheck_run.specs.BenchOutcome.{BenchOutcome};
ghost use Rattle.pwcheck_run.specs.Normalize.{normal_rules};
ghost use Rattle.pwcheck_run.specs.Streams.{KeptOutcome, Unwraps, Wraps, longest_kept};
ghost use Rattle.pwcheck_run.specs.Words.{AreNoForm, AreOverLines, IsBench, IsUnwrap, IsWrap, check, check_count, normalize};

use crate::Words;
use crate::bench::bench;
use crate::check::check_lines;
use crate::form::Form;
use crate::normalize::normalize_lines;
use crate::streams::{unwrap_input, wrap_input};
use line_io::{INPUT_MAX, Sink, Source};
use line_program::status::BAD_WORDS;
use std::alloc::Global;

/// Does what the words of the command line say, over a source of at most `max` bytes, and gives the status.
///
/// The forms of words are `check`, `check --count`, `normalize`, and with a number `bench`, `wrap` and `unwrap`.
/// `check` and `normalize` keep the lines one at a time in a buffer of 16,384 bytes, and replies are gathered in another:
/// they are written where it is full, before each read, behind a match or a mismatch, and at the end. Of `check` only
/// the key of a scrypt record takes memory: the table of the largest such record so far, which is kept for those that
/// follow and given back at the end. `normalize` takes none. `bench` keeps one stored text at a time, takes a table for
/// each line of scrypt and gives it back, and keeps the summary; `wrap` and `unwrap` keep their whole input, at most
/// 1,048,576 bytes, and their output.
pub fn run_limited<S: Source, K: Sink>(
    alloc: Global,
    words: &Words,
    source: &mut S,
    sink: &mut K,
    max: u64,
) -> u8
    requires { max ≤ 2 ^ 40 }

    // No other status comes; 1 is for lines, 7 for `unwrap` alone.
    ensures statuses { result ≤ 7 }
    ensures some_other { result ≡ 1 → AreOverLines words.now }
    ensures no_text { result ≡ 7 → (w : ℕ) × IsUnwrap w words.now }

    // Other words than those of a form: nothing is read or written.
    ensures words { (result ≡ 2) ↔ AreNoForm words.now }
    ensures untouched { result ≡ 2 → (source.new ≡ source.old) × (sink.new ≡ sink.old) }

    // A fault is answered only where the count of that device rose in this call.
    ensures read_fault { result ≡ 3 → HasRisen (S.faults source.old) (S.faults source.new) }
    ensures write_fault { result ≡ 4 → HasRisen (K.faults sink.old) (K.faults sink.new) }

    // What was taken and written, for each status. Memory is wanting only at a valid line whose identifier is neither
    // `5` nor `6`.
    ensures outcome { words.now ≡ check → WhereTold (S.left source.old) (S.left source.new) (K.written sink.old) (K.written sink.new)
        (λ held taken added. Outcome (line_rules Form.Plain) result max held taken added) }
    ensures counted { words.now ≡ check_count → WhereTold (S.left source.old) (S.left source.new) (K.written sink.old) (K.written sink.new)
        (λ held taken added. Outcome (line_rules Form.Counted) result max held taken added) }

    // `normalize` never wants memory.
    ensures normalized { words.now ≡ normalize → WhereTold (S.left source.old) (S.left source.new) (K.written sink.old) (K.written sink.new)
        (λ held taken added. Outcome normal_rules result max held taken added) }
    ensures no_want_of_memory { words.now ≡ normalize → result ≢ 5 }

    // `bench` reads nothing. Want of memory ends it before anything is written.
    ensures bench { (n : ℕ) → IsBench n words.now → BenchOutcome n result (K.written sink.old) (K.written sink.new) }
    ensures bench_reads { (n : ℕ) → IsBench n words.now → source.new ≡ source.old }
    ensures bench_memory { (n : ℕ) → IsBench n words.now → result ≡ 5 → sink.new ≡ sink.old }

    // `wrap` and `unwrap` read their whole input before they write.
    ensures wrapped { (w : ℕ) → IsWrap w words.now → WhereTold (S.left source.old) (S.left source.new) (K.written sink.old) (K.written sink.new)
        (λ held taken added. KeptOutcome (Wraps w) result (min max longest_kept) held taken added) }
    ensures unwrapped { (w : ℕ) → IsUnwrap w words.now → WhereTold (S.left source.old) (S.left source.new) (K.written sink.old) (K.written sink.new)
        (λ held taken added. KeptOutcome (Unwraps w) result (min max longest_kept) held taken added) }
{
    if words.is_check() {
        return check_lines(alloc, Form::Plain, source, sink, max);
    }
    if words.is_check_count() {
        return check_lines(alloc, Form::Counted, source, sink, max);
    }
    if words.is_normalize() {
        return normalize_lines(source, sink, max);
    }
    if let Some(n) = words.bench_lines() {
        return bench(alloc, n, sink);
    }
    if let Some(width) = words.wrap_width() {
        return wrap_input(alloc, width as usize, source, sink, max);
    }
    match words.unwrap_width() {
        Some(width) => unwrap_input(alloc, width as usize, source, sink, max),
        None => BAD_WORDS,
    }
}

/// The program: `run_limited` over a source of at most 2^40 bytes.
pub fn run<S: Source, K: Sink>(alloc: Global, words: &Words, source: &mut S, sink: &mut K) -> u8
    ensures statuses { result ≤ 7 }
    ensures some_other { result ≡ 1 → AreOverLines words.now }
    ensures no_text { result ≡ 7 → (w : ℕ) × IsUnwrap w words.now }
    ensures words { (result ≡ 2) ↔ AreNoForm words.now }
    ensures untouched { result ≡ 2 → (source.new ≡ source.old) × (sink.new ≡ sink.old) }
    ensures read_fault { result ≡ 3 → HasRisen (S.faults source.old) (S.faults source.new) }
    ensures write_fault { result ≡ 4 → HasRisen (K.faults sink.old) (K.faults sink.new) }
    ensures outcome { words.now ≡ check → WhereTold (S.left source.old) (S.left source.new) (K.written sink.old) (K.written sink.new)
        (λ held taken added. Outcome (line_rules Form.Plain) result (2 ^ 40) held taken added) }
    ensures counted { words.now ≡ check_count → WhereTold (S.left source.old) (S.left source.new) (K.written sink.old) (K.written sink.new)
        (λ held taken added. Outcome (line_rules Form.Counted) result (2 ^ 40) held taken added) }
    ensures normalized { words.now ≡ normalize → WhereTold (S.left source.old) (S.left source.new) (K.written sink.old) (K.written sink.new)
        (λ held taken added. Outcome normal_rules result (2 ^ 40) held taken added) }
    ensures no_want_of_memory { words.now ≡ normalize → result ≢ 5 }
    ensures bench { (n : ℕ) → IsBench n words.now → BenchOutcome n result (K.written sink.old) (K.written sink.new) }
    ensures bench_reads { (n : ℕ) → IsBench n words.now → source.new ≡ source.old }
    ensures bench_memory { (n : ℕ) → IsBench n words.now → result ≡ 5 → sink.new ≡ sink.old }
    ensures wrapped { (w : ℕ) → IsWrap w words.now → WhereTold (S.left source.old) (S.left source.new) (K.written sink.old) (K.written sink.new)
        (λ held taken added. KeptOutcome (Wraps w) result longest_kept held taken added) }
    ensures unwrapped { (w : ℕ) → IsUnwrap w words.now → WhereTold (S.left source.old) (S.left source.new) (K.written sink.old) (K.written sink.new)
        (λ held taken added. KeptOutcome (Unwraps w) result longest_kept held taken added) }
{
    run_limited(alloc, words, source, sink, INPUT_MAX)
}
