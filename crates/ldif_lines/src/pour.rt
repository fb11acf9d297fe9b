//! The bytes of a dump, until some lines are ready.

ghost use Rattle.std.specs.Prelude.{◌≡◌, ◌≤◌, ◌++◌, [], List, ℕ, drop, length};
ghost use Rattle.ldif_lines.specs.Steps.{shown, waiting};

use crate::dump::Dump;

/// Takes bytes until some are ready; how many were taken.
pub(crate) fn pour(dump: &mut Dump, bytes: &[u8]) -> usize
    ensures shown { (text : List ℕ) → shown dump.new (drop result bytes.now ++ text) ≡ shown dump.old (bytes.now ++ text) }
    ensures most { result ≤ length bytes.now }
    ensures all { waiting dump.new ≡ [] → result ≡ length bytes.now }
{
    for i in 0..bytes.len() {
        if !dump.is_given() {
            return i;
        }
        dump.clear();
        dump.step(bytes[i]);
    }
    bytes.len()
}
