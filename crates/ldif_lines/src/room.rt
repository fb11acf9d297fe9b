//! Bytes kept in place, whose room is used again.

ghost use Rattle.std.specs.Prelude.{◌≡◌, ◌+◌, ◌≤◌, ◌<◌, ◌++◌, ◌∷◌, [], length};

use std::marker::Model;

/// At most `N` bytes. Contracts see the list of the bytes.
#[derive(Drop)]
pub(crate) struct Room<const N: usize> {
    cells: [u8; N],
    len: usize,
}

impl<const N: usize> Model for Room<N> {
    ghost use Rattle.std.specs.Prelude.{◌≡◌, ℕ, ◌≤◌, List, length, take};

    ghost Value = { List ℕ };

    ghost view = { λ r. take r.len r.cells };

    ghost invariant = { λ r. (r.len ≤ N) × (length r.cells ≡ N) };
}

impl<const N: usize> Room<N> {
    /// No bytes.
    pub fn new() -> Self
        ensures none { result ≡ [] }
    {
        Room {
            cells: [0; N],
            len: 0,
        }
    }

    /// The bytes.
    pub fn as_slice(&self) -> &[u8]
        ensures value { result.now ≡ self.now }
        ensures fits { length result.now ≤ N }
    {
        &self.cells[..self.len]
    }

    /// The number of bytes.
    pub fn len(&self) -> usize
        ensures value { result ≡ length self.now }
        ensures fits { result ≤ N }
    {
        self.len
    }

    /// Forgets the bytes.
    pub fn clear(&mut self)
        ensures none { self.new ≡ [] }
    {
        self.len = 0;
    }

    /// Appends bytes.
    pub fn push_all(&mut self, bytes: &[u8])
        requires room { length self.old + length bytes.now ≤ N }
        ensures appended { self.new ≡ self.old ++ bytes.now }
        ensures length { length self.new ≡ length self.old + length bytes.now }
    {
        let start = self.len;
        let end = start + bytes.len();
        let cells = &mut self.cells[..];
        cells[start..end].copy_from_slice(bytes);
        self.len = end;
    }

    /// Appends a byte.
    pub fn push(&mut self, b: u8)
        requires room { length self.old < N }
        ensures appended { self.new ≡ self.old ++ b ∷ [] }
    {
        self.push_all(&[b]);
    }
}
