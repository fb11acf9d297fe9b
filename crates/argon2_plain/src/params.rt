//! What a tag costs.

ghost use Rattle.std.specs.Prelude.{◌≡◌, ◌*◌, true};
ghost use Rattle.argon2_plain.specs.Bounds.{are_in_bounds, block_count};

use crate::variant::Variant;

/// A type of Argon2 and its costs (RFC 9106, section 3.1).
#[derive(Clone, Copy, Debug, PartialEq, Eq)]
pub struct Params {
    /// The type.
    pub variant: Variant,
    /// How often the memory is filled, the RFC's `t`.
    pub passes: u32,
    /// The memory in KiB, the RFC's `m`.
    pub memory: u32,
    /// The lanes, the RFC's `p`. They are filled one after another.
    pub lanes: u32,
}

impl Params {
    /// Whether this crate takes the costs: at least one pass and one lane, at least 8 KiB for each lane, at most
    /// 2^21 KiB, and at most 2^24 KiB over all passes.
    pub fn are_in_bounds(&self) -> bool
        ensures { result ≡ are_in_bounds self.now }
    {
        1 <= self.passes
            && 1 <= self.lanes
            && 8 * self.lanes as u64 <= self.memory as u64
            && self.memory <= 1 << 21
            && self.passes as u64 * self.memory as u64 <= 1 << 24
    }

    /// How many words `argon2_in` works in: 128 for each block of the memory.
    pub fn work_len(&self) -> usize
        requires bounds { are_in_bounds self.now ≡ true }
        ensures { result ≡ 128 * block_count self.now.memory self.now.lanes }
    {
        let segment = self.memory as usize / (4 * self.lanes as usize);
        128 * (4 * segment * self.lanes as usize)
    }
}
