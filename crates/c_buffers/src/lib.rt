//! What the C interfaces share: a text that is put into a buffer of the caller's, and the answers that tell of it.
#![tactic(auto)]

ghost use Rattle.c_buffers.specs.Put.{IsPut};

/// It is done.
pub const DONE: i32 = 0;

/// Memory is wanting.
pub const NO_MEMORY: i32 = -2;

/// The buffer is too short.
pub const NO_ROOM: i32 = -3;

/// Writes a text to the front of `out` and tells its length, where there is room. Else it answers `NO_ROOM` and writes
/// nothing.
pub fn put(text: &[u8], out: &mut [u8], len: &mut usize) -> i32
    ensures put { IsPut text.now out.old out.new len.old len.new result }
{
    if out.len() < text.len() {
        return NO_ROOM;
    }
    out[..text.len()].copy_from_slice(text);
    *len = text.len();
    DONE
}
