//! Lists of bytes and words that the schemes share: the exclusive or of two lists, and in specs/ and proofs/ pieces of
//! lists, lanes and 32-bit sums.
#![tactic(auto)]

ghost use Rattle.std.specs.Prelude.{◌≡◌, length};
ghost use Rattle.word_lists.specs.Lists.{xor_bytes};

/// Writes the exclusive or of both into the first.
pub fn xor_bytes(to: &mut [u8], with: &[u8])
    requires same_length { length with.now ≡ length to.old }
    ensures { to.new ≡ xor_bytes to.old with.now }
{
    'bytes: for i in 0..to.len() {
        to[i] ^= with[i];
    }
}
