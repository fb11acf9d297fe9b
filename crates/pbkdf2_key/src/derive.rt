//! The key, under any pseudorandom function.

ghost use Rattle.std.specs.Prelude.{◌≡◌, ℕ, [], ◌+◌, ◌<◌, ◌≤◌, ◌++◌, List, length, take};
ghost use Rattle.std.specs.Int.{w32, div_ceil, to_be_bytes};
ghost use Rattle.pbkdf2_key.specs.Pbkdf2.{output_block, pbkdf2};

use crate::prf::Prf;
use word_lists::xor_bytes;

// The code of a message, begun with what `state` holds.
#[inline(always)]
fn code_after<const N: usize, P: Prf<N>>(state: &P, piece: &[u8]) -> [u8; N]
    ensures { (key text : List ℕ) → P.holds state.now key text → result ≡ P.code key (text ++ piece.now) }
{
    let mut state = state.copy();
    state.feed(piece);
    state.finish()
}

// The first code of block `index`.
fn first_code<const N: usize, P: Prf<N>>(salted: &P, index: u32) -> [u8; N]
    ensures { (key salt : List ℕ) → P.holds salted.now key salt
        → result ≡ P.code key (salt ++ to_be_bytes w32 index) }
{
    code_after(salted, &index.to_be_bytes())
}

// Block `index`: `keyed` holds the password as key and nothing else, `salted` the salt besides.
#[inline(always)]
fn output_block<const N: usize, P: Prf<N>>(
    keyed: &P,
    salted: &P,
    index: u32,
    rounds: u32,
) -> [u8; N]
    requires some { 1 ≤ rounds }
    ensures { (password salt : List ℕ) → P.holds keyed.now password [] → P.holds salted.now password salt
        → result ≡ output_block P.code N password salt index rounds }
{
    let mut code = first_code(salted, index);
    let mut sum = code;
    'rounds: for round in 1..rounds {
        code = code_after(keyed, &code);
        xor_bytes(&mut sum, &code);
    }
    sum
}

// The salt under the key that `keyed` holds.
fn salted_by<const N: usize, P: Prf<N>>(keyed: &P, salt: &[u8]) -> P
    ensures { (key : List ℕ) → P.holds keyed.now key [] → P.holds result key salt.now }
{
    let mut salted = keyed.copy();
    salted.feed(salt);
    salted
}

// How many blocks of `size` bytes it takes.
fn block_count(length: usize, size: usize) -> u32
    requires size { 0 < size }
    requires few { length ≤ 64 }
    ensures value { result ≡ div_ceil length size }
    ensures most { result ≤ 64 }
{
    length.div_ceil(size) as u32
}

// Writes a block at `at`, as far as `out` goes.
fn put_block(out: &mut [u8], at: usize, block: &[u8])
    requires within { at ≤ length out.old }
    ensures front { take (at + length block.now) out.new ≡ take (length out.old) (take at out.old ++ block.now) }
{
    let count = block.len().min(out.len() - at);
    out[at..at + count].copy_from_slice(&block[..count]);
}

/// Fills `out` with the key.
pub(crate) fn fill<const N: usize, P: Prf<N>>(
    password: &[u8],
    salt: &[u8],
    rounds: u32,
    out: &mut [u8],
)
    requires least { 0 < N }
    requires most { N ≤ 64 }
    requires some_rounds { 1 ≤ rounds }
    requires few_blocks { length out.old ≤ 64 }
    ensures { out.new ≡ pbkdf2 P.code N password.now salt.now rounds (length out.old) }
{
    let keyed = P::keyed(password);
    let salted = salted_by(&keyed, salt);
    let count = block_count(out.len(), N);
    'outputs: for i in 0..count {
        let block = output_block(&keyed, &salted, i + 1, rounds);
        put_block(out, N * i as usize, &block);
    }
}
