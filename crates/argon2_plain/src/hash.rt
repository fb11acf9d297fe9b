//! The hashes of Argon2 over BLAKE2b: H' of any length (RFC 9106, section 3.3), H_0 and the blocks made of it
//! (section 3.2).

ghost use Rattle.std.specs.Prelude.{◌≡◌, ℕ, ◌+◌, ◌-◌, ◌*◌, ◌/◌, ◌^◌, ◌<◌, ◌≤◌, ◌++◌, List, length, take};
ghost use Rattle.blake2b.specs.Hasher.{HoldsBlake2b};
ghost use Rattle.blake2b.specs.Words.{bytes};
ghost use Rattle.argon2_plain.specs.Argon2.{first_block, h, initial_hash, le32, long_hash, variable_hash, with_field};

use crate::params::Params;
use crate::variant::type_number;
use blake2b::words::{read_words, write_bytes};
use blake2b::{Blake2b, blake2b};

// H^(n) of LE32(size) || input, where n is the length of `out`.
fn prefixed_hash(size: u32, input: &[u8], out: &mut [u8])
    requires some_bytes { 1 ≤ length out.old }
    requires hash_length { length out.old ≤ 64 }
    ensures { out.new ≡ h (length out.old) (le32 size ++ input.now) }
{
    let mut state = Blake2b::new(&[], out.len());
    state.update(&size.to_le_bytes());
    state.update(input);
    state.finalize(out);
}

// H^(64).
fn hash(input: &[u8]) -> [u8; 64]
    ensures { result ≡ h 64 input.now }
{
    let mut out = [0; 64];
    blake2b(&[], input, &mut out);
    out
}

/// H' of `input`: a hash of `out.len()` bytes.
pub fn variable_hash(input: &[u8], out: &mut [u8])
    requires some_bytes { 1 ≤ length out.old }
    requires hash_length { length out.old < 2 ^ 32 }
    ensures { out.new ≡ variable_hash (length out.old) input.now }
{
    let n = out.len();
    if n <= 64 {
        prefixed_hash(n as u32, input, out);
    } else {
        let mut v = [0; 64];
        prefixed_hash(n as u32, input, &mut v);
        extend(&v, out);
    }
}

// Writes W_(i + 1), the first half of `v`, after W_1 to W_i.
fn put_half(out: &mut [u8], i: usize, v: &[u8; 64])
    requires { 32 * i + 32 ≤ length out.old }
    ensures { take (32 * (i + 1)) out.new ≡ take (32 * i) out.old ++ take 32 v.now }
{
    out[32 * i..32 * i + 32].copy_from_slice(&v[..32]);
}

// W_1 || .. || W_r || V_(r + 1), from V_1.
fn extend(first: &[u8; 64], out: &mut [u8])
    requires { 64 < length out.old }
    ensures { out.new ≡ long_hash (length out.old) ((length out.old + 31) / 32 - 2) first.now }
{
    let r = (out.len() + 31) / 32 - 2;
    let mut v = *first;
    put_half(out, 0, &v);
    'links: for i in 1..r {
        v = hash(&v);
        put_half(out, i, &v);
    }
    blake2b(&[], &v, &mut out[32 * r..]);
}

// Adds LE32 of a field's length, and the field.
fn add_field(state: &mut Blake2b, field: &[u8])
    requires { length field.now < 2 ^ 32 }
    ensures { (key message : List ℕ) (n : ℕ) → HoldsBlake2b state.old key n message
        → HoldsBlake2b state.new key n (with_field message field.now) }
{
    state.update(&(field.len() as u32).to_le_bytes());
    state.update(field);
}

/// H_0, for a tag of `n` bytes.
#[inline(never)]
pub(crate) fn initial_hash(
    params: Params,
    password: &[u8],
    salt: &[u8],
    secret: &[u8],
    associated: &[u8],
    n: u32,
) -> [u8; 64]
    requires password_length { length password.now < 2 ^ 32 }
    requires salt_length { length salt.now < 2 ^ 32 }
    requires secret_length { length secret.now < 2 ^ 32 }
    requires associated_length { length associated.now < 2 ^ 32 }
    ensures { result ≡ initial_hash params password.now salt.now secret.now associated.now n }
{
    let mut state = Blake2b::new(&[], 64);
    state.update(&params.lanes.to_le_bytes());
    state.update(&n.to_le_bytes());
    state.update(&params.memory.to_le_bytes());
    state.update(&params.passes.to_le_bytes());
    state.update(&0x13u32.to_le_bytes());
    state.update(&type_number(params.variant).to_le_bytes());
    add_field(&mut state, password);
    add_field(&mut state, salt);
    add_field(&mut state, secret);
    add_field(&mut state, associated);
    let mut out = [0; 64];
    state.finalize(&mut out);
    out
}

// V_1 of block `j` of lane `i`: H^(64)(LE32(1024) || H_0 || LE32(j) || LE32(i)).
fn first_link(h0: &[u8; 64], j: u32, i: u32) -> [u8; 64]
    ensures { result ≡ h 64 (le32 1024 ++ ((h0.now ++ le32 j) ++ le32 i)) }
{
    let mut state = Blake2b::new(&[], 64);
    state.update(&1024u32.to_le_bytes());
    state.update(h0);
    state.update(&j.to_le_bytes());
    state.update(&i.to_le_bytes());
    let mut out = [0; 64];
    state.finalize(&mut out);
    out
}

/// Writes block `j`, 0 or 1, of lane `i`.
pub(crate) fn first_block(h0: &[u8; 64], j: u32, i: u32, block: &mut [u64])
    requires { length block.old ≡ 128 }
    ensures { block.new ≡ first_block h0.now j i }
{
    let mut bytes = [0; 1024];
    extend(&first_link(h0, j, i), &mut bytes);
    read_words(&bytes, block);
}

/// H' of a block of words.
#[inline(never)]
pub(crate) fn tag_of(block: &[u64; 128], out: &mut [u8])
    requires some_bytes { 1 ≤ length out.old }
    requires hash_length { length out.old < 2 ^ 32 }
    ensures { out.new ≡ variable_hash (length out.old) (bytes block.now) }
{
    let mut input = [0; 1024];
    write_bytes(block, &mut input);
    variable_hash(&input, out);
}
