//! Texts of md5-crypt that are seen to have no fault in one step, sixteen bytes at a time.

ghost use Rattle.std.specs.Prelude.{◌≡◌, ◌+◌, ◌≤◌, ◌<◌, ◌++◌, ℕ, List, IsTrue, Some, ◌∷◌, length, slice_index, true};
ghost use Rattle.std.specs.List.{list_all};
ghost use Rattle.mcf.specs.Grammar.{is_identifier, mcf};
ghost use Rattle.md5_plain.specs.Verdict.{magic_of};
ghost use Rattle.md5_plain.specs.declared.magic.Magic.{Magic};
ghost use Rattle.pieces.specs.Characters.{dollar, is_crypt_character};
ghost use Rattle.scheme_list.specs.declared.schemes.Scheme.{Scheme};
ghost use Rattle.sha_crypt.specs.HashField.{is_hash_field};
ghost use Rattle.any_check.specs.Kinds.{asks, md5_kind};
ghost use Rattle.any_check.specs.Numbers.{no_costs};

use pieces::characters::are_crypt_characters;
use std::simd::prelude::*;

// Whether each of the 16 bytes from `i` on is a character of crypt(5).
#[inline(always)]
fn are_characters(bytes: &[u8], i: usize) -> bool
    requires room { i + 16 ≤ length bytes.now }
    ensures characters { IsTrue result → (k : ℕ) → i ≤ k → k < i + 16
        → is_crypt_character (slice_index bytes.now k) ≡ true }
{
    let here = u8x16::from_slice(&bytes[i..]);
    // `./` and the digits follow each other.
    let digit = (here - u8x16::splat(b'.')).simd_lt(u8x16::splat(12));
    let capital = (here - u8x16::splat(b'A')).simd_lt(u8x16::splat(26));
    let small = (here - u8x16::splat(b'a')).simd_lt(u8x16::splat(26));
    (digit | capital | small).to_bitmask() == 0xffff
}

// Whether a text is seen to be the hash field of 16 bytes: 22 characters, of which the last has no bit behind the last byte.
#[inline(always)]
fn is_field(text: &[u8]) -> bool
    ensures characters { IsTrue result → list_all is_crypt_character text.now ≡ true }
    ensures field { IsTrue result → is_hash_field 16 text.now ≡ true }
{
    if text.len() != 22 {
        return false;
    }
    are_characters(text, 0) & are_characters(text, 6) & (text[21] < 50)
}

// Whether what follows an identifier and its `$` is seen to be a salt of at most 8 characters, `$` and a hash field.
#[inline(always)]
fn are_salt_and_field(rest: &[u8]) -> bool
    ensures valid { IsTrue result → (id : List ℕ) (magic : Magic) → is_identifier id ≡ true → magic_of id ≡ Some magic
        → md5_kind (mcf (dollar ∷ (id ++ dollar ∷ rest.now))) ≡ asks Scheme.Md5Crypt no_costs }
{
    let len = rest.len();
    if len < 24 || len > 31 {
        return false;
    }
    let cut = len - 23;
    if rest[cut] != b'$' {
        return false;
    }
    are_crypt_characters(&rest[..cut]) && is_field(&rest[cut + 1..])
}

/// Whether a text is seen to be one of md5-crypt without a fault. One whose salt has another character than those of
/// crypt(5) isn't seen here.
pub(crate) fn is_plain(stored: &str) -> bool
    ensures valid { IsTrue result → md5_kind (mcf stored.now) ≡ asks Scheme.Md5Crypt no_costs }
{
    if let Some(rest) = stored.strip_prefix("$1$") {
        return are_salt_and_field(rest.as_bytes());
    }
    match stored.strip_prefix("$apr1$") {
        Some(rest) => are_salt_and_field(rest.as_bytes()),
        None => false,
    }
}
