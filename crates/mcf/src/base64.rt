//! The Base64 alphabets of password hashes.

ghost use Rattle.std.specs.Prelude.{◌≡◌, ◌↔◌, ◌⊎◌, ◌<◌, ◌≤◌, ◌++◌, ℕ, List, Some, None, Err, length, take, drop, IsErr, IfOk, OnErr, IsOkUnless, MatchResult, string_bytes};
ghost use Rattle.base64ct.specs.Encoding.{encoding, decoded_len, longest_input};
ghost use Rattle.base64ct.specs.Answers.{OnRoom, IsNoEncoding};
ghost use Rattle.base64ct.specs.Decoding.{decoding};

use base64ct::{
    Base64Bcrypt, Base64Pbkdf2, Base64ShaCrypt, Base64Unpadded, DecodeVecError, Encoding, Error,
};
use std::alloc::{AllocError, Global};

/// The alphabets that the fields of password hashes use. None of them has padding.
#[derive(Clone, Copy, Debug, PartialEq, Eq, PartialOrd, Ord, Drop)]
pub enum Base64 {
    /// `A-Z`, `a-z`, `0-9`, `+`, `/`: the B64 of the PHC string format (`Base64Unpadded`).
    B64,
    /// `./`, `A-Z`, `a-z`, `0-9`: bcrypt (`Base64Bcrypt`).
    Bcrypt,
    /// `./`, `0-9`, `A-Z`, `a-z`, the low bits first: crypt(3) with SHA-256 and SHA-512
    /// (`Base64ShaCrypt`).
    Crypt,
    /// `A-Z`, `a-z`, `0-9`, `.`, `/`: PBKDF2 (`Base64Pbkdf2`).
    Pbkdf2,
}

impl Base64 {
    ghost use Rattle.mcf.specs.Alphabets.{alphabet_of};

    /// Decodes `src` into the front of `dst`, and gives that part.
    ///
    /// It refuses by `InvalidLength` where `dst` is shorter than the bytes that `src` stands for, else by
    /// `InvalidEncoding` where `src` is the encoding of no bytes.
    pub fn decode<'d>(self, src: &[u8], dst: &'d mut [u8]) -> Result<&'d [u8], Error>
        ensures no_room { length dst.old < decoded_len (alphabet_of self) src.now
            → result ≡ Err Error.InvalidLength }
        ensures answer { OnRoom (alphabet_of self) src.now (length dst.old)
            (MatchResult result (λ b. src.now ≡ encoding (alphabet_of self) b.now)
            (λ e. (e ≡ Error.InvalidEncoding) × IsNoEncoding (alphabet_of self) src.now)) }
        ensures decoded { OnRoom (alphabet_of self) src.now (length dst.old)
            (MatchResult result (λ b. decoding (alphabet_of self) src.now ≡ Some b.now)
            (λ e. (e ≡ Error.InvalidEncoding) × (decoding (alphabet_of self) src.now ≡ None))) }
    {
        match self {
            Base64::B64 => Base64Unpadded::decode(src, dst),
            Base64::Bcrypt => Base64Bcrypt::decode(src, dst),
            Base64::Crypt => Base64ShaCrypt::decode(src, dst),
            Base64::Pbkdf2 => Base64Pbkdf2::decode(src, dst),
        }
    }

    /// Decodes as [`decode`](Base64::decode), and tells how many bytes there are. Its clauses on `dst`
    /// serve callers that read their buffer again.
    pub fn decode_into(self, src: &[u8], dst: &mut [u8]) -> Result<usize, Error>
        ensures no_room { length dst.old < decoded_len (alphabet_of self) src.now
            → (result ≡ Err Error.InvalidLength) × (dst.new ≡ dst.old) }
        ensures answer { OnRoom (alphabet_of self) src.now (length dst.old) (MatchResult result
            (λ n. (n ≡ decoded_len (alphabet_of self) src.now)
            × (src.now ≡ encoding (alphabet_of self) (take n dst.new)))
            (λ e. (e ≡ Error.InvalidEncoding) × IsNoEncoding (alphabet_of self) src.now)) }
        ensures decoded { OnRoom (alphabet_of self) src.now (length dst.old) (MatchResult result
            (λ n. (n ≡ decoded_len (alphabet_of self) src.now) × (n ≤ length dst.old)
            × (decoding (alphabet_of self) src.now ≡ Some (take n dst.new)))
            (λ e. (e ≡ Error.InvalidEncoding) × (decoding (alphabet_of self) src.now ≡ None))) }
        ensures rest { drop (decoded_len (alphabet_of self) src.now) dst.new
            ≡ drop (decoded_len (alphabet_of self) src.now) dst.old }
    {
        match self {
            Base64::B64 => Base64Unpadded::decode_into(src, dst),
            Base64::Bcrypt => Base64Bcrypt::decode_into(src, dst),
            Base64::Crypt => Base64ShaCrypt::decode_into(src, dst),
            Base64::Pbkdf2 => Base64Pbkdf2::decode_into(src, dst),
        }
    }

    /// The bytes whose encoding `input` is, in a new vector. `OutOfMemory` may come in place of them.
    pub fn decode_vec(self, alloc: Global, input: &str) -> Result<Vec<u8>, DecodeVecError>
        ensures answer { MatchResult result (λ b. input.now ≡ encoding (alphabet_of self) b.items)
            (λ e. e ≡ DecodeVecError.InvalidEncoding
            → IsNoEncoding (alphabet_of self) input.now) }
        ensures decoded { MatchResult result (λ b. decoding (alphabet_of self) input.now ≡ Some b.items)
            (λ e. e ≡ DecodeVecError.InvalidEncoding → decoding (alphabet_of self) input.now ≡ None) }
    {
        match self {
            Base64::B64 => Base64Unpadded::decode_vec(alloc, input),
            Base64::Bcrypt => Base64Bcrypt::decode_vec(alloc, input),
            Base64::Crypt => Base64ShaCrypt::decode_vec(alloc, input),
            Base64::Pbkdf2 => Base64Pbkdf2::decode_vec(alloc, input),
        }
    }

    /// Writes the encoding of `src` at the front of `dst`, and gives that part. It refuses, by
    /// `InvalidLength`, where `dst` is too short, or where `src` has more than `usize::MAX / 4` bytes.
    pub fn encode<'a>(self, src: &[u8], dst: &'a mut [u8]) -> Result<&'a str, Error>
        ensures refused { IsErr result
            ↔ ((longest_input < length src.now)
            ⊎ (length dst.old < length (encoding (alphabet_of self) src.now))) }
        ensures fault { IsOkUnless result Error.InvalidLength }
        ensures written { IfOk result (λ t. t.now ≡ encoding (alphabet_of self) src.now) }
    {
        let text = match self {
            Base64::B64 => Base64Unpadded::encode(src, dst),
            Base64::Bcrypt => Base64Bcrypt::encode(src, dst),
            Base64::Crypt => Base64ShaCrypt::encode(src, dst),
            Base64::Pbkdf2 => Base64Pbkdf2::encode(src, dst),
        }?;
        Ok(text)
    }

    /// Encodes as [`encode`](Base64::encode), and tells the length of the text. Its clauses on `dst` serve
    /// callers that read their buffer again.
    pub fn encode_into(self, src: &[u8], dst: &mut [u8]) -> Result<usize, Error>
        ensures refused { IsErr result
            ↔ ((longest_input < length src.now)
            ⊎ (length dst.old < length (encoding (alphabet_of self) src.now))) }
        ensures fault { IsOkUnless result Error.InvalidLength }
        ensures written { IfOk result (λ n. (n ≡ length (encoding (alphabet_of self) src.now))
            × (n ≤ length dst.old)
            × (dst.new ≡ encoding (alphabet_of self) src.now ++ drop n dst.old)) }
        ensures unchanged { OnErr result (dst.new ≡ dst.old) }
    {
        let n = match self {
            Base64::B64 => Base64Unpadded::encode_into(src, dst),
            Base64::Bcrypt => Base64Bcrypt::encode_into(src, dst),
            Base64::Crypt => Base64ShaCrypt::encode_into(src, dst),
            Base64::Pbkdf2 => Base64Pbkdf2::encode_into(src, dst),
        }?;
        Ok(n)
    }

    /// The encoding of `input`, of at most `usize::MAX / 4` bytes, in a new string.
    pub fn encode_string(self, alloc: Global, input: &[u8]) -> Result<String, AllocError>
        requires { length input.now ≤ longest_input }
        ensures { IfOk result (λ t. string_bytes t ≡ encoding (alphabet_of self) input.now) }
    {
        match self {
            Base64::B64 => Base64Unpadded::encode_string(alloc, input),
            Base64::Bcrypt => Base64Bcrypt::encode_string(alloc, input),
            Base64::Crypt => Base64ShaCrypt::encode_string(alloc, input),
            Base64::Pbkdf2 => Base64Pbkdf2::encode_string(alloc, input),
        }
    }

    /// The length of the encoding of `bytes`, or 0 for more than `usize::MAX / 4` bytes.
    pub fn encoded_len(self, bytes: &[u8]) -> usize
        ensures short { length bytes.now ≤ longest_input
            → result ≡ length (encoding (alphabet_of self) bytes.now) }
        ensures long { longest_input < length bytes.now → result ≡ 0 }
    {
        match self {
            Base64::B64 => Base64Unpadded::encoded_len(bytes),
            Base64::Bcrypt => Base64Bcrypt::encoded_len(bytes),
            Base64::Crypt => Base64ShaCrypt::encoded_len(bytes),
            Base64::Pbkdf2 => Base64Pbkdf2::encoded_len(bytes),
        }
    }
}
