//! What C programs call: the verdict on a password and a stored text, of SHA-crypt and scrypt or of every scheme, within a
//! bound on its cost too, and its word; the digests and keys, the texts and hash fields made of them; Base64; a comparison
//! of secret bytes; and the version.
//! `include/pwcheck.h` declares it.
//!
//! Each export calls one function of a library and states its clauses again. What the library requires is
//! tested here, as nothing makes a C program keep it: no export has a `requires`. A slice is a pointer and a length.
#![tactic(auto)]

mod alphabets;
mod answer;
mod any;
#[cfg(test)]
mod any_tests;
mod base64;
mod check;
mod compare;
mod cost;
mod digests;
mod keys;
pub mod laws;
mod lengths;
mod makers;
#[cfg(test)]
mod makers_tests;
mod remake;
#[cfg(test)]
mod remake_tests;
mod room;
mod scrypt_text;
mod sha_check;
mod sha_text;
mod statuses;
#[cfg(test)]
mod tests;
mod version;
mod words;
