//! What ties crypt(3)'s texts, of the crate `crypt_text`, to the verdicts of `any_check`: `strcmp(crypt(phrase, text), text) == 0`
//! means a match. The law stands in a crate of its own, above both, since neither needs the other.
#![tactic(auto)]

pub mod laws;
