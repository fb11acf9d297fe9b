//! Two key derivations as one.

ghost use Rattle.std.specs.Prelude.{◌≡◌, length};

use crate::PhcKdf;
use phc::{Ident, PasswordHash};
use std::alloc::{AllocError, Global};

/// Two derivations: one for the records with one identifier, and another for all others.
///
/// It takes the records, gives the keys and may need memory as the one of the two does that a record goes to. The
/// identifier alone decides: a record that `a` doesn't take never goes to `b`.
#[derive(Drop)]
pub struct EitherKdf<A, B> {
    /// The identifier of the records that go to `a`.
    pub first: Ident,
    pub a: A,
    pub b: B,
}

impl<A: PhcKdf, B: PhcKdf> EitherKdf<A, B> {
    /// `a` for the records whose identifier is `first`, and `b` for all others.
    pub fn new(first: Ident, a: A, b: B) -> Self
        ensures first { result.first ≡ first }
        ensures a { result.a ≡ a }
        ensures b { result.b ≡ b }
    {
        EitherKdf { first, a, b }
    }
}

impl<A: PhcKdf, B: PhcKdf> PhcKdf for EitherKdf<A, B> {
    ghost use Rattle.phc_kdf.specs.Either.{either_accepted, either_needs, either_tag, length-either_tag};

    ghost accepted = { λ e. either_accepted e.first (A.accepted e.a) (B.accepted e.b) };

    ghost needs_memory = { λ e. either_needs e.first (A.needs_memory e.a) (B.needs_memory e.b) };

    ghost tag = { λ e. either_tag e.first (A.tag e.a) (B.tag e.b) };

    ghost tag_length = { λ e password parsed salt n.
        length-either_tag e.first (A.tag e.a) (B.tag e.b) (A.tag_length e.a) (B.tag_length e.b) password parsed salt n };

    fn accepts(&self, parsed: &PasswordHash, salt: &[u8], length: usize) -> bool {
        if parsed.algorithm.as_str() == self.first.as_str() {
            self.a.accepts(parsed, salt, length)
        } else {
            self.b.accepts(parsed, salt, length)
        }
    }

    fn derive(
        &self,
        alloc: Global,
        password: &[u8],
        parsed: &PasswordHash,
        salt: &[u8],
        out: &mut [u8],
    ) -> Result<(), AllocError> {
        if parsed.algorithm.as_str() == self.first.as_str() {
            self.a.derive(alloc, password, parsed, salt, out)
        } else {
            self.b.derive(alloc, password, parsed, salt, out)
        }
    }
}
