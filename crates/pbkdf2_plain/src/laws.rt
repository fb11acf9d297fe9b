//! Laws over the definitions, those of `pbkdf2_key` among them.

ghost use Rattle.std.specs.Prelude.{◌≡◌, ℕ, List, if◌then◌else◌};
ghost use Rattle.mcf.specs.Grammar.{mcf};
ghost use Rattle.stored_check.specs.Verdict.{may_lack_memory, verdict};
ghost use Rattle.pbkdf2_plain.specs.Laws.{CostlyTexts, EitherMayLack, EitherVerdict, HmacOfSha256, OneRound, has_identifier};

use crate::EitherKdf;
pub use pbkdf2_key::laws::{code_length, key_length, shorter_key};
use phc_kdf::PhcKdf;

/// HMAC-SHA-256, as scrypt has it, is the same HMAC as that of SHA-512, with SHA-256 and its blocks of 64 bytes.
pub fn hmac_of_sha256()
    ensures { HmacOfSha256 }
{}

/// One round with SHA-256 is the derivation that scrypt makes.
pub fn one_round()
    ensures { OneRound }
{}

/// The verdict by two derivations is that by the first for the texts with its identifier, and that by the second for
/// all others; and so is whether memory may be wanting for it, which is for just the valid texts with the first's
/// identifier where the first may need memory for every record and the second for none.
pub fn either_verdict()
    ensures verdict { EitherVerdict }
    ensures memory { EitherMayLack }
    ensures costly { CostlyTexts }
{}

/// The same of [`EitherKdf`] and what it is made of.
pub fn verdict_of_either<A: PhcKdf, B: PhcKdf>(kdf: &EitherKdf<A, B>)
    ensures verdict { (password stored : List ℕ)
        → verdict (⟦<EitherKdf<A, B> as PhcKdf>⟧.accepted kdf.now) (⟦<EitherKdf<A, B> as PhcKdf>⟧.tag kdf.now)
        password stored
        ≡ (if has_identifier kdf.now.first (mcf stored)
        then verdict (A.accepted kdf.now.a) (A.tag kdf.now.a) password stored
        else verdict (B.accepted kdf.now.b) (B.tag kdf.now.b) password stored) }
    ensures memory { (password stored : List ℕ)
        → may_lack_memory (⟦<EitherKdf<A, B> as PhcKdf>⟧.accepted kdf.now)
        (⟦<EitherKdf<A, B> as PhcKdf>⟧.needs_memory kdf.now) (⟦<EitherKdf<A, B> as PhcKdf>⟧.tag kdf.now)
        password stored
        ≡ (if has_identifier kdf.now.first (mcf stored)
        then may_lack_memory (A.accepted kdf.now.a) (A.needs_memory kdf.now.a) (A.tag kdf.now.a) password stored
        else may_lack_memory (B.accepted kdf.now.b) (B.needs_memory kdf.now.b) (B.tag kdf.now.b) password stored) }
{}
