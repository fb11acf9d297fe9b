//! The top calls.

ghost use Rattle.std.specs.Prelude.{◌≡◌, ◌≢◌, ◌≤◌, ◌^◌, codes};
ghost use Rattle.line_io.specs.Devices.{WhereTold};
ghost use Rattle.pieces.specs.FaultCounts.{HasRisen};
ghost use Rattle.line_program.specs.Outcome.{Outcome};
ghost use Rattle.stored_check.specs.Verdict.{IsVerdict};
ghost use Rattle.pbkdf2_plain.specs.Run.{either_rules, is_costly, verdict_of_either};
ghost use Rattle.pbkdf2_key.specs.declared.profile.Pbkdf2Hash.TheVariants.{Sha256};

use crate::{EitherKdf, Pbkdf2Hash, Pbkdf2Plain};
use line_io::{Sink, Source};
use line_program::{PasswordCheck, PlainLines, run_plain};
use phc::Ident;
use scrypt_plain::ScryptKept;
use std::alloc::{AllocError, Global};
use stored_check::{StoredError, check_stored};

/// The most bytes of an input.
const INPUT_MAX: u64 = 1 << 40;

// scrypt for the identifier `scrypt`, and PBKDF2 with SHA-256 for all others.
fn scrypt_or_pbkdf2(alloc: Global) -> EitherKdf<ScryptKept, Pbkdf2Plain>
    ensures first { result.first ≡ codes "scrypt" }
    ensures hash { result.b.hash ≡ Sha256 }
{
    EitherKdf::new(
        Ident::new_unwrap("scrypt"),
        ScryptKept::new(alloc),
        Pbkdf2Plain {
            hash: Pbkdf2Hash::Sha256,
        },
    )
}

// The verdict by both.
fn check_either(
    alloc: Global,
    kdf: &EitherKdf<ScryptKept, Pbkdf2Plain>,
    password: &str,
    stored: &str,
) -> Result<bool, StoredError>
    requires first { kdf.now.first ≡ codes "scrypt" }
    requires hash { kdf.now.b.hash ≡ Sha256 }
    ensures verdict { IsVerdict (verdict_of_either password.now stored.now) (is_costly password.now stored.now) result }
{
    check_stored(alloc, kdf, password, stored)
}

/// What has the verdict by both.
#[derive(Drop)]
struct EitherCheck {
    alloc: Global,
    kdf: EitherKdf<ScryptKept, Pbkdf2Plain>,
    ghost first: { kdf.first ≡ codes "scrypt" },
    ghost hash: { kdf.b.hash ≡ Sha256 },
}

impl PasswordCheck for EitherCheck {
    ghost use Rattle.std.specs.Result.{result_ok};
    ghost use Rattle.pbkdf2_plain.specs.Run.{is_costly, verdict_of_either};

    ghost verdict = { λ check password stored. result_ok (verdict_of_either password stored) };

    ghost may_lack = { λ check password stored. is_costly password stored };

    fn check(&self, password: &str, stored: &str) -> Result<Option<bool>, AllocError> {
        match check_either(self.alloc, &self.kdf, password, stored) {
            Ok(matches) => Ok(Some(matches)),
            Err(StoredError::OutOfMemory) => Err(AllocError),
            Err(_) => Ok(None),
        }
    }
}

/// Answers each line of a source of at most `max` bytes with `match`, `mismatch` or `invalid`, and gives the status.
///
/// A line is a password, a tab and a stored text; `invalid` is each line that has more than 8,192 bytes, is no UTF-8,
/// has no tab, or whose text gets no verdict of `check_stored` with scrypt and PBKDF2 (with SHA-256). Statuses: 0 each line matches, 1
/// some line does not, 3 a read failed, 4 a write failed, 5 memory was wanting, 6 the source holds more than `max`
/// bytes. Only the key of a scrypt record takes memory: the table of the largest so far is kept until the
/// run ends.
pub fn run_either_limited<S: Source, K: Sink>(
    alloc: Global,
    source: &mut S,
    sink: &mut K,
    max: u64,
) -> u8
    requires bound { max ≤ 2 ^ 40 }

    // No other status comes.
    ensures statuses { (result ≤ 6) × (result ≢ 2) }

    // A fault is answered only where the count of that device rose in this call.
    ensures read_fault { result ≡ 3 → HasRisen (S.faults source.old) (S.faults source.new) }
    ensures write_fault { result ≡ 4 → HasRisen (K.faults sink.old) (K.faults sink.new) }

    // What was taken and written, for each status.
    ensures outcome { WhereTold (S.left source.old) (S.left source.new) (K.written sink.old) (K.written sink.new)
        (λ held taken added. Outcome either_rules result max held taken added) }
{
    let mut lines = PlainLines {
        check: EitherCheck {
            alloc,
            kdf: scrypt_or_pbkdf2(alloc),
        },
    };
    run_plain(&mut lines, source, sink, max)
}

/// The program: `run_either_limited` over a source of at most 2^40 bytes.
pub fn run_either<S: Source, K: Sink>(alloc: Global, source: &mut S, sink: &mut K) -> u8
    ensures statuses { (result ≤ 6) × (result ≢ 2) }
    ensures read_fault { result ≡ 3 → HasRisen (S.faults source.old) (S.faults source.new) }
    ensures write_fault { result ≡ 4 → HasRisen (K.faults sink.old) (K.faults sink.new) }
    ensures outcome { WhereTold (S.left source.old) (S.left source.new) (K.written sink.old) (K.written sink.new)
        (λ held taken added. Outcome either_rules result (2 ^ 40) held taken added) }
{
    run_either_limited(alloc, source, sink, INPUT_MAX)
}
