//! `bench`: lines that are made from their number, checked, and counted.

ghost use Rattle.std.specs.Prelude.{◌≡◌, ◌⊎◌, ◌≤◌, ◌++◌, ◌%◌, ◌==◌, codes, Err, IfSome, IsAscii, if◌then◌else◌, length, string_bytes};
ghost use Rattle.std.specs.Io.KnownBytes.{Appends};
ghost use Rattle.line_io.specs.Devices.{AppendsPrefix};
ghost use Rattle.pieces.specs.FaultCounts.{HasRisen};
ghost use Rattle.rand_chacha.specs.ChaCha.{of_seed};
ghost use Rattle.rand_core.specs.Stream.{Stream, fill_bytes};
ghost use Rattle.sha_crypt.specs.Simple.{characters, sha256_text, sha512_text};
ghost use Rattle.pwcheck_run.specs.Bench.{line_seed, line_verdict, made_text, matches, mismatches, others, says_match, says_mismatch, scrypt_record, scrypt_text, summary, summary_text};
ghost use Rattle.phc_kdf.specs.Limits.{password_max};

use line_io::{Failed, Sink, write_all};
use line_program::status::{ALL_GOOD, NO_MEMORY, WRITE_FAULT};
use phc::{Ident, Output, ParamsString, PasswordHash, Salt};
use rand_chacha::ChaCha20Rng;
use rand_core::{Rng, SeedableRng};
use scrypt_plain::{ScryptPlain, scrypt};
use sha_crypt::{Sha256Params, Sha512Params, random_characters, sha256_simple, sha512_simple};
use std::alloc::Global;
use stored_check::{StoredError, check_stored};

/// The rounds of the texts of SHA-crypt.
const ROUNDS: usize = 1_000;

// The generator of line `i` among `n`.
fn line_rng(n: u64, i: u64) -> ChaCha20Rng
    ensures { result ≡ of_seed (line_seed n i) }
{
    let mut seed = [0; 32];
    seed[..8].copy_from_slice(&n.to_le_bytes());
    seed[8..16].copy_from_slice(&i.to_le_bytes());
    ChaCha20Rng::from_seed(seed)
}

// A text of SHA-256-crypt.
fn sha256_line<R: Rng>(alloc: Global, rng: &mut R, password: &str) -> Option<String>
    requires { length password.now ≤ password_max }
    ensures { IfSome result (λ t. string_bytes t ≡ sha256_text password.now (characters 16 (R.stream rng.old)).0 1000) }
{
    match Sha256Params::new(ROUNDS) {
        Ok(params) => match sha256_simple(alloc, rng, password, &params) {
            Ok(text) => Some(text),
            Err(_) => None,
        },
        Err(_) => unreachable!(),
    }
}

// A text of SHA-512-crypt.
fn sha512_line<R: Rng>(alloc: Global, rng: &mut R, password: &str) -> Option<String>
    requires { length password.now ≤ password_max }
    ensures { IfSome result (λ t. string_bytes t ≡ sha512_text password.now (characters 16 (R.stream rng.old)).0 1000) }
{
    match Sha512Params::new(ROUNDS) {
        Ok(params) => match sha512_simple(alloc, rng, password, &params) {
            Ok(text) => Some(text),
            Err(_) => None,
        },
        Err(_) => unreachable!(),
    }
}

// The record of scrypt for a salt and a key.
#[tactic(auto, unfolding(pieces::specs::Pieces::pieces_at))]
fn scrypt_parts(salt: Salt, key: &[u8; 32]) -> PasswordHash
    ensures { result ≡ scrypt_record salt key.now }
{
    let params = match "ln=4,r=8,p=1".parse::<ParamsString>() {
        Ok(params) => params,
        Err(_) => unreachable!(),
    };
    let hash = match Output::new(key) {
        Ok(hash) => hash,
        Err(_) => unreachable!(),
    };
    PasswordHash {
        algorithm: Ident::new_unwrap("scrypt"),
        version: None,
        params,
        salt: Some(salt),
        hash: Some(hash),
    }
}

// A record of scrypt, as text.
fn scrypt_line<R: Rng>(alloc: Global, rng: &mut R, password: &str) -> Option<String>
    requires { length password.now ≤ password_max }
    ensures { IfSome result (λ t. string_bytes t ≡ scrypt_text password.now (fill_bytes 16 (R.stream rng.old)).0) }
{
    let salt = Salt::from_rng(rng);
    let mut key = [0; 32];
    if scrypt(
        alloc,
        password.as_bytes(),
        salt.as_bytes(),
        4,
        8,
        1,
        &mut key,
    )
    .is_err()
    {
        return None;
    }
    let parsed = scrypt_parts(salt, &key);
    match format!(in alloc; "{parsed}") {
        Ok(text) => Some(text),
        Err(_) => None,
    }
}

// The stored text of line `i` for a password.
#[tactic(auto, unfolding(crate::specs::Bench::made_text))]
fn stored_text<R: Rng>(alloc: Global, i: u64, rng: &mut R, password: &str) -> Option<String>
    requires { length password.now ≤ password_max }
    ensures { IfSome result (λ t. string_bytes t ≡ made_text i password.now (R.stream rng.old)) }
{
    if i % 3 == 0 {
        return sha256_line(alloc, rng, password);
    }
    if i % 3 == 1 {
        return sha512_line(alloc, rng, password);
    }
    scrypt_line(alloc, rng, password)
}

// Eight characters and one letter more.
fn with_letter(drawn: &[u8; 8]) -> [u8; 9]
    ensures { result ≡ drawn.now ++ codes "x" }
{
    let mut longer = [b'x'; 9];
    longer[..8].copy_from_slice(drawn);
    longer
}

// The password that is checked for line `i`.
fn asked<'a>(i: u64, password: &'a str, longer: &'a str) -> &'a str
    ensures { result.now ≡ (if i % 4 == 3 then longer.now else password.now) }
{
    if i % 4 == 3 { longer } else { password }
}

// The verdict on line `i` among `n`; or want of memory.
fn check_line(alloc: Global, n: u64, i: u64) -> Result<bool, StoredError>
    ensures { (result ≡ line_verdict n i) ⊎ (result ≡ Err StoredError.OutOfMemory) }
{
    let mut rng = line_rng(n, i);
    let drawn = random_characters::<8, ChaCha20Rng>(&mut rng);
    let password = unsafe { str::from_utf8_unchecked(&drawn) };
    let Some(stored) = stored_text(alloc, i, &mut rng, password) else {
        return Err(StoredError::OutOfMemory);
    };
    let letters = with_letter(&drawn);
    let longer = unsafe { str::from_utf8_unchecked(&letters) };
    check_stored(
        alloc,
        &ScryptPlain,
        asked(i, password, longer),
        stored.as_str(),
    )
}

// How many lines have each answer.
#[derive(Drop)]
struct Counted {
    matches: u64,
    mismatches: u64,
    others: u64,
}

fn is_match(answer: &Result<bool, StoredError>) -> bool
    ensures { result ≡ says_match answer.now }
{
    matches!(answer, Ok(true))
}

fn is_mismatch(answer: &Result<bool, StoredError>) -> bool
    ensures { result ≡ says_mismatch answer.now }
{
    matches!(answer, Ok(false))
}

// The counts of the verdicts on all lines; none where memory is wanting.
fn count_lines(alloc: Global, n: u64) -> Option<Counted>
    requires { n ≤ 2000 }
    ensures { IfSome result (λ t. (t.matches ≡ matches n) × (t.mismatches ≡ mismatches n) × (t.others ≡ others n)) }
{
    let mut matches = 0;
    let mut mismatches = 0;
    let mut others = 0;
    'lines: for i in 0..n {
        let answer = check_line(alloc, n, i);
        if answer == Err(StoredError::OutOfMemory) {
            return None;
        }
        matches += is_match(&answer) as u64;
        mismatches += is_mismatch(&answer) as u64;
        others += answer.is_err() as u64;
    }
    Some(Counted {
        matches,
        mismatches,
        others,
    })
}

// The summary of counts.
fn text_of(alloc: Global, n: u64, counted: &Counted) -> Option<String>
    ensures { IfSome result (λ t. string_bytes t ≡ summary_text n counted.now.matches counted.now.mismatches counted.now.others) }
{
    let matches = counted.matches;
    let mismatches = counted.mismatches;
    let others = counted.others;
    match format!(in alloc; "lines {n} match {matches} mismatch {mismatches} other {others}\n") {
        Ok(text) => Some(text),
        Err(_) => None,
    }
}

// The summary of `n` lines; none where memory is wanting.
#[tactic(auto, unfolding(crate::specs::Bench::summary))]
fn bench_text(alloc: Global, n: u64) -> Option<String>
    requires { n ≤ 2000 }
    ensures { IfSome result (λ t. string_bytes t ≡ summary n) }
{
    match count_lines(alloc, n) {
        Some(counted) => text_of(alloc, n, &counted),
        None => None,
    }
}

/// Makes `n` lines and checks them, and writes their summary.
pub(crate) fn bench<K: Sink>(alloc: Global, n: u64, sink: &mut K) -> u8
    requires { n ≤ 2000 }
    ensures statuses { (result ≡ 0) ⊎ ((result ≡ 4) ⊎ (result ≡ 5)) }
    ensures done { result ≡ 0 → Appends (K.written sink.old) (K.written sink.new) (summary n) }
    ensures part { result ≡ 4 → AppendsPrefix (K.written sink.old) (K.written sink.new) (summary n) }
    ensures untouched { result ≡ 5 → sink.new ≡ sink.old }
    ensures cause { result ≡ 4 → HasRisen (K.faults sink.old) (K.faults sink.new) }
{
    let text = match bench_text(alloc, n) {
        Some(text) => text,
        None => return NO_MEMORY,
    };
    match write_all(sink, text.as_bytes()) {
        Ok(()) => ALL_GOOD,
        Err(Failed) => WRITE_FAULT,
    }
}
