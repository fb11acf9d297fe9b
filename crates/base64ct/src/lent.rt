//! Buffers that are lent and handed back as slices of them: for crates whose calls lend theirs in the same way.

ghost use Rattle.std.specs.Prelude.{◌≡◌, ◌≤◌, length, take, Ok, Err, IfOk, MatchResult};
ghost use Rattle.std.specs.Str.{IsUtf8};
ghost use Rattle.std.specs.Borrow.{sem};
ghost use Rattle.std.specs.Borrow.{Array, u8 as byte};
ghost use Rattle.std.specs.Io.BufRead.{Rests};
ghost use Rattle.base64ct.specs.Lent.{Decodes, Encodes};

use crate::{Encoding, Error, InvalidLengthError};

/// A buffer that was lent to a call, and what came of the call: how many bytes it wrote at the buffer's
/// front, or what it refuses.
pub struct Filled<'d, F> {
    pub dst: &'d mut [u8],
    pub outcome: Result<usize, F>,
}

/// Decodes `src` into `dst`.
#[tactic(auto, unfolding(crate::specs::Lent::Decodes))]
pub(crate) fn fill_decoded<'d, E: Encoding>(src: &[u8], dst: &'d mut [u8]) -> Filled<'d, Error>
    ensures same { result.dst.ghost_name ≡ dst.entry.ghost_name }
    ensures fits { IfOk result.outcome (λ n. n ≤ length result.dst.now) }
    ensures told { Decodes E.alphabet src.now dst.old result.dst.now result.outcome }
{
    let outcome = E::decode_into(src, dst);
    Filled { dst, outcome }
}

/// All of `dst`.
fn shared<'d>(dst: &'d mut [u8]) -> &'d [u8]
    ensures* ends { sem 𝓛 (Rests (Array byte 0) dst.entry (λ new. new ≡ dst.old)) }
    ensures value { result.now ≡ dst.old }
{
    &*dst
}

fn decoded<'d>(bytes: &'d [u8], outcome: Result<usize, Error>) -> Result<&'d [u8], Error>
    requires { IfOk outcome (λ n. n ≤ length bytes.now) }
    ensures { MatchResult result (λ b. (outcome ≡ Ok (length b.now)) × (b.now ≡ take (length b.now) bytes.now))
        (λ e. outcome ≡ Err e) }
{
    match outcome {
        Ok(len) => Ok(&bytes[..len]),
        Err(e) => Err(e),
    }
}

/// The bytes at the front of the buffer, or what is refused.
pub(crate) fn finish_decoded<'d>(f: Filled<'d, Error>) -> Result<&'d [u8], Error>
    requires { IfOk f.outcome (λ n. n ≤ length f.dst.now) }
    ensures* ends { sem 𝓛 (Rests (Array byte 0) f.entry.dst (λ new. new ≡ f.entry.dst.now)) }
    ensures answer { MatchResult result
        (λ b. (f.entry.outcome ≡ Ok (length b.now)) × (b.now ≡ take (length b.now) f.entry.dst.now))
        (λ e. f.entry.outcome ≡ Err e) }
{
    let Filled { dst, outcome } = f;
    decoded(shared(dst), outcome)
}

/// Encodes `src` into `dst`.
#[tactic(auto, unfolding(crate::specs::Lent::Encodes))]
pub(crate) fn fill_encoded<'d, E: Encoding>(
    src: &[u8],
    dst: &'d mut [u8],
) -> Filled<'d, InvalidLengthError>
    ensures same { result.dst.ghost_name ≡ dst.entry.ghost_name }
    ensures fits { IfOk result.outcome (λ n. n ≤ length result.dst.now) }
    ensures text { IfOk result.outcome (λ n. IsUtf8 (take n result.dst.now)) }
    ensures told { Encodes E.alphabet src.now dst.old result.dst.now result.outcome }
{
    let outcome = E::encode_into(src, dst);
    Filled { dst, outcome }
}

fn encoded<'d>(
    bytes: &'d [u8],
    outcome: Result<usize, InvalidLengthError>,
) -> Result<&'d str, InvalidLengthError>
    requires fits { IfOk outcome (λ n. n ≤ length bytes.now) }
    requires text { IfOk outcome (λ n. IsUtf8 (take n bytes.now)) }
    ensures { MatchResult result (λ t. (outcome ≡ Ok (length t.now)) × (t.now ≡ take (length t.now) bytes.now))
        (λ e. outcome ≡ Err e) }
{
    match outcome {
        Ok(len) => Ok(unsafe { str::from_utf8_unchecked(&bytes[..len]) }),
        Err(e) => Err(e),
    }
}

/// The text at the front of the buffer, or what is refused. The buffer is no longer written then.
pub fn finish_encoded<'d>(f: Filled<'d, InvalidLengthError>) -> Result<&'d str, InvalidLengthError>
    requires fits { IfOk f.outcome (λ n. n ≤ length f.dst.now) }
    requires text { IfOk f.outcome (λ n. IsUtf8 (take n f.dst.now)) }
    ensures* ends { sem 𝓛 (Rests (Array byte 0) f.entry.dst (λ new. new ≡ f.entry.dst.now)) }
    ensures answer { MatchResult result
        (λ t. (f.entry.outcome ≡ Ok (length t.now)) × (t.now ≡ take (length t.now) f.entry.dst.now))
        (λ e. f.entry.outcome ≡ Err e) }
{
    let Filled { dst, outcome } = f;
    encoded(shared(dst), outcome)
}
