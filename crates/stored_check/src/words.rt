//! The word of a verdict, or of the cause that there is none.

ghost use Rattle.std.specs.Prelude.{◌≡◌, ◌≢◌, ◌≤◌, Err, length};
ghost use Rattle.stored_check.specs.Words.{mcf_word, phc_word, word};

use crate::{McfFault, PhcFault, ShaFault, StoredError};

/// The word of an answer of `check_stored`. Want of memory has none.
pub fn word(answer: &Result<bool, StoredError>) -> &'static str
    requires known { answer.now ≢ Err StoredError.OutOfMemory }
    ensures word { result.now ≡ word answer.now }
    ensures short { length result.now ≤ 17 }
{
    match *answer {
        Ok(true) => "match",
        Ok(false) => "mismatch",
        Err(StoredError::PasswordTooLong) => "password-too-long",
        Err(StoredError::Mcf(fault)) => mcf_word(fault),
        Err(StoredError::Sha(ShaFault::InvalidFormat(_))) => "sha-format",
        Err(StoredError::Sha(ShaFault::RoundsError)) => "sha-rounds",
        Err(StoredError::Phc(fault)) => phc_word(fault),
        Err(StoredError::NoHash) => "no-hash",
        Err(StoredError::Kdf) => "kdf",
        Err(StoredError::OutOfMemory) => unreachable!(),
    }
}

// The word of a fault of the modular crypt format.
fn mcf_word(fault: McfFault) -> &'static str
    ensures word { result.now ≡ mcf_word fault }
    ensures short { length result.now ≤ 17 }
{
    match fault {
        McfFault::DelimiterInvalid => "mcf-delimiter",
        McfFault::IdentifierInvalid => "mcf-identifier",
        McfFault::FieldInvalid => "mcf-field",
        McfFault::EncodingInvalid => "mcf-encoding",
    }
}

// The word of a fault of a PHC text.
fn phc_word(fault: PhcFault) -> &'static str
    ensures word { result.now ≡ phc_word fault }
    ensures short { length result.now ≤ 17 }
{
    match fault {
        PhcFault::ParamNameInvalid => "phc-name",
        PhcFault::ParamValueTooLong => "phc-value-long",
        PhcFault::ParamValueInvalid => "phc-value",
        PhcFault::ParamsMaxExceeded => "phc-params-long",
        PhcFault::SaltTooShort => "phc-salt-short",
        PhcFault::SaltTooLong => "phc-salt-long",
        PhcFault::Base64(base64ct::Error::InvalidEncoding) => "phc-b64",
        PhcFault::Base64(base64ct::Error::InvalidLength) => "phc-hash-long",
        PhcFault::OutputSize => "phc-hash-short",
        PhcFault::TrailingData => "phc-trailing",
    }
}
