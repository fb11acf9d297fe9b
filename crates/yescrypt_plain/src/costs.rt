//! What a stored text asks for. Nothing is hashed, and no memory taken.

ghost use Rattle.std.specs.Prelude.{◌≡◌};
ghost use Rattle.yescrypt_plain.specs.Text.{scrypt_costs, yescrypt_costs};

use crate::text::{scrypt_text, yescrypt_text};
use crate::{ScryptParams, TextFault, YescryptParams};
use base64ct::Counts;

/// The parameters of a valid text `$y$`.
///
/// # Errors
///
/// The first fault of the text, in the order of [`TextFault`](crate::TextFault).
pub fn yescrypt_costs(stored: &str) -> Result<YescryptParams, TextFault>
    ensures costs { result ≡ yescrypt_costs stored.now }
{
    match yescrypt_text(stored, &mut Counts::new()) {
        Err(fault) => Err(fault),
        Ok(parts) => Ok(parts.params),
    }
}

/// The parameters of a valid text `$7$`.
///
/// # Errors
///
/// The first fault of the text, in the order of [`TextFault`](crate::TextFault).
pub fn scrypt_costs(stored: &str) -> Result<ScryptParams, TextFault>
    ensures costs { result ≡ scrypt_costs stored.now }
{
    match scrypt_text(stored, &mut Counts::new()) {
        Err(fault) => Err(fault),
        Ok(parts) => Ok(parts.params),
    }
}
