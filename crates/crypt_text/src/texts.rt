//! The text for a phrase and a setting.

ghost use Rattle.std.specs.Prelude.{◌≡◌, ◌≤◌, ◌&&◌, is_ok, length};
ghost use Rattle.crypt_text.specs.Limits.{phrase_max};
ghost use Rattle.scheme_list.specs.Schemes.{method_of};
ghost use Rattle.crypt_text.specs.Texts.{IsAnswer, crypt_text, may_lack, method_text, takes_memory};

use crate::CryptError;
use crate::bcrypt_texts::bcrypt_answer;
use crate::bytes::has_refused;
use crate::md5_texts::md5_text;
use crate::scrypt_texts::scrypt_answer;
use crate::sha_texts::sha_answer;
use crate::sha1_texts::sha1_answer;
use crate::yescrypt_texts::yescrypt_answer;
use pieces::short_bytes::ShortBytes;
use scheme_list::{Scheme, method_of};
use sha_crypt::Family;
use std::alloc::Global;

/// The most bytes of a phrase.
pub const PHRASE_MAX: usize = 511;

/// The most bytes of a setting of `$7$` and `$y$`.
pub(crate) const LONG_SETTING_MAX: usize = 339;

/// Room for the longest text and a zero byte behind it.
pub const TEXT_MAX: usize = 384;

// By the method of the setting.
fn method_text(
    alloc: Global,
    phrase: &[u8],
    setting: &[u8],
) -> Result<ShortBytes<TEXT_MAX>, CryptError>
    requires phrase { length phrase.now ≤ phrase_max }
    ensures { let expected = method_text (method_of setting.now) phrase.now setting.now
        in IsAnswer expected (takes_memory (method_of setting.now) && is_ok expected) result }
{
    match method_of(setting) {
        Some(Scheme::Md5Crypt) => Ok(md5_text(phrase, &setting[3..])),
        Some(Scheme::Sha256Crypt) => sha_answer(Family::Sha256, phrase, &setting[3..]),
        Some(Scheme::Sha512Crypt) => sha_answer(Family::Sha512, phrase, &setting[3..]),
        Some(Scheme::Bcrypt) => bcrypt_answer(phrase, setting),
        Some(Scheme::Yescrypt) => yescrypt_answer(alloc, phrase, setting),
        Some(Scheme::ScryptCrypt) => scrypt_answer(alloc, phrase, setting),
        Some(Scheme::Sha1Crypt) => sha1_answer(phrase, setting),
        _ => Err(CryptError::Setting),
    }
}

/// The text that crypt(3) gives for a phrase and a setting: the setting's front, up to the end of its salt, and the hash of the
/// phrase. A stored text is a setting: what follows the salt is ignored. So a phrase matches a stored text where the answer is
/// that text.
///
/// # Errors
///
/// The first of these: `TooLong` for a phrase of 512 bytes and more, whatever the setting; `Setting` for a byte that no
/// setting has, wherever it stands, and for a method that is not known here; `TooLong` for a setting of `$7$` or `$y$` of 340
/// bytes and more; `Setting` for what the method refuses. Want of memory comes only where there would be a text of `$7$` or
/// `$y$`.
#[tactic(auto, unfolding(crate::specs::Texts::crypt_text, crate::specs::Texts::may_lack))]
pub fn crypt_text(
    alloc: Global,
    phrase: &[u8],
    setting: &[u8],
) -> Result<ShortBytes<TEXT_MAX>, CryptError>
    ensures text { IsAnswer (crypt_text phrase.now setting.now) (may_lack phrase.now setting.now) result }
{
    if phrase.len() > PHRASE_MAX {
        return Err(CryptError::TooLong);
    }
    if has_refused(setting) {
        return Err(CryptError::Setting);
    }
    method_text(alloc, phrase, setting)
}
