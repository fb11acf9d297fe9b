//! The text.

ghost use Rattle.std.specs.Prelude.{◌≡◌};
ghost use Rattle.crypt_text.specs.Texts.{crypt_text, may_lack};
ghost use Rattle.pwcrypt_c.specs.Answers.{IsTextTold};

use crate::statuses::error_status;
use c_buffers::put;
use crypt_text::crypt_text;
use std::alloc::Global;

/// Writes the text that crypt(3) gives for a phrase and a setting, without a zero behind it.
#[unsafe(no_mangle)]
pub extern "C" fn pwcrypt_text(
    alloc: Global,
    phrase: &[u8],
    setting: &[u8],
    out: &mut [u8],
    len: &mut usize,
) -> i32
    ensures text { IsTextTold (crypt_text phrase.now setting.now) (may_lack phrase.now setting.now)
        out.old out.new len.old len.new result }
{
    match crypt_text(alloc, phrase, setting) {
        Ok(text) => put(text.as_slice(), out, len),
        Err(e) => error_status(e),
    }
}
