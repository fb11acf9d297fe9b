//! Fields in Base64 with padding, of the texts that are made.

ghost use Rattle.std.specs.Prelude.{◌≡◌, ◌≤◌, ◌+◌, ◌*◌, ◌/◌, ◌++◌, ◌∷◌, length};
ghost use Rattle.base64ct.specs.Alphabets.{base64};
ghost use Rattle.base64ct.specs.Encoding.{encoding};
ghost use Rattle.pieces.specs.Characters.{dollar};

use crate::kdf::MadeText;
use base64ct::{Base64, Encoding};

/// Appends a `$` and the encoding of bytes, which has at most `ROOM` characters.
pub(crate) fn push_field<const ROOM: usize>(text: &mut MadeText, bytes: &[u8])
    requires few { length bytes.now ≤ 64 }
    requires fits { (length bytes.now + 2) / 3 * 4 ≤ ROOM }
    requires room { length text.old + 1 + ROOM ≤ 221 }
    ensures appended { text.new ≡ text.old ++ dollar ∷ encoding base64 bytes.now }
    ensures len { length text.new ≤ length text.old + 1 + ROOM }
{
    let mut room = [0; ROOM];
    match Base64::encode_into(bytes, &mut room) {
        Ok(n) => {
            text.push_all(b"$");
            text.push_all(&room[..n]);
        }
        Err(_) => unreachable!(),
    }
}
