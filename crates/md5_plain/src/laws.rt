//! Laws over the definitions.

ghost use Rattle.std.specs.Prelude.{◌≡◌, Some};
ghost use Rattle.md5_plain.specs.Laws.{FieldOfSomeDigest, FieldOnce};

use crate::{decode_md5, encode_md5};

/// The test for hash fields tells those of some digest.
pub fn field_of_some_digest()
    ensures told { FieldOfSomeDigest }
{}

/// Two digests with one hash field are equal.
pub fn field_once()
    ensures one { FieldOnce }
{}

/// A digest, encoded and decoded again, is itself.
pub fn round_trip_md5(tag: &[u8; 16]) -> Option<[u8; 16]>
    ensures digest { result ≡ Some tag.now }
{
    match decode_md5(&encode_md5(tag)) {
        Some(again) => Some(again),
        None => None,
    }
}
