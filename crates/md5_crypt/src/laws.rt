//! Laws over the definitions, those of `md5_plain` among them.

ghost use Rattle.md5_crypt.specs.Laws.{NoWantOfMemory};

pub use md5_plain::laws::{field_of_some_digest, field_once, round_trip_md5};

/// Want of memory is no verdict and no cause: the definition never gives it.
pub fn no_want_of_memory()
    ensures none { NoWantOfMemory }
{}
