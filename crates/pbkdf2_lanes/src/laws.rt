//! Laws over the definitions.

ghost use Rattle.pbkdf2_lanes.specs.Laws.{FirstBytes};

/// A key of at most 32 bytes is the beginning of that of 32 bytes.
pub fn first_bytes()
    ensures { FirstBytes }
{}
