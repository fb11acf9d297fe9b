//! The version of the interface.

ghost use Rattle.std.specs.Prelude.{◌≡◌};
ghost use Rattle.pwcheck_c.specs.Version.{version};
ghost use Rattle.pwcheck_c.specs.Written.{IsWritten};

use crate::words::put_text;

/// Writes the version of the library, as `1.0`, with a zero behind it, and gives its length.
#[unsafe(no_mangle)]
pub extern "C" fn pwcheck_version(out: &mut [u8]) -> usize
    ensures version { IsWritten version out.old out.new result }
{
    put_text("1.1", out)
}
