//! The word of a verdict, or of the cause that there is none.

ghost use Rattle.std.specs.Prelude.{◌≡◌, ◌≢◌, ◌≤◌, Err, length};
ghost use Rattle.stored_check.specs.Words.{word};

use stored_check::StoredError;

/// The word of an answer of `check_stored`. Want of memory has none.
pub fn word(answer: &Result<bool, StoredError>) -> &'static str
    requires known { answer.now ≢ Err StoredError.OutOfMemory }
    ensures word { result.now ≡ word answer.now }
    ensures short { length result.now ≤ 17 }
{
    stored_check::word(answer)
}
