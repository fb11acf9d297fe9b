//! The word of an answer, with the cause where there is no verdict.

ghost use Rattle.std.specs.Prelude.{◌≡◌, ◌≤◌, length};
ghost use Rattle.shadow_table.specs.Words.{answer_word};

use crate::FieldFault;
use any_check::{AnyError, any_word};
use pw_file::{FileError, check_word};
use stored_check::StoredError;

/// The word of an answer of `Table::check`: that of `any_word` where there is no verdict on the user's text, so the cause,
/// which the reply of a command file leaves out; else the word of the reply. A table never answers want of memory as a
/// cause: for that the word is empty.
pub fn answer_word(answer: Result<bool, FileError<FieldFault, AnyError>>) -> &'static str
    ensures word { result.now ≡ answer_word answer }
    ensures short { length result.now ≤ 17 }
{
    match answer {
        Err(FileError::Check(AnyError::Stored(StoredError::OutOfMemory))) => "",
        Err(FileError::Check(e)) => any_word(&Err(e)),
        answer => check_word(answer).as_str(),
    }
}
