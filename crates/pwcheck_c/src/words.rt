//! The words of answers.

ghost use Rattle.std.specs.Prelude.{◌≡◌, ◌<◌, MatchOption};
ghost use Rattle.pwcheck_c.specs.Answers.{answer_of, answer_word};
ghost use Rattle.pwcheck_c.specs.Written.{IsWritten};

use crate::answer::Answer;

/// Writes the text and a zero to the front of `out` where there is room, and gives the length of the text.
pub(crate) fn put_text(text: &str, out: &mut [u8]) -> usize
    ensures written { IsWritten text.now out.old out.new result }
{
    let n = text.len();
    if n < out.len() {
        out[..n].copy_from_slice(text.as_bytes());
        out[n] = 0;
    }
    n
}

/// Writes the word of an answer's number, with a zero behind it, and gives the word's length; 0 for a number that is
/// no answer's.
#[unsafe(no_mangle)]
pub extern "C" fn pwcheck_word(number: i32, out: &mut [u8]) -> usize
    ensures word { MatchOption (answer_of number) ((result ≡ 0) × (out.new ≡ out.old))
        (λ a. IsWritten (answer_word a) out.old out.new result) }
{
    match Answer::with_number(number) {
        Some(answer) => put_text(answer.word(), out),
        None => 0,
    }
}
