//! What the user of a line is answered with.

ghost use Rattle.std.specs.Prelude.{◌≡◌, ◌≢◌, Err};
ghost use Rattle.stored_check.specs.declared.error.StoredError.TheVariants.{OutOfMemory};
ghost use Rattle.shadow_check.specs.Join.{is_join_match, join_has_verdict, join_word};

use any_check::{AnyError, any_word};

/// The answer for a user, a stored text and the user's password.
#[derive(Clone, Copy, Debug, PartialEq, Eq)]
pub enum JoinAnswer {
    /// The text is empty: no password is asked for.
    Empty,
    /// The text begins with `*` or `!`: the account is locked.
    Locked,
    /// No line gives the user a password.
    NoPassword,
    /// The password or the text isn't UTF-8.
    NotText,
    /// The answer for the password and the text.
    Checked(Result<bool, AnyError>),
}

impl JoinAnswer {
    /// The word. Want of memory has none.
    #[inline(always)]
    pub fn word(&self) -> &'static str
        requires known { self.now ≢ JoinAnswer.Checked (Err (AnyError.Stored OutOfMemory)) }
        ensures word { result.now ≡ join_word self.now }
    {
        match self {
            JoinAnswer::Empty => "empty",
            JoinAnswer::Locked => "locked",
            JoinAnswer::NoPassword => "no-password",
            JoinAnswer::NotText => "badline",
            JoinAnswer::Checked(answer) => any_word(answer),
        }
    }

    /// Whether this is a match.
    #[inline(always)]
    pub fn is_match(&self) -> bool
        ensures matches { result ≡ is_join_match self.now }
    {
        matches!(self, JoinAnswer::Checked(Ok(true)))
    }

    /// Whether this is a match or a mismatch.
    #[inline(always)]
    pub fn has_verdict(&self) -> bool
        ensures verdict { result ≡ join_has_verdict self.now }
    {
        matches!(self, JoinAnswer::Checked(Ok(_)))
    }
}
