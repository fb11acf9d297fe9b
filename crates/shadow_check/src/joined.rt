//! The lines of a shadow or htpasswd file, answered by a table of passwords.

ghost use Rattle.std.specs.Prelude.{◌≡◌, ◌≢◌, ◌==◌, ◌++◌, ◌∷◌, [], Err, IfOk, MatchOption, OnErr, OnOk, false, length, true};
ghost use Rattle.std.specs.Option.{option_copied};
ghost use Rattle.line_io.specs.Output.{Puts};
ghost use Rattle.stored_check.specs.declared.error.StoredError.TheVariants.{OutOfMemory};
ghost use Rattle.shadow_fields.specs.Passwords.{password_in};
ghost use Rattle.any_check.specs.Given.{given_may_lack, given_verdict};
ghost use Rattle.shadow_check.specs.Join.{both_answer, both_may_lack, is_join_match, join_answer, join_may_lack, join_word, password_answer, password_may_lack, text_answer, text_may_lack};

use crate::JoinAnswer;
use any_check::{AnyCheck, AnyError};
use line_io::{OutputBuffer, Sink};
use line_program::Responder;
use pieces::text::text_of;
use shadow_fields::{Passwords, cut_field, cut_user, is_locked, put_user};
use std::alloc::AllocError;

/// What answers the lines of a shadow or htpasswd file, each by itself.
#[derive(Drop)]
pub struct JoinedLines {
    pub check: AnyCheck,
    pub passwords: Passwords,
}

impl JoinedLines {
    // The answer for a password and a text; none where memory is wanting.
    #[inline(always)]
    fn checked(&self, password: &str, text: &str) -> Option<JoinAnswer>
        ensures answered { MatchOption result (given_may_lack self.now.check.limits password.now text.now ≡ true)
            (λ a. (a ≢ JoinAnswer.Checked (Err (AnyError.Stored OutOfMemory)))
            × (a ≡ JoinAnswer.Checked (given_verdict self.now.check.limits password.now text.now))) }
    {
        match self.check.known_verdict(password, text) {
            Some(answer) => Some(JoinAnswer::Checked(answer)),
            None => None,
        }
    }

    // The same where the text may not be UTF-8.
    #[inline(always)]
    fn text_answer(&self, password: &str, text: &[u8]) -> Option<JoinAnswer>
        ensures answered { MatchOption result (text_may_lack self.now.check.limits password.now text.now ≡ true)
            (λ a. (a ≢ JoinAnswer.Checked (Err (AnyError.Stored OutOfMemory)))
            × (a ≡ text_answer self.now.check.limits password.now text.now)) }
    {
        match text_of(text) {
            Some(text) => self.checked(password, text),
            None => Some(JoinAnswer::NotText),
        }
    }

    // The same where the password may not be UTF-8.
    #[inline(always)]
    fn both_answer(&self, password: &[u8], text: &[u8]) -> Option<JoinAnswer>
        ensures answered { MatchOption result (both_may_lack self.now.check.limits password.now text.now ≡ true)
            (λ a. (a ≢ JoinAnswer.Checked (Err (AnyError.Stored OutOfMemory)))
            × (a ≡ both_answer self.now.check.limits password.now text.now)) }
    {
        match text_of(password) {
            Some(password) => self.text_answer(password, text),
            None => Some(JoinAnswer::NotText),
        }
    }

    // The same by the user's password, if there is one.
    #[inline(always)]
    fn password_answer(&self, password: Option<&[u8]>, text: &[u8]) -> Option<JoinAnswer>
        ensures answered { MatchOption result (password_may_lack self.now.check.limits (option_copied password.entry) text.now ≡ true)
            (λ a. (a ≢ JoinAnswer.Checked (Err (AnyError.Stored OutOfMemory)))
            × (a ≡ password_answer self.now.check.limits (option_copied password.entry) text.now)) }
    {
        match password {
            Some(password) => self.both_answer(password, text),
            None => Some(JoinAnswer::NoPassword),
        }
    }

    // The answer for a user and a text.
    #[tactic(auto, unfolding(crate::specs::Join::join_answer, crate::specs::Join::join_may_lack))]
    #[inline(always)]
    fn answer_user(&self, user: &[u8], text: &[u8]) -> Option<JoinAnswer>
        ensures answered { MatchOption result
            (join_may_lack self.now.check.limits (password_in self.now.passwords user.now) text.now ≡ true)
            (λ a. (a ≢ JoinAnswer.Checked (Err (AnyError.Stored OutOfMemory)))
            × (a ≡ join_answer self.now.check.limits (password_in self.now.passwords user.now) text.now)) }
    {
        if text.is_empty() {
            return Some(JoinAnswer::Empty);
        }
        if is_locked(text) {
            return Some(JoinAnswer::Locked);
        }
        self.password_answer(self.passwords.get(user), text)
    }

    // Puts a user and the word for the user's text; or memory is wanting, and nothing is put.
    #[inline(always)]
    fn put_answer<K: Sink>(
        &self,
        user: &[u8],
        text: &[u8],
        out: &mut OutputBuffer,
        sink: &mut K,
    ) -> Result<bool, AllocError>
        ensures good { IfOk result (λ good. good
            ≡ is_join_match (join_answer self.now.check.limits (password_in self.now.passwords user.now) text.now)) }
        ensures reply { OnOk result (Puts (K.written sink.old) (K.written sink.new) (K.faults sink.old) (K.faults sink.new) out.old out.new
            (user.now ++ 9 ∷ (join_word (join_answer self.now.check.limits (password_in self.now.passwords user.now) text.now) ++ 10 ∷ []))) }
        ensures wants { OnErr result (join_may_lack self.now.check.limits (password_in self.now.passwords user.now) text.now ≡ true) }
        ensures nothing { OnErr result (Puts (K.written sink.old) (K.written sink.new) (K.faults sink.old) (K.faults sink.new) out.old out.new []) }
    {
        match self.answer_user(user, text) {
            Some(answer) => {
                put_user(out, sink, user, answer.word());
                let good = answer.is_match();
                // A digest took longer than a write.
                if answer.has_verdict() {
                    out.flush(sink);
                }
                Ok(good)
            }
            None => Err(AllocError),
        }
    }
}

impl Responder for JoinedLines {
    ghost use Rattle.shadow_check.specs.JoinRules.{joined_state_rules};

    ghost rules = { joined_state_rules };

    fn answer<K: Sink>(
        &mut self,
        line: &[u8],
        out: &mut OutputBuffer,
        sink: &mut K,
    ) -> Result<bool, AllocError> {
        match cut_user(line) {
            Some((user, rest)) => self.put_answer(user, cut_field(rest), out, sink),
            None => {
                out.put(sink, b"badline\n");
                Ok(false)
            }
        }
    }

    fn answer_long<K: Sink>(&mut self, out: &mut OutputBuffer, sink: &mut K) -> bool {
        out.put(sink, b"toolong\n");
        false
    }
}
