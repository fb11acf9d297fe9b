//! Which names users have, how many users there may be, which texts are taken, how a text is judged, and what an upgrade makes of it.

ghost use Rattle.std.specs.Prelude.{◌≡◌, ◌≤◌, None, false, is_some, length, not, string_bytes, true, IfOk, IfSome, OnErr};
ghost use Rattle.phc_kdf.specs.Limits.{password_max};
ghost use Rattle.pw_file.specs.Limits.{text_max};
ghost use Rattle.pw_file.specs.Policy.{IsLawful, TextPolicy};

use std::alloc::{AllocError, Global};

/// The kind of a table: the names of its users and their most, the texts that it takes, and the verdict on a text.
///
/// No value of a policy is needed: it is the parameter of [`Table`](crate::Table) and of what goes with it.
pub trait Policy: Drop {
    /// Why a text isn't taken.
    type TextFault: Copy;

    /// Why there is no verdict on a text. Want of memory is no such cause.
    type VerdictFault: Copy;

    /// What is kept from verdict to verdict, as the tables of derivations.
    type Kept: Drop;

    /// The policy, as the definitions have it.
    ghost policy: { TextPolicy Self.TextFault Self.VerdictFault };

    /// Whether this is the name of a user. A name has at most 64 bytes, without a tab and a line feed.
    fn is_name(name: &str) -> bool
        ensures { result ≡ policy.is_name name.now };

    /// Why the text isn't taken, if it isn't. A text that is taken has no line feed.
    fn text_fault(text: &str) -> Option<Self::TextFault>
        ensures { result ≡ policy.text_fault text.now };

    /// Whether no password is judged by the text.
    fn is_locked(text: &str) -> bool
        ensures { result ≡ policy.is_locked text.now };

    /// The verdict on a password and a text, or why there is none; or memory is wanting.
    fn verdict(
        alloc: Global,
        kept: &Self::Kept,
        password: &str,
        text: &str,
    ) -> Result<Result<bool, Self::VerdictFault>, AllocError>
        ensures verdict { IfOk result (λ answer. answer ≡ policy.verdict password.now text.now) }
        ensures wants { OnErr result (policy.may_lack password.now text.now ≡ true) };

    /// The most users of a table.
    fn users_max() -> usize
        ensures { result ≡ policy.users_max };

    /// Whether `remove`, which takes a user away, is a command.
    fn takes_remove() -> bool
        ensures { result ≡ policy.takes_remove };

    /// Whether a run over a store doesn't set the text, though the table would take it.
    fn is_refused(kept: &Self::Kept, text: &str) -> bool
        ensures { result ≡ policy.is_refused text.now };

    /// Whether a check of the password by the text asks for more than the bound on cost. Nothing is hashed for it.
    fn is_too_costly(kept: &Self::Kept, password: &str, text: &str) -> bool
        ensures { result ≡ policy.is_too_costly password.now text.now };

    /// Why the text of a salt isn't taken for an upgrade, if it isn't.
    fn salt_fault(kept: &Self::Kept, salt: &str) -> Option<phc::Error>
        ensures { result ≡ policy.salt_fault salt.now };

    /// The text that an upgrade by the password and the salt makes in the place of this text, which the password matches; none
    /// where this text stays; or out of memory.
    fn renewed(
        alloc: Global,
        kept: &Self::Kept,
        password: &str,
        salt: &str,
        text: &str,
    ) -> Result<Option<String>, AllocError>
        requires short { length password.now ≤ password_max }
        requires salt { policy.salt_fault salt.now ≡ None }
        ensures stays { IfOk result (λ new. is_some new ≡ not (policy.stays password.now salt.now text.now)) }
        ensures fresh { IfOk result (λ new. IfSome new (λ fresh. string_bytes fresh ≡ policy.fresh password.now salt.now)) };

    /// What the laws of tables rest on.
    ghost lawful: { IsLawful policy };
}
