//! The rules of a run over a table.

ghost use Rattle.std.specs.Prelude.{◌≡◌, ◌≤◌, None, length, not, is_some, string_bytes, IfOk, IfSome};
ghost use Rattle.any_check.specs.Cost.{is_costly};
ghost use Rattle.any_check.specs.Kinds.{is_valid};
ghost use Rattle.any_check.specs.Records.{accepted};
ghost use Rattle.phc_kdf.specs.Limits.{password_max};
ghost use Rattle.shadow_table.specs.Rules.{fault_of_salt, fresh_text, is_put, is_refused_text, is_too_costly, is_unmatched, keeps};

use crate::fields::{is_field, is_locked_text};
use crate::strength::{is_weaker_kind, keeps_kind};
use any_check::{PlainRecords, SchemeCosts, TextKind, text_kind};
use any_make::{Argon2Cost, MakeCost, MakeFault, made_text};
use phc::Salt;
use pieces::text::text_of;
use pw_file::TEXT_MAX;
use std::alloc::{AllocError, Global};
use stored_check::PASSWORD_MAX;

/// The rules of a run over a table: a bound on cost, which texts are set, and what an upgrade makes.
#[derive(Clone, Copy)]
pub struct TableRules {
    /// A `check` and an `upgrade` by a text that asks for more are answered `too-costly`, before anything is hashed.
    pub limits: Option<SchemeCosts>,
    /// Whether a `set` of a text that isn't locked and that no password matches is answered `invalid`.
    pub strict: bool,
    /// What an upgrade makes in the place of a text that the password matches, unless the text is of that scheme with at least
    /// these costs, or asks for more memory or work.
    pub upgrade_to: MakeCost,
}

/// The rules where nothing else is said: no bound on cost, no text refused, and upgrades to what is recommended for Argon2id.
pub const PLAIN_RULES: TableRules = TableRules {
    limits: None,
    strict: false,
    upgrade_to: MakeCost::Argon2id(Argon2Cost {
        memory: 65_536,
        passes: 3,
        lanes: 4,
    }),
};

// Whether a text asks for more than the bound.
#[tactic(auto, unfolding(any_check::specs::Cost::is_costly))]
fn is_costly(limits: &SchemeCosts, text: &str) -> bool
    ensures { result ≡ is_costly accepted limits.now text.now }
{
    match text_kind(&PlainRecords, text) {
        TextKind::NoScheme | TextKind::Invalid => false,
        TextKind::Valid(text) => text.costs.is_above(&limits.of(text.scheme)),
    }
}

// Whether a text has a verdict.
fn is_valid(kind: TextKind) -> bool
    ensures { result ≡ is_valid kind }
{
    match kind {
        TextKind::NoScheme | TextKind::Invalid => false,
        TextKind::Valid(_) => true,
    }
}

// Whether the table takes the text, and no password matches it, though it isn't locked.
fn is_unmatched(text: &str) -> bool
    ensures { result ≡ is_unmatched text.now }
{
    text.len() <= TEXT_MAX
        && is_field(text)
        && !is_locked_text(text)
        && !is_valid(text_kind(&PlainRecords, text))
}

impl TableRules {
    /// Whether a check of the password by the text asks for more than the bound.
    pub(crate) fn is_too_costly(&self, password: &str, text: &str) -> bool
        ensures { result ≡ is_too_costly self.now.limits password.now text.now }
    {
        match &self.limits {
            Some(limits) => password.len() <= PASSWORD_MAX && is_costly(limits, text),
            None => false,
        }
    }

    /// Whether no run by these rules sets the text.
    pub(crate) fn is_refused(&self, text: &str) -> bool
        ensures { result ≡ is_refused_text self.now text.now }
    {
        self.strict && is_unmatched(text)
    }

    /// Why the text of a salt isn't taken, if it isn't.
    pub(crate) fn salt_fault(&self, salt: &str) -> Option<phc::Error>
        ensures { result ≡ fault_of_salt self.now salt.now }
    {
        match Salt::from_b64(salt) {
            Ok(salt) => {
                let len = salt.as_bytes().len();
                if len < self.upgrade_to.salt_length() {
                    Some(phc::Error::SaltTooShort)
                } else if len > self.upgrade_to.salt_length() {
                    Some(phc::Error::SaltTooLong)
                } else {
                    None
                }
            }
            Err(e) => Some(e),
        }
    }

    // Whether a text that was made comes in the place of the old one.
    fn is_put(&self, password: &str, old: &str, fresh: &str) -> bool
        ensures { result ≡ is_put self.now password.now old.now fresh.now }
    {
        fresh.len() <= TEXT_MAX
            && is_field(fresh)
            && !is_locked_text(fresh)
            && !self.is_too_costly(password, fresh)
            && !is_weaker_kind(
                text_kind(&PlainRecords, fresh),
                text_kind(&PlainRecords, old),
            )
    }

    // A text that was made, where it comes in the place of the old one.
    fn put(
        &self,
        alloc: Global,
        password: &str,
        old: &str,
        fresh: &[u8],
    ) -> Result<Option<String>, AllocError>
        ensures put { IfOk result (λ new. is_some new ≡ is_put self.now password.now old.now fresh.now) }
        ensures fresh { IfOk result (λ new. IfSome new (λ text. string_bytes text ≡ fresh.now)) }
    {
        let Some(fresh) = text_of(fresh) else {
            return Ok(None);
        };
        if !self.is_put(password, old, fresh) {
            return Ok(None);
        }
        Ok(Some(String::from_str(alloc, fresh)?))
    }

    /// The text that an upgrade makes in the place of the old one, which the password matches; none where the old one stays; or out
    /// of memory.
    pub(crate) fn renewed(
        &self,
        alloc: Global,
        password: &str,
        salt: &str,
        old: &str,
    ) -> Result<Option<String>, AllocError>
        requires salt { fault_of_salt self.now salt.now ≡ None }
        ensures stays { IfOk result (λ new. is_some new ≡ not (keeps self.now password.now salt.now old.now)) }
        ensures fresh { IfOk result (λ new. IfSome new (λ fresh. string_bytes fresh ≡ fresh_text self.now password.now salt.now)) }
    {
        if keeps_kind(self.upgrade_to, text_kind(&PlainRecords, old)) {
            return Ok(None);
        }
        let Ok(salt) = Salt::from_b64(salt) else {
            // A salt without a fault is always read.
            return Err(AllocError);
        };
        match made_text(alloc, self.upgrade_to, password.as_bytes(), salt.as_bytes()) {
            Ok(fresh) => self.put(alloc, password, old, fresh.as_slice()),
            Err(MakeFault::OutOfMemory) => Err(AllocError),
            Err(_) => Ok(None),
        }
    }
}
