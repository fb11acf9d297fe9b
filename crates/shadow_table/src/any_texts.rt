//! The policy.

ghost use Rattle.std.specs.Prelude.{◌≡◌, None};

use crate::fields::{is_field, is_locked_text, is_user_name};
use crate::{FieldFault, TableRules};
use any_check::{AnyCheck, AnyError};
use pw_file::Policy;
use std::alloc::{AllocError, Global};
use std::marker::{Brand, PhantomData};

/// The rules of a table, as a parameter of its type, so that contracts can speak of them.
///
/// Rules that are known only at a call are picked there, by [`Brand`]; others are those of a type that has this trait.
pub trait TableRuled {
    ghost use Rattle.shadow_table.specs.declared.rules.TableRules.{TableRules};

    /// The rules.
    ghost rules: { TableRules };
}

impl TableRuled for Brand {
    ghost use Rattle.shadow_table.specs.Plain.{plain_rules};

    ghost rules = { plain_rules };
}

/// Names of 1 to 64 bytes of UTF-8 without control characters and colons; texts of printable ASCII without a colon, locked
/// where they begin with `*` or `!`; the verdicts of `check_any`; at most 1,000,000 users, who can be taken away; bounds on cost, refused
/// texts and upgrades by the rules.
#[derive(Drop)]
pub struct AnyTexts<K: TableRuled> {
    of: PhantomData<K>,
}

/// The rules, and the tables that are kept from verdict to verdict: the largest of scrypt, of Argon2 and of yescrypt so far.
#[derive(Drop)]
pub struct AnyKept<K: TableRuled> {
    pub check: AnyCheck,
    pub rules: TableRules,
    of: PhantomData<K>,
    pub ghost unbounded: { check.limits ≡ None },
    pub ghost ruled: { rules ≡ K.rules },
}

impl<K: TableRuled> AnyKept<K> {
    /// No table is kept yet.
    pub fn new(alloc: Global, rules: TableRules) -> AnyKept<K>
        requires rules { rules ≡ K.rules }
    {
        AnyKept {
            check: AnyCheck::new(alloc, None),
            rules,
            of: PhantomData,
        }
    }
}

impl<K: TableRuled> Policy for AnyTexts<K> {
    ghost use Rattle.shadow_table.specs.AnyTexts.{any_texts};
    ghost use Rattle.shadow_table.specs.AnyLaws.{any_lawful};

    type TextFault = FieldFault;

    type VerdictFault = AnyError;

    type Kept = AnyKept<K>;

    ghost policy = { any_texts K.rules };

    fn is_name(name: &str) -> bool {
        is_user_name(name)
    }

    fn text_fault(text: &str) -> Option<FieldFault> {
        if is_field(text) {
            None
        } else {
            Some(FieldFault::Byte)
        }
    }

    fn is_locked(text: &str) -> bool {
        is_locked_text(text)
    }

    fn verdict(
        _alloc: Global,
        kept: &AnyKept<K>,
        password: &str,
        text: &str,
    ) -> Result<Result<bool, AnyError>, AllocError> {
        match kept.check.known_verdict(password, text) {
            Some(answer) => Ok(answer),
            None => Err(AllocError),
        }
    }

    fn users_max() -> usize {
        1_000_000
    }

    fn takes_remove() -> bool {
        true
    }

    fn is_refused(kept: &AnyKept<K>, text: &str) -> bool {
        kept.rules.is_refused(text)
    }

    fn is_too_costly(kept: &AnyKept<K>, password: &str, text: &str) -> bool {
        kept.rules.is_too_costly(password, text)
    }

    fn salt_fault(kept: &AnyKept<K>, salt: &str) -> Option<phc::Error> {
        kept.rules.salt_fault(salt)
    }

    fn renewed(
        alloc: Global,
        kept: &AnyKept<K>,
        password: &str,
        salt: &str,
        text: &str,
    ) -> Result<Option<String>, AllocError> {
        kept.rules.renewed(alloc, password, salt, text)
    }

    ghost lawful = { any_lawful K.rules };
}
