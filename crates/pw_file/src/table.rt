//! The table.

ghost use Rattle.std.specs.Prelude.{◌≡◌, ◌≢◌, ◌⊎◌, ◌≤◌, ◌∷◌, ◌++◌, ℕ, List, [], true, Err, None, Ok, is_ok, is_some, length, slice_get, string_bytes, IfErr, IfOk, IfSome, OnErr, OnOk};
ghost use Rattle.std.specs.Option.{option_copied, option_map};
ghost use Rattle.pw_file.specs.Answers.{IsAnswer, check_answer, check_may_lack, done_of, exchange_answer, has_room, has_text, judged, judged_lack, open_text, remove_answer, renewal, set_answer, set_fault, upgrade_answer, upgrade_may_lack};
ghost use Rattle.pw_file.specs.Calls.{after_check, after_remove, after_set, after_upgrade, rows_after_remove, rows_after_set, rows_after_upgrade, with_text};
ghost use Rattle.pw_file.specs.History.{History, IsContentOf, text_in};
ghost use Rattle.pw_file.specs.Replies.{row_line};
ghost use Rattle.pw_file.specs.Limits.{text_max};
ghost use Rattle.phc_kdf.specs.Limits.{password_max};

use crate::{FileError, Policy, UserName};
use indexmap::IndexMap;
use pieces::short_bytes::ShortBytes;
use std::alloc::{AllocError, Global};
use std::marker::Model;

/// The most bytes of a text.
pub const TEXT_MAX: usize = 1_024;

/// The most bytes of a line of a listing: `set`, a tab, a name of 64 bytes, a tab, a text, a line feed.
pub const ROW_LINE_MAX: usize = 1_094;

/// Users and their stored texts, in the order in which the users came. Contracts see the list of them.
///
/// There are at most as many users as the policy allows, each with one text of at most 1,024 bytes. What the policy keeps from verdict to verdict
/// is given back when this is dropped.
#[derive(Drop)]
pub struct Table<P: Policy> {
    texts: IndexMap<UserName<P>, String>,
    kept: P::Kept,
    alloc: Global,
}

impl<P: Policy> Model for Table<P> {
    ghost use Rattle.std.specs.Prelude.{◌≡◌, ◌≤◌, ℕ, List, length, true};
    ghost use Rattle.pw_file.specs.Table.{are_short, rows_of};

    ghost Value = { List (List ℕ × List ℕ) };

    ghost view = { λ t. rows_of t.texts.entries };

    ghost invariant = { λ t. (length t.texts.entries ≤ P.policy.users_max) × (are_short t.texts.entries ≡ true) };
}

/// A user, and the text that it had before an exchange, if it had one.
#[derive(Drop)]
pub struct Replaced<P: Policy> {
    user: UserName<P>,
    text: Option<String>,
}

impl<P: Policy> Model for Replaced<P> {
    ghost use Rattle.std.specs.Prelude.{◌≤◌, ℕ, List, Option, IfSome, length, string_bytes};
    ghost use Rattle.std.specs.Option.{option_map};
    ghost use Rattle.pw_file.specs.Limits.{text_max};

    ghost Value = { List ℕ × Option (List ℕ) };

    ghost view = { λ r. (r.user, option_map string_bytes r.text) };

    ghost invariant = { λ r. IfSome r.text (λ text. length (string_bytes text) ≤ text_max) };
}

// An answer of `exchange`, without what it gives.
fn done_of<P: Policy>(
    answer: Result<Replaced<P>, FileError<P::TextFault, P::VerdictFault>>,
) -> Result<(), FileError<P::TextFault, P::VerdictFault>>
    ensures { result ≡ done_of answer }
{
    match answer {
        Ok(_replaced) => Ok(()),
        Err(e) => Err(e),
    }
}

/// The command that sets the text of the user, with its line feed.
pub fn line_of_row<P: Policy>(user: &UserName<P>, text: &str) -> ShortBytes<ROW_LINE_MAX>
    requires short { length text.now ≤ text_max }
    ensures line { result ≡ row_line (user.now, text.now) }
{
    let name = user.as_bytes();
    let mut line = ShortBytes::new();
    line.push_all(b"set\t");
    line.push_all(name);
    line.push_all(b"\t");
    line.push_all(text.as_bytes());
    line.push_all(b"\n");
    line
}

impl<P: Policy> Table<P> {
    /// No users. Verdicts use what is kept.
    pub fn new(alloc: Global, kept: P::Kept) -> Table<P>
        ensures empty { result ≡ [] }
        ensures content { IsContentOf P.policy [] result }
    {
        Table {
            texts: IndexMap::new(alloc),
            kept,
            alloc,
        }
    }

    /// How many users there are.
    pub fn len(&self) -> usize
        ensures len { result ≡ length self.now }
        ensures most { result ≤ P.policy.users_max }
    {
        self.texts.len()
    }

    /// The user at a place, by the order in which they came.
    pub fn user(&self, i: usize) -> Option<UserName<P>>
        ensures user { result ≡ option_map (λ row. row.0) (slice_get self.now i) }
    {
        match self.texts.get_index(i) {
            Some((user, _)) => Some(user.copied()),
            None => None,
        }
    }

    /// The user's text.
    pub fn get(&self, user: &UserName<P>) -> Option<&str>
        ensures text { option_copied result ≡ text_in self.now user.now }
    {
        match self.texts.get(user) {
            Some(text) => Some(text.as_str()),
            None => None,
        }
    }

    /// The user at a place and its text, which has at most 1,024 bytes.
    pub fn row(&self, i: usize) -> Option<(UserName<P>, &str)>
        ensures row { option_map (λ row. (row.0, row.1.now)) result ≡ slice_get self.now i }
        ensures short { IfSome result (λ row. length row.1.now ≤ text_max) }
    {
        match self.texts.get_index(i) {
            Some((user, text)) => Some((user.copied(), text.as_str())),
            None => None,
        }
    }

    /// The line of a listing for the user at a place.
    pub(crate) fn row_line(&self, i: usize) -> Option<ShortBytes<ROW_LINE_MAX>>
        ensures line { result ≡ option_map row_line (slice_get self.now i) }
    {
        match self.row(i) {
            Some((user, text)) => Some(line_of_row(&user, text)),
            None => None,
        }
    }

    // Whether the user has a text.
    fn has(&self, user: &UserName<P>) -> bool
        ensures has { result ≡ is_some (text_in self.now user.now) }
    {
        self.texts.contains_key(user)
    }

    // The user's text, by which a password is judged; or there is none, or it is locked.
    fn open_text(
        &self,
        user: &UserName<P>,
    ) -> Result<&str, FileError<P::TextFault, P::VerdictFault>>
        ensures text { IfOk result (λ text. open_text P.policy (text_in self.now user.now) ≡ Ok text.now) }
        ensures refused { IfErr result (λ e. open_text P.policy (text_in self.now user.now) ≡ Err e) }
    {
        match self.get(user) {
            Some(text) => {
                if P::is_locked(text) {
                    Err(FileError::Locked)
                } else {
                    Ok(text)
                }
            }
            None => Err(FileError::NoUser),
        }
    }

    /// Whether a run over a store doesn't set the text, though the table would take it.
    pub fn refuses(&self, text: &str) -> bool
        ensures refuses { result ≡ P.policy.is_refused text.now }
    {
        P::is_refused(&self.kept, text)
    }

    // The verdict on a text within the bound on cost.
    fn judged(
        &self,
        password: &str,
        text: &str,
    ) -> Result<bool, FileError<P::TextFault, P::VerdictFault>>
        ensures answer { IsAnswer (judged P.policy password.now text.now) (judged_lack P.policy password.now text.now) result }
    {
        if P::is_too_costly(&self.kept, password, text) {
            return Err(FileError::TooCostly);
        }
        match P::verdict(self.alloc, &self.kept, password, text) {
            Ok(Ok(matches)) => Ok(matches),
            Ok(Err(e)) => Err(FileError::Check(e)),
            Err(_) => Err(FileError::OutOfMemory),
        }
    }

    // Makes this the user's text, and gives the one before. A new user goes last. Only a new user can want memory.
    fn put(&mut self, user: &UserName<P>, text: String) -> Result<Replaced<P>, AllocError>
        requires room { has_room P.policy (text_in self.old user.now) (length self.old) ≡ true }
        requires short { length (string_bytes text) ≤ text_max }
        ensures put { OnOk result (self.new ≡ with_text self.old user.now (string_bytes text)) }
        ensures replaced { IfOk result (λ replaced. replaced ≡ (user.now, text_in self.old user.now)) }
        ensures err { OnErr result (self.new ≡ self.old) }
        ensures new { OnErr result (text_in self.old user.now ≡ None) }
    {
        match self.texts.insert(user.copied(), text) {
            Ok(text) => Ok(Replaced {
                user: user.copied(),
                text,
            }),
            Err(_) => Err(AllocError),
        }
    }

    // Why the text isn't taken for the user, if it isn't.
    fn set_fault(
        &self,
        user: &UserName<P>,
        text: &str,
    ) -> Option<FileError<P::TextFault, P::VerdictFault>>
        ensures fault { result ≡ set_fault P.policy (text_in self.now user.now) (length self.now) text.now }
    {
        if text.len() > TEXT_MAX {
            return Some(FileError::TextTooLong);
        }
        if let Some(e) = P::text_fault(text) {
            return Some(FileError::BadText(e));
        }
        if !self.has(user) && self.len() >= P::users_max() {
            return Some(FileError::Full);
        }
        None
    }

    // Makes a copy of this the user's text, and gives the one before.
    fn put_copy(
        &mut self,
        user: &UserName<P>,
        text: &str,
    ) -> Result<Replaced<P>, FileError<P::TextFault, P::VerdictFault>>
        requires room { has_room P.policy (text_in self.old user.now) (length self.old) ≡ true }
        requires short { length text.now ≤ text_max }
        ensures answer { (result ≡ Ok (user.now, text_in self.old user.now)) ⊎ (result ≡ Err FileError.OutOfMemory) }
        ensures rows { self.new ≡ rows_after_set self.old user.now text.now (done_of result) }
    {
        let Ok(copy) = String::from_str(self.alloc, text) else {
            return Err(FileError::OutOfMemory);
        };
        match self.put(user, copy) {
            Ok(replaced) => Ok(replaced),
            Err(_) => Err(FileError::OutOfMemory),
        }
    }

    /// Does what [`set`](Table::set) does, and gives what [`put_back`](Table::put_back) takes the change back by.
    pub fn exchange(
        &mut self,
        user: &UserName<P>,
        text: &str,
    ) -> Result<Replaced<P>, FileError<P::TextFault, P::VerdictFault>>
        ensures answer { IsAnswer
            (exchange_answer P.policy user.now (text_in self.old user.now) (length self.old) text.now)
            (is_ok (set_answer P.policy (text_in self.old user.now) (length self.old) text.now))
            result }
        ensures rows { self.new ≡ rows_after_set self.old user.now text.now (done_of result) }
        ensures content { (h : History) → IsContentOf P.policy h self.old
            → IsContentOf P.policy (after_set h user.now text.now (done_of result)) self.new }
    {
        match self.set_fault(user, text) {
            Some(e) => Err(e),
            None => {
                // That the name is one of the policy, which the prover has from this call.
                let _name = user.as_str();
                self.put_copy(user, text)
            }
        }
    }

    /// Takes the last [`exchange`](Table::exchange) back, with no memory: the text is again the one before, and a user
    /// that was new is gone.
    ///
    /// Several are taken back from the last to the first.
    pub fn put_back(&mut self, replaced: Replaced<P>)
        ensures back { (rows : List (List ℕ × List ℕ)) (new : List ℕ) → self.old ≡ with_text rows replaced.0 new
            → replaced.1 ≡ text_in rows replaced.0 → self.new ≡ rows }
    {
        let Replaced { user, text } = replaced;
        match text {
            Some(text) => self.put_again(&user, text),
            None => self.drop_last(),
        }
    }

    // Makes this the text of the user, where it has one. No memory is taken.
    fn put_again(&mut self, user: &UserName<P>, text: String)
        requires short { length (string_bytes text) ≤ text_max }
        ensures put { is_some (text_in self.old user.now) ≡ true
            → self.new ≡ with_text self.old user.now (string_bytes text) }
    {
        if self.has(user) {
            let _ = self.put(user, text);
        }
    }

    // Drops the last user.
    fn drop_last(&mut self)
        ensures dropped { (rows : List (List ℕ × List ℕ)) (row : List ℕ × List ℕ) → self.old ≡ rows ++ row ∷ [] → self.new ≡ rows }
    {
        let _ = self.texts.pop();
    }

    /// Makes this the user's text, in the place of the one before. A new user goes last.
    pub fn set(
        &mut self,
        user: &UserName<P>,
        text: &str,
    ) -> Result<(), FileError<P::TextFault, P::VerdictFault>>
        ensures answer { IsAnswer
            (set_answer P.policy (text_in self.old user.now) (length self.old) text.now)
            (is_ok (set_answer P.policy (text_in self.old user.now) (length self.old) text.now))
            result }
        ensures rows { self.new ≡ rows_after_set self.old user.now text.now result }
        ensures others { (other : List ℕ) → other ≢ user.now → text_in self.new other ≡ text_in self.old other }
        ensures content { (h : History) → IsContentOf P.policy h self.old
            → IsContentOf P.policy (after_set h user.now text.now result) self.new }
    {
        done_of(self.exchange(user, text))
    }

    /// Takes the user away. The last user takes its place. It takes no memory.
    pub fn remove(
        &mut self,
        user: &UserName<P>,
    ) -> Result<(), FileError<P::TextFault, P::VerdictFault>>
        ensures answer { result ≡ remove_answer P.policy (text_in self.old user.now) }
        ensures rows { self.new ≡ rows_after_remove self.old user.now result }
        ensures others { (other : List ℕ) → other ≢ user.now → text_in self.new other ≡ text_in self.old other }
        ensures content { P.policy.takes_remove ≡ true → (h : History) → IsContentOf P.policy h self.old
            → IsContentOf P.policy (after_remove h user.now result) self.new }
    {
        // That the name is one of the policy, which the prover has from this call.
        let _name = user.as_str();
        let removed = self.texts.swap_remove(user);
        if removed.is_none() {
            return Err(FileError::NoUser);
        }
        Ok(())
    }

    /// Whether the user's text matches the password.
    pub fn check(
        &self,
        user: &UserName<P>,
        password: &str,
    ) -> Result<bool, FileError<P::TextFault, P::VerdictFault>>
        ensures answer { IsAnswer
            (check_answer P.policy (text_in self.now user.now) password.now)
            (check_may_lack P.policy (text_in self.now user.now) password.now)
            result }
        ensures content { (h : History) → IsContentOf P.policy h self.now
            → IsContentOf P.policy (after_check h user.now password.now result) self.now }
    {
        match self.open_text(user) {
            Ok(text) => self.judged(password, text),
            Err(e) => Err(e),
        }
    }

    /// Checks as [`check`](Table::check). Where the text matches, this gives the new one that
    /// [`upgrade`](Table::upgrade) puts in its place, and changes nothing.
    pub fn renewed(
        &self,
        user: &UserName<P>,
        password: &str,
        salt: &str,
    ) -> Result<Option<String>, FileError<P::TextFault, P::VerdictFault>>
        ensures answer { IsAnswer
            (upgrade_answer P.policy (text_in self.now user.now) password.now salt.now)
            (upgrade_may_lack P.policy (text_in self.now user.now) password.now salt.now)
            (has_text result) }
        ensures text { IfOk result (λ new. IfSome new (λ text. string_bytes text ≡ P.policy.fresh password.now salt.now)) }
        ensures taken { IfOk result (λ new. IfSome new (λ text.
            set_answer P.policy (text_in self.now user.now) (length self.now) (string_bytes text) ≡ Ok tt)) }
    {
        let text = match self.open_text(user) {
            Ok(text) => text,
            Err(e) => return Err(e),
        };
        if let Some(e) = P::salt_fault(&self.kept, salt) {
            return Err(FileError::BadSalt(e));
        }
        match self.judged(password, text) {
            Ok(true) => self.fresh(password, salt, text),
            Ok(false) => Ok(None),
            Err(e) => Err(e),
        }
    }

    // The text that an upgrade makes in the place of one that the password matches; or the text stays, or out of memory.
    fn fresh(
        &self,
        password: &str,
        salt: &str,
        text: &str,
    ) -> Result<Option<String>, FileError<P::TextFault, P::VerdictFault>>
        requires short { length password.now ≤ password_max }
        requires salt { P.policy.salt_fault salt.now ≡ None }
        ensures answer { (has_text result ≡ renewal (P.policy.stays password.now salt.now text.now) (Ok true))
            ⊎ (has_text result ≡ Err FileError.OutOfMemory) }
        ensures text { IfOk result (λ new. IfSome new (λ fresh. string_bytes fresh ≡ P.policy.fresh password.now salt.now)) }
    {
        match P::renewed(self.alloc, &self.kept, password, salt, text) {
            Ok(Some(fresh)) => Ok(Some(fresh)),
            Ok(None) => Err(FileError::Kept),
            Err(_) => Err(FileError::OutOfMemory),
        }
    }

    /// Checks as [`check`](Table::check). Where the text matches, the user's text is from then on the one that the policy
    /// makes of the password and the salt, unless the policy leaves the text as it is: `FileError::Kept` says that.
    pub fn upgrade(
        &mut self,
        user: &UserName<P>,
        password: &str,
        salt: &str,
    ) -> Result<bool, FileError<P::TextFault, P::VerdictFault>>
        ensures answer { IsAnswer
            (upgrade_answer P.policy (text_in self.old user.now) password.now salt.now)
            (upgrade_may_lack P.policy (text_in self.old user.now) password.now salt.now)
            result }
        ensures rows { self.new ≡ rows_after_upgrade P.policy self.old user.now password.now salt.now result }
        ensures others { (other : List ℕ) → other ≢ user.now → text_in self.new other ≡ text_in self.old other }
        ensures content { (h : History) → IsContentOf P.policy h self.old
            → IsContentOf P.policy (after_upgrade h user.now password.now salt.now result) self.new }
    {
        match self.renewed(user, password, salt) {
            Ok(Some(text)) => {
                // That the name is one of the policy, which the prover has from this call.
                let _name = user.as_str();
                self.put_again(user, text);
                Ok(true)
            }
            Ok(None) => Ok(false),
            Err(e) => Err(e),
        }
    }
}
