//! The lines of a run, one by one.

ghost use Rattle.std.specs.Prelude.{◌≡◌, ◌+◌, ◌≤◌, ◌<◌, ◌&&◌, ◌++◌, ◌∷◌, [], Bool, ℕ, List, false, true, length, OnErr};
ghost use Rattle.line_io.specs.Limits.{line_max};
ghost use Rattle.line_io.specs.Output.{has_failed};
ghost use Rattle.line_log.specs.Log.{group_max};
ghost use Rattle.pw_file.specs.Commands as of;
ghost use Rattle.pw_file.specs.Lines.{Asks};
ghost use Rattle.pw_store.specs.Progress.{Begun, IsReady, Progress, Serves, count_of, held_by, oks};
ghost use Rattle.pw_store.specs.Run.{asks_change};
ghost use Rattle.pw_store.specs.Staged.{lines_of};
ghost use Rattle.pw_store.specs.Stored.{IsSound, rows_of, size_of, takes_changes};

use crate::group::Group;
use crate::replies::{put_refusal, put_verdict, put_word, put_words, refusal_word};
use crate::{Store, StoreError};
use line_io::{Failed, OutputBuffer, Sink};
use line_log::Device;
use pw_file::{Command, FileError, Policy, ROW_LINE_MAX, UserName, Word, answer_line, put_reply};
use std::alloc::AllocError;

impl<D: Device, P: Policy> Store<D, P> {
    /// Puts the changes that wait into the file, and then their replies.
    pub(crate) fn commit<K: Sink>(
        &mut self,
        group: &mut Group<P>,
        out: &mut OutputBuffer,
        sink: &mut K,
    )
        requires ready { IsReady P.policy D.seen D.may_leave self.old group.old }
        ensures ready { IsReady P.policy D.seen D.may_leave self.new group.new }
        ensures sound { IsSound P.policy D.seen D.may_leave self.new }
        ensures lines { lines_of group.new ≡ [] }
        ensures none { count_of group.new ≡ 0 }
        ensures rows { takes_changes self.new ≡ true → rows_of self.new ≡ rows_of self.old }
        ensures size { takes_changes self.new ≡ true → size_of self.new ≡ size_of self.old + length (lines_of group.old) }
        ensures open { takes_changes self.new ≡ true → takes_changes self.old ≡ true }
        ensures idle { count_of group.old ≡ 0 → (takes_changes self.new ≡ takes_changes self.old) × (rows_of self.new ≡ rows_of self.old) }
        ensures stays { has_failed out.old ≡ true → has_failed out.new ≡ true }
        ensures goes_on { (from : Begun D) (asked : List (List ℕ)) (all : Bool)
            → Progress P.policy D.seen D.may_leave D.moment D.left_since D.faults from asked
            (held_by self.old group.old) (oks (count_of group.old)) out.old (K.written sink.old) (K.faults sink.old) all
            → Progress P.policy D.seen D.may_leave D.moment D.left_since D.faults from asked
            (held_by self.new group.new) [] out.new (K.written sink.new) (K.faults sink.new) all }
    {
        if !self.is_open {
            return;
        }
        let count = group.count();
        match self.settle(group) {
            Ok(()) => put_words(Word::Done, count, out, sink),
            Err(Failed) => put_words(Word::DiskFault, count, out, sink),
        }
    }

    /// Answers a `set`: its change waits with the others, or it is refused.
    fn serve_set<K: Sink>(
        &mut self,
        group: &mut Group<P>,
        user: &UserName<P>,
        text: &str,
        out: &mut OutputBuffer,
        sink: &mut K,
    ) -> Result<bool, AllocError>
        requires ready { IsReady P.policy D.seen D.may_leave self.old group.old }
        requires room { length (lines_of group.old) + ROW_LINE_MAX ≤ group_max }
        requires free { P.policy.is_refused text.now ≡ false }
        ensures ready { IsReady P.policy D.seen D.may_leave self.new group.new }
        ensures none { OnErr result (count_of group.new ≡ 0) }
        ensures served { (line : List ℕ) → Asks P.policy line (of.Set user.now text.now)
            → Serves P.policy D.seen D.may_leave D.moment D.left_since D.faults self.old self.new
            group.old group.new out.old out.new K.written K.faults sink.old sink.new line result }
    {
        match self.stage(group, user, text) {
            Ok(()) => Ok(true),
            Err(e) => {
                self.commit(group, out, sink);
                put_refusal(refusal_word(self.is_open, e), out, sink)
            }
        }
    }

    /// Answers a `set` of a text that the policy lets no run set.
    fn serve_refused<K: Sink>(
        &mut self,
        group: &mut Group<P>,
        out: &mut OutputBuffer,
        sink: &mut K,
    ) -> Result<bool, AllocError>
        requires ready { IsReady P.policy D.seen D.may_leave self.old group.old }
        ensures ready { IsReady P.policy D.seen D.may_leave self.new group.new }
        ensures none { OnErr result (count_of group.new ≡ 0) }
        ensures served { (line user text : List ℕ) → Asks P.policy line (of.Set user text) → P.policy.is_refused text ≡ true
            → Serves P.policy D.seen D.may_leave D.moment D.left_since D.faults self.old self.new
            group.old group.new out.old out.new K.written K.faults sink.old sink.new line result }
    {
        self.commit(group, out, sink);
        let refusal = StoreError::Table(FileError::Unmatched);
        put_refusal(
            refusal_word::<P::TextFault, P::VerdictFault>(self.is_open, refusal),
            out,
            sink,
        )
    }

    /// Answers an `upgrade`.
    fn serve_upgrade<K: Sink>(
        &mut self,
        group: &mut Group<P>,
        user: &UserName<P>,
        salt: &str,
        password: &str,
        out: &mut OutputBuffer,
        sink: &mut K,
    ) -> Result<bool, AllocError>
        requires ready { IsReady P.policy D.seen D.may_leave self.old group.old }
        ensures ready { IsReady P.policy D.seen D.may_leave self.new group.new }
        ensures none { OnErr result (count_of group.new ≡ 0) }
        ensures served { (line : List ℕ) → Asks P.policy line (of.Upgrade user.now salt.now password.now)
            → Serves P.policy D.seen D.may_leave D.moment D.left_since D.faults self.old self.new
            group.old group.new out.old out.new K.written K.faults sink.old sink.new line result }
    {
        self.commit(group, out, sink);
        match self.upgrade(user, password, salt) {
            Ok(matches) => {
                put_verdict(matches, out, sink);
                Ok(matches)
            }
            Err(e) => put_refusal(refusal_word(self.is_open, e), out, sink),
        }
    }

    /// Answers a `remove`.
    fn serve_remove<K: Sink>(
        &mut self,
        group: &mut Group<P>,
        user: &UserName<P>,
        out: &mut OutputBuffer,
        sink: &mut K,
    ) -> Result<bool, AllocError>
        requires takes { P.policy.takes_remove ≡ true }
        requires ready { IsReady P.policy D.seen D.may_leave self.old group.old }
        ensures ready { IsReady P.policy D.seen D.may_leave self.new group.new }
        ensures none { OnErr result (count_of group.new ≡ 0) }
        ensures served { (line : List ℕ) → Asks P.policy line (of.Remove user.now)
            → Serves P.policy D.seen D.may_leave D.moment D.left_since D.faults self.old self.new
            group.old group.new out.old out.new K.written K.faults sink.old sink.new line result }
    {
        self.commit(group, out, sink);
        match self.remove(user) {
            Ok(()) => {
                put_word(Word::Done, out, sink);
                Ok(true)
            }
            Err(e) => put_refusal(refusal_word(self.is_open, e), out, sink),
        }
    }

    /// Answers a line that asks for no change.
    fn serve_other<K: Sink>(
        &mut self,
        group: &mut Group<P>,
        line: &[u8],
        out: &mut OutputBuffer,
        sink: &mut K,
    ) -> Result<bool, AllocError>
        requires short { length line.now ≤ line_max }
        requires other { asks_change P.policy line.now ≡ false }
        requires ready { IsReady P.policy D.seen D.may_leave self.old group.old }
        ensures ready { IsReady P.policy D.seen D.may_leave self.new group.new }
        ensures none { OnErr result (count_of group.new ≡ 0) }
        ensures served { Serves P.policy D.seen D.may_leave D.moment D.left_since D.faults self.old self.new
            group.old group.new out.old out.new K.written K.faults sink.old sink.new line.now result }
    {
        self.commit(group, out, sink);
        match answer_line(&mut self.table, line) {
            Some(reply) => {
                put_reply(&self.table, reply, out, sink);
                Ok(reply.is_good())
            }
            None => Err(AllocError),
        }
    }

    /// Answers a line of more than 8,192 bytes.
    pub(crate) fn serve_long<K: Sink>(
        &mut self,
        group: &mut Group<P>,
        out: &mut OutputBuffer,
        sink: &mut K,
    )
        requires ready { IsReady P.policy D.seen D.may_leave self.old group.old }
        ensures ready { IsReady P.policy D.seen D.may_leave self.new group.new }
        ensures served { (line : List ℕ) → line_max < length line → (from : Begun D) (asked : List (List ℕ)) (all : Bool)
            → Progress P.policy D.seen D.may_leave D.moment D.left_since D.faults from asked
            (held_by self.old group.old) (oks (count_of group.old)) out.old (K.written sink.old) (K.faults sink.old) all
            → Progress P.policy D.seen D.may_leave D.moment D.left_since D.faults from (asked ++ line ∷ [])
            (held_by self.new group.new) (oks (count_of group.new)) out.new (K.written sink.new) (K.faults sink.new) (all && false) }
    {
        self.commit(group, out, sink);
        put_word(Word::TooLong, out, sink);
    }

    /// Answers a line of at most 8,192 bytes.
    pub(crate) fn serve_line<K: Sink>(
        &mut self,
        group: &mut Group<P>,
        line: &[u8],
        out: &mut OutputBuffer,
        sink: &mut K,
    ) -> Result<bool, AllocError>
        requires short { length line.now ≤ line_max }
        requires ready { IsReady P.policy D.seen D.may_leave self.old group.old }
        requires room { length (lines_of group.old) + ROW_LINE_MAX ≤ group_max }
        ensures ready { IsReady P.policy D.seen D.may_leave self.new group.new }
        ensures none { OnErr result (count_of group.new ≡ 0) }
        ensures served { Serves P.policy D.seen D.may_leave D.moment D.left_since D.faults self.old self.new
            group.old group.new out.old out.new K.written K.faults sink.old sink.new line.now result }
    {
        match Command::parse(line) {
            Some(Command::Set { user, text }) => {
                if self.table.refuses(text) {
                    self.serve_refused(group, out, sink)
                } else {
                    self.serve_set(group, &user, text, out, sink)
                }
            }
            Some(
                Command::Upgrade {
                    user,
                    salt,
                    password,
                },
            ) => self.serve_upgrade(group, &user, salt, password, out, sink),
            Some(Command::Remove { user }) => self.serve_remove(group, &user, out, sink),
            Some(Command::Check { .. }) => self.serve_other(group, line, out, sink),
            Some(Command::List) => self.serve_other(group, line, out, sink),
            None => self.serve_other(group, line, out, sink),
        }
    }
}
