//! The users of a file of foreign texts, answered by a table of passwords.

use crate::lines::ForeignLines;
use crate::parts::LineForm;
use any_check::{AnyCheck, SchemeCosts};
use application_texts::Maker;
use line_io::{Sink, Source};
use line_program::run_lines;
use shadow_check::{JoinedLines, Joining};
use shadow_fields::Passwords;
use std::alloc::Global;

/// Stored texts in a foreign spelling, for `shadow_check::run_join` and `shadow_check::run_join_fewer`.
///
/// Where a text isn't converted, the user, a tab and the word of the cause are written; an empty or a locked text isn't
/// looked at, and all else is as by `shadow_check::TextJoin`.
#[derive(Clone, Copy)]
pub struct ForeignJoin {
    pub alloc: Global,
    pub foreign: Maker,
    pub limits: Option<SchemeCosts>,
}

impl Joining for ForeignJoin {
    ghost use Rattle.foreign_lines.specs.Runs.{foreign_joined_rules};

    ghost join_rules = { λ join. foreign_joined_rules join.foreign join.limits };

    fn join_texts<T: Source, K: Sink>(
        &self,
        passwords: Passwords,
        texts: &mut T,
        sink: &mut K,
        max: u64,
    ) -> u8 {
        let mut joined = ForeignLines {
            foreign: self.foreign,
            form: LineForm::UserText,
            inner: JoinedLines {
                check: AnyCheck::new(self.alloc, self.limits),
                passwords,
            },
        };
        run_lines(&mut joined, texts, sink, max)
    }
}
