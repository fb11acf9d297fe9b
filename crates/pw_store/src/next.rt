//! The next line of a run, and the answer to it.

ghost use Rattle.std.specs.Prelude.{◌≡◌, ◌⊎◌, ◌≤◌, ◌+◌, ◌++◌, ◌∷◌, [], Bool, ℕ, List, Ok, Err, false, true, length, IfNone, IfOk, IfSome, OnErr, OnOk, OnSome, Option, ◌&&◌};
ghost use Rattle.line_io.specs.Buffer.{is_closed, is_last};
ghost use Rattle.line_io.specs.Output.{has_failed, waiting};
ghost use Rattle.line_io.specs.Runs.{IsCall};
ghost use Rattle.line_log.specs.Log.{group_max};
ghost use Rattle.pieces.specs.FaultCounts.{HasRisen};
ghost use Rattle.pw_store.specs.Progress.{Begun, IsReady, NextStep, Progress, count_of, held_by, oks};
ghost use Rattle.pw_store.specs.Staged.{lines_of};
ghost use Rattle.pw_store.specs.Stored.{rows_of, takes_changes};

use crate::Store;
use crate::group::Group;
use crate::stop::Stop;
use line_io::{Failed, Line, LineBuffer, OutputBuffer, Sink, Source};
use line_log::Device;
use pw_file::{Policy, ROW_LINE_MAX};

// The next line where it stands whole in the buffer, and the group has room for a change more.
fn pending_line<P: Policy>(group: &Group<P>, lines: &mut LineBuffer) -> Option<Line>
    requires unclosed { is_closed lines.old ≡ false }
    ensures none { IfNone result (lines.new ≡ lines.old) }
    ensures room { OnSome result (length (lines_of group.now) + ROW_LINE_MAX ≤ group_max) }
    ensures call { IfSome result (λ line. (left : Option (List ℕ)) → IsCall line left left lines.old lines.new) }
    ensures goes_on { IfSome result (λ line. is_last line ≡ false) }
{
    if !group.has_room() {
        return None;
    }
    lines.next_pending()
}

// The next line. Before a read, and where the group is full, the changes that wait are put into the file and all replies
// are written; where that fails nothing is read.
fn next_line<D: Device, P: Policy, S: Source, K: Sink>(
    store: &mut Store<D, P>,
    group: &mut Group<P>,
    lines: &mut LineBuffer,
    out: &mut OutputBuffer,
    source: &mut S,
    sink: &mut K,
) -> Result<Line, Failed>
    requires unclosed { is_closed lines.old ≡ false }
    requires ready { IsReady P.policy D.seen D.may_leave store.old group.old }
    ensures ready { IsReady P.policy D.seen D.may_leave store.new group.new }
    ensures room { OnOk result (length (lines_of group.new) + ROW_LINE_MAX ≤ group_max) }
    ensures call { IfOk result (λ line. IsCall line (S.left source.old) (S.left source.new) lines.old lines.new) }
    ensures unread { OnErr result ((lines.new ≡ lines.old) × (source.new ≡ source.old)) }
    ensures failed { OnErr result (has_failed out.new ≡ true) }
    // It reads only where no reply and no change waits.
    ensures written { OnOk result ((source.new ≡ source.old) ⊎ ((waiting out.new ≡ []) × (count_of group.new ≡ 0))) }
    ensures count { S.faults source.old ≤ S.faults source.new }
    ensures cause { result ≡ Ok Line.Failed → HasRisen (S.faults source.old) (S.faults source.new) }
    ensures goes_on { (from : Begun D) (asked : List (List ℕ)) (all : Bool)
        → Progress P.policy D.seen D.may_leave D.moment D.left_since D.faults from asked
        (held_by store.old group.old) (oks (count_of group.old)) out.old (K.written sink.old) (K.faults sink.old) all
        → Progress P.policy D.seen D.may_leave D.moment D.left_since D.faults from asked
        (held_by store.new group.new) (oks (count_of group.new)) out.new (K.written sink.new) (K.faults sink.new) all }
{
    if let Some(line) = pending_line(group, lines) {
        return Ok(line);
    }
    store.commit(group, out, sink);
    out.flush(sink);
    if out.has_failed() {
        return Err(Failed);
    }
    Ok(lines.next_line(source))
}

/// Answers the next line, and tells whether the reply is a good one; or why there is none.
pub(crate) fn next_step<D: Device, P: Policy, S: Source, K: Sink>(
    store: &mut Store<D, P>,
    group: &mut Group<P>,
    lines: &mut LineBuffer,
    out: &mut OutputBuffer,
    source: &mut S,
    sink: &mut K,
) -> Result<bool, Stop>
    requires unclosed { is_closed lines.old ≡ false }
    requires ready { IsReady P.policy D.seen D.may_leave store.old group.old }
    ensures ready { IsReady P.policy D.seen D.may_leave store.new group.new }
    ensures failed { result ≡ Err Stop.WriteFault → has_failed out.new ≡ true }
    ensures count { S.faults source.old ≤ S.faults source.new }
    ensures none { result ≡ Err Stop.NoMemory → count_of group.new ≡ 0 }
    ensures cause { result ≡ Err Stop.ReadFault → HasRisen (S.faults source.old) (S.faults source.new) }
    ensures next { (from : Begun D) (asked : List (List ℕ)) (all : Bool)
        → Progress P.policy D.seen D.may_leave D.moment D.left_since D.faults from asked
        (held_by store.old group.old) (oks (count_of group.old)) out.old (K.written sink.old) (K.faults sink.old) all
        → NextStep P.policy (rows_of store.new) (takes_changes store.new) (λ asked all.
        Progress P.policy D.seen D.may_leave D.moment D.left_since D.faults from asked
        (held_by store.new group.new) (oks (count_of group.new)) out.new (K.written sink.new) (K.faults sink.new) all)
        asked all result (S.left source.old) (S.left source.new) lines.old lines.new }
{
    if out.has_failed() {
        return Err(Stop::WriteFault);
    }
    match next_line(store, group, lines, out, source, sink) {
        Ok(Line::Whole(_)) => match store.serve_line(group, lines.line(), out, sink) {
            Ok(good) => Ok(good),
            Err(_) => Err(Stop::NoMemory),
        },
        Ok(Line::TooLong) => {
            store.serve_long(group, out, sink);
            Ok(false)
        }
        Ok(Line::End) => Err(Stop::End),
        Ok(Line::Failed) => Err(Stop::ReadFault),
        Ok(Line::Budget) => Err(Stop::Budget),
        Err(Failed) => Err(Stop::WriteFault),
    }
}
