//! The run over all lines of a source.

ghost use Rattle.std.specs.Prelude.{◌≡◌, ◌≢◌, ◌≤◌, ◌^◌, [], Bool, ℕ, List, false, true, IfSome};
ghost use Rattle.line_io.specs.Devices.{WhereTold};
ghost use Rattle.line_io.specs.Lines.{lines};
ghost use Rattle.line_io.specs.Output.{has_failed, waiting};
ghost use Rattle.line_log.specs.Device.{LeavesOnly};
ghost use Rattle.pieces.specs.FaultCounts.{HasRisen};
ghost use Rattle.pw_store.specs.Progress.{Begun, IsReady, Progress, count_of, ended_status, held_by, oks};
ghost use Rattle.pw_store.specs.Run.{IsLeftBy, StoreOutcome};
ghost use Rattle.pw_store.specs.Stored.{IsSound, device_of, rows_of, size_of, takes_changes};

use crate::Store;
use crate::group::Group;
use crate::next::next_step;
use crate::stop::Stop;
use line_io::{LineBuffer, OutputBuffer, Sink, Source};
use line_log::Device;
use line_program::status::{ALL_GOOD, NO_MEMORY, OVER_MAX, READ_FAULT, SOME_OTHER, WRITE_FAULT};
use pw_file::Policy;

/// All was taken and answered, and a write of the file failed.
pub const DISK_FAULT: u8 = 7;

// The status, by why no further line is answered, and by whether each reply is good, the store takes changes, and a write of
// replies failed.
fn status(stop: Stop, all_good: bool, takes: bool, failed: bool) -> u8
    ensures status { result ≡ ended_status stop all_good takes failed }
{
    if failed {
        return WRITE_FAULT;
    }
    match stop {
        Stop::End => {
            if !takes {
                DISK_FAULT
            } else if all_good {
                ALL_GOOD
            } else {
                SOME_OTHER
            }
        }
        Stop::ReadFault => READ_FAULT,
        Stop::WriteFault => WRITE_FAULT,
        Stop::Budget => OVER_MAX,
        Stop::NoMemory => NO_MEMORY,
    }
}

// Puts what waits into the file, and writes all replies.
fn finish<D: Device, P: Policy, K: Sink>(
    store: &mut Store<D, P>,
    group: &mut Group<P>,
    out: &mut OutputBuffer,
    sink: &mut K,
)
    requires ready { IsReady P.policy D.seen D.may_leave store.old group.old }
    ensures sound { IsSound P.policy D.seen D.may_leave store.new }
    ensures none { has_failed out.new ≡ false → waiting out.new ≡ [] }
    ensures stays { has_failed out.old ≡ true → has_failed out.new ≡ true }
    ensures goes_on { (from : Begun D) (asked : List (List ℕ)) (all : Bool)
        → Progress P.policy D.seen D.may_leave D.moment D.left_since D.faults from asked
        (held_by store.old group.old) (oks (count_of group.old)) out.old (K.written sink.old) (K.faults sink.old) all
        → Progress P.policy D.seen D.may_leave D.moment D.left_since D.faults from asked
        (held_by store.new group.new) [] out.new (K.written sink.new) (K.faults sink.new) all }
    ensures empty { count_of group.new ≡ 0 }
    ensures idle { count_of group.old ≡ 0 → (takes_changes store.new ≡ takes_changes store.old) × (rows_of store.new ≡ rows_of store.old) }
{
    store.commit(group, out, sink);
    out.flush(sink);
}

/// Answers the lines of a source of at most `max` bytes over a store, and gives the status.
///
/// The commands and replies are those of `pw_file`. `file-full` is the reply where the file has no room for a change, and
/// `disk-fault` where the change isn't on the disk, as a write failed: from then on it is the reply to each change, while
/// passwords are still checked. Changes that stand whole in the buffer of the input are put into the file as a group, with
/// two syncs, and then answered: a crash leaves all of a group or none of it.
pub fn run_store<D: Device, P: Policy, S: Source, K: Sink>(
    store: &mut Store<D, P>,
    source: &mut S,
    sink: &mut K,
    max: u64,
) -> u8
    requires most { max ≤ 2 ^ 40 }
    requires open { takes_changes store.old ≡ true }
    requires sound { IsSound P.policy D.seen D.may_leave store.old }

    // No other status comes.
    ensures statuses { (result ≤ 7) × (result ≢ 2) }
    ensures good { result ≤ 1 → takes_changes store.new ≡ true }
    ensures broken { result ≡ 7 → takes_changes store.new ≡ false }

    // A fault is answered only where the count of that device rose in this call.
    ensures read_fault { result ≡ 3 → HasRisen (S.faults source.old) (S.faults source.new) }
    ensures write_fault { result ≡ 4 → HasRisen (K.faults sink.old) (K.faults sink.new) }
    ensures disk_fault { takes_changes store.new ≡ false → HasRisen (D.faults (device_of store.old)) (D.faults (device_of store.new)) }

    // What was taken and written, and what a crash from now on leaves, for each status.
    ensures outcome { WhereTold (S.left source.old) (S.left source.new) (K.written sink.old) (K.written sink.new)
        (λ held taken added. StoreOutcome P.policy (rows_of store.old) (size_of store.old) (takes_changes store.new)
        (D.may_leave (device_of store.new)) result max held taken added) }

    // A crash at any moment of the call leaves what some of the lines leave, from the first on, each of them whole.
    ensures any_moment { IfSome (S.left source.old) (λ held. LeavesOnly D.moment D.left_since (device_of store.old) (device_of store.new)
        (IsLeftBy P.policy (rows_of store.old) (size_of store.old) (lines held))) }

    ensures sound { IsSound P.policy D.seen D.may_leave store.new }
{
    let mut lines = LineBuffer::new(max);
    let mut out = OutputBuffer::new();
    let mut group: Group<P> = Group::new(store.alloc);
    let mut all_good = true;
    'lines: loop {
        match next_step(store, &mut group, &mut lines, &mut out, source, sink) {
            Ok(good) => all_good &= good,
            Err(stop) => {
                finish(store, &mut group, &mut out, sink);
                return status(stop, all_good, store.is_open, out.has_failed());
            }
        }
    }
}
