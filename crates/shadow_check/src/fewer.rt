//! The users of one file, answered by those passwords of another that they need.

ghost use Rattle.std.specs.Prelude.{◌≡◌, ◌≢◌, ◌≤◌, ◌^◌, [], IfSome, Ok, Err};
ghost use Rattle.line_io.specs.Devices.{WhereTold};
ghost use Rattle.pieces.specs.FaultCounts.{HasRisen};
ghost use Rattle.shadow_fields.specs.Wanted.{is_in};
ghost use Rattle.shadow_check.specs.JoinOutcome.{status_of};
ghost use Rattle.shadow_check.specs.FewerOutcome.{FewerOutcome, WantedOutcome, fewer_status};

use crate::{JoinEnd, Joining};
use line_io::{Sink, Source};
use line_program::status::SOME_OTHER;
use shadow_fields::{Loading, LoadingWanted, Passwords, load_passwords, load_wanted};
use std::alloc::Global;
use std::hash::RandomState;

// Answers the lines of texts by the passwords of the users in a table.
fn join_wanted<J: Joining, P: Source, T: Source, K: Sink>(
    joining: &J,
    loading: LoadingWanted,
    passwords: &mut P,
    texts: &mut T,
    sink: &mut K,
    max: u64,
) -> JoinEnd
    requires bound { max ≤ 2 ^ 40 }
    requires empty { loading.passwords ≡ [] }
    ensures statuses { (status_of result ≤ 6) × (status_of result ≢ 2) }
    ensures passwords_fault { result ≡ JoinEnd.Passwords 3 → HasRisen (P.faults passwords.old) (P.faults passwords.new) }
    ensures texts_fault { result ≡ JoinEnd.Texts 3 → HasRisen (T.faults texts.old) (T.faults texts.new) }
    ensures write_fault { status_of result ≡ 4 → HasRisen (K.faults sink.old) (K.faults sink.new) }
    ensures outcome { IfSome (P.left passwords.old) (λ given.
        WhereTold (T.left texts.old) (T.left texts.new) (K.written sink.old) (K.written sink.new)
        (λ held taken added. WantedOutcome (J.join_rules joining.now) (is_in loading.users) result max given held taken added)) }
{
    let mut loading = loading;
    let status = load_wanted(&mut loading, passwords, sink, max);
    if status > SOME_OTHER {
        return JoinEnd::Passwords(status);
    }
    JoinEnd::Texts(joining.join_texts(loading.passwords, texts, sink, max))
}

/// Answers each line of `texts` as [`run_join`](crate::run_join) does, and keeps of the passwords those alone whose users
/// stand in `users`, a first reading of the same file.
///
/// `Err` is the status of that first reading, where it ended early. In memory are the users of the texts with all that
/// follows them while the passwords are read, and then the passwords of these users, beside what `run_any` takes; so of two
/// files this is for a small one of texts beside a great one of passwords.
pub fn run_join_fewer<J: Joining, U: Source, P: Source, T: Source, K: Sink>(
    alloc: Global,
    keys: RandomState,
    joining: &J,
    users: &mut U,
    passwords: &mut P,
    texts: &mut T,
    sink: &mut K,
    max: u64,
) -> Result<JoinEnd, u8>
    requires bound { max ≤ 2 ^ 40 }
    ensures statuses { (fewer_status result ≤ 6) × (fewer_status result ≢ 2) }
    ensures users_fault { result ≡ Err 3 → HasRisen (U.faults users.old) (U.faults users.new) }
    ensures passwords_fault { result ≡ Ok (JoinEnd.Passwords 3) → HasRisen (P.faults passwords.old) (P.faults passwords.new) }
    ensures texts_fault { result ≡ Ok (JoinEnd.Texts 3) → HasRisen (T.faults texts.old) (T.faults texts.new) }
    ensures write_fault { fewer_status result ≡ 4 → HasRisen (K.faults sink.old) (K.faults sink.new) }
    ensures outcome { IfSome (U.left users.old) (λ first. IfSome (P.left passwords.old) (λ given.
        WhereTold (T.left texts.old) (T.left texts.new) (K.written sink.old) (K.written sink.new)
        (λ held taken added. FewerOutcome (J.join_rules joining.now) result max first given held taken added))) }
{
    let mut first = Loading {
        passwords: Passwords::new(alloc, keys),
    };
    let status = load_passwords(&mut first, users, sink, max);
    if status > SOME_OTHER {
        return Err(status);
    }
    let loading = LoadingWanted {
        passwords: Passwords::new(alloc, keys),
        users: first.passwords,
    };
    Ok(join_wanted(joining, loading, passwords, texts, sink, max))
}
