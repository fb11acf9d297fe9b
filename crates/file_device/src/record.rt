//! What was done with a file: a list that no memory holds, which clauses alone read.

ghost use Rattle.std.specs.Prelude.{◌≡◌, List, [], ◌∷◌};
ghost use Rattle.std.specs.Borrow.{ftrue};
ghost use Rattle.file_device.specs.Calls.{Call, call_of};

use std::marker::{Model, PhantomData};

/// The calls so far, the last one first.
#[derive(Drop)]
pub struct Record {
    marker: PhantomData<u8>,
    pub ghost calls: { List Call },
}

impl Model for Record {
    ghost also_owns = { λ _. ftrue };
}

impl Record {
    /// No calls.
    pub(crate) fn new() -> Record
        ensures none { result.calls ≡ [] }
    {
        Record {
            marker: PhantomData,
        }
    }

    /// One more call, by the number of its kind, 1 where it was done, and its place, and by its bytes: specs/Calls has the
    /// numbers.
    pub(crate) fn noted(_before: &Record, _numbers: &[u64], _bytes: &[u8]) -> Record
        ensures call { result.calls ≡ call_of _numbers.now _bytes.now ∷ _before.now.calls }
    {
        Record {
            marker: PhantomData,
        }
    }
}
