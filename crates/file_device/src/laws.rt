//! What holds of each device, whatever was called.

ghost use Rattle.file_device.specs.Calls.{MayLeave, seen};

use crate::FileDevice;

/// What a read gives is among what a crash may leave. So there is a file that a crash may leave, and no clause that says
/// what such a file has is empty.
pub fn a_read_may_be_left(_device: &FileDevice<'_>)
    ensures law { MayLeave _device.now.record.calls (seen _device.now.record.calls) }
{}
