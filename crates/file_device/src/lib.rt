//! A device of `line_log` over a file of the system: locked against a second process, written by place, synced, and replaced
//! by a new file beside it.
#![tactic(auto)]

mod access;
mod device;
mod fault;
pub mod laws;
mod locking;
mod opening;
mod record;
mod replacing;

pub use device::FileDevice;
pub use fault::DeviceFault;
pub use locking::is_standard;
pub use opening::{OpenFault, Opened, open};
pub use record::Record;
