//! A file of lines through crashes: what a device is, lines that are on the disk before they are answered, and recovery.
//!
//! The file is text: a header line, then lines that begin with `s`, then one closed byte. It knows nothing of what the
//! lines say. Lines are added in groups of which a crash leaves all or none.
#![tactic(auto)]

mod device;
mod log;
mod memory;
mod read;
mod reopen;
mod rewrite;

pub use device::Device;
pub use line_io::Failed;
pub use log::{FILE_MAX, GROUP_MAX, HEADER, LineLog};
pub use memory::MemoryDevice;
pub use read::{first_line, is_end, is_group};
pub use reopen::{OpenError, Taker, recover};
pub use rewrite::create;
