//! A table of users and their stored texts in a file, through crashes.
//!
//! [`recover`] reads the table of a file that a crash may have left, and [`create`] makes a file with no users. A [`Store`]
//! answers each change once it is on the disk.
#![tactic(auto)]

mod compact;
mod error;
mod group;
pub mod laws;
mod loading;
mod next;
mod recovery;
mod replies;
mod run;
mod serve;
mod stop;
mod store;

pub use error::StoreError;
pub use loading::Loading;
pub use recovery::{create, recover};
pub use run::{DISK_FAULT, run_store};
pub use store::Store;
