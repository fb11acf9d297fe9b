//! Lines that begin with a user and a colon, as shadow, htpasswd and password files have them.
//!
//! [`cut_user`] takes the user off a line, [`cut_field`] the text of a shadow line, which [`is_locked`] looks at, and
//! [`put_user`] writes a user before a word. [`Passwords`] is a table of users and
//! their passwords, which [`load_passwords`] fills from the lines of a source, and [`load_wanted`] with those of the users
//! of another table alone.
#![tactic(auto)]

mod cut;
mod load;
mod passwords;
mod wanted;

pub use cut::{cut_field, cut_user, is_locked, put_user};
pub use load::{Loading, load_passwords};
pub use passwords::Passwords;
pub use wanted::{LoadingWanted, load_wanted};
