//! Programs that answer an input line by line in fixed memory.
//!
//! A [`Responder`] says what is written for a line, and in which state it is then. [`run_lines`] reads the
//! lines of a source, has them answered, writes the replies to a sink and gives the status. [`run_state_lines`] tells the
//! state after the lines too, and [`run_ended`] writes the text of that state ([`Ending`]) after the replies.
//! [`PlainLines`] are one such program: a line of a password and a stored text is answered by the verdict on them.
#![tactic(auto)]

mod cut;
mod ended;
mod next;
mod plain;
mod responder;
mod run;
pub mod status;
mod stop;

pub use cut::cut_at_last_tab;
pub use ended::{Ending, run_ended};
pub use plain::{PasswordCheck, PlainLines, run_plain};
pub use responder::Responder;
pub use run::{run_lines, run_state_lines};
