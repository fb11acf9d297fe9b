//! Stored texts of applications, brought to the spelling that `any_check` reads, beside those of `foreign_text`.
//!
//! [`maker_text`] takes a text of a maker ([`Maker`]): one of `foreign_text::Foreign`, or an application ([`Application`]). What is made of
//! it, and which faults it has, is as in `foreign_text`. Nothing is hashed, and no memory taken.
#![tactic(auto)]

mod couchdb;
mod gitea;
mod grafana;
mod home_assistant;
mod jenkins;
pub mod laws;
mod makers;
mod mysql;
mod nextcloud;

pub use makers::{Application, Maker, maker_text};
