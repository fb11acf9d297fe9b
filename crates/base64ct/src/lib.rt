//! Base64 in eight alphabets, by arithmetic without tables of characters.
//!
//! [`Encoding`] encodes and decodes whole texts, without a branch on a character. [`Encoder`] and [`Decoder`]
//! take and give them in parts, in one line or wrapped at a width; a [`Decoder`] returns where it meets the
//! first bad block, line or run of 4,096 characters, so that its time tells where. [`decode_with`] and
//! [`Counts`] count how often characters are looked up and compared, so that a caller can see that the numbers
//! tell nothing but the lengths and how many `=` stand at the end.
#![tactic(auto)]

mod alphabet;
mod blocks;
mod counts;
mod cursor;
mod decode;
mod decoder;
mod encode;
mod encoder;
mod encoding;
mod errors;
mod in_place;
pub mod laws;
pub mod lent;
mod line_ending;
mod lines;
mod tables;

pub use alphabet::bcrypt::Base64Bcrypt;
pub use alphabet::crypt::Base64Crypt;
pub use alphabet::pbkdf2::Base64Pbkdf2;
pub use alphabet::shacrypt::Base64ShaCrypt;
pub use alphabet::standard::{Base64, Base64Unpadded};
pub use alphabet::url::{Base64Url, Base64UrlUnpadded};
pub use counts::{Counted, Counts, decode_with};
pub use decoder::Decoder;
pub use encoder::Encoder;
pub use encoding::Encoding;
pub use errors::{DecodeVecError, Error, InvalidEncodingError, InvalidLengthError};
pub use line_ending::LineEnding;
pub use tables::{CodeTable, Shape, decode_with_into};
