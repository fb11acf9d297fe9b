//! Texts of Nextcloud.

ghost use Rattle.std.specs.Prelude.{◌≡◌, ℕ, List};
ghost use Rattle.foreign_text.specs.Views.{as_answer};
ghost use Rattle.application_texts.specs.Nextcloud.{nextcloud};

use foreign_text::answers::as_it_is;
use foreign_text::{ForeignFault, Unread};
use pieces::behind;

/// The stored text of a text of Nextcloud.
#[tactic(auto, unfolding(crate::specs::Nextcloud::nextcloud))]
pub(crate) fn nextcloud(text: &str) -> Result<Option<&str>, ForeignFault>
    ensures { (made : List ℕ) → as_answer result made ≡ nextcloud text.now }
{
    if let Some(rest) = behind(text, "1|") {
        return as_it_is("$2", rest);
    }
    if let Some(rest) = behind(text, "2|") {
        return as_it_is("$argon2i$", rest);
    }
    if let Some(rest) = behind(text, "3|") {
        return as_it_is("$argon2id$", rest);
    }
    Err(ForeignFault::Unread(Unread::Other))
}
