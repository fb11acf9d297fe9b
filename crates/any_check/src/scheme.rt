//! Which scheme's text a stored text is.

ghost use Rattle.std.specs.Prelude.{◌≡◌, MatchOption, []};
ghost use Rattle.any_check.specs.Table.{identifier, sha_scheme, text_scheme};

use pieces::first_piece;
use scheme_list::{Scheme, scheme_named};
use sha_crypt::Family;

// What is between the first two `$`; none where there is no `$`.
fn identifier(stored: &str) -> Option<&str>
    ensures identifier { MatchOption result (identifier stored.now ≡ []) (λ id. id.now ≡ identifier stored.now) }
{
    let (_, others) = first_piece(stored, '$');
    match others {
        Some(body) => Some(first_piece(body, '$').0),
        None => None,
    }
}

/// The scheme of a stored text, by what is between its first two `$`: none where no scheme has this identifier, or
/// where there is no `$`. The text need not be valid.
#[tactic(auto, unfolding(crate::specs::Table::text_scheme))]
pub fn scheme_of_text(stored: &str) -> Option<Scheme>
    ensures scheme { result ≡ text_scheme stored.now }
{
    match identifier(stored) {
        Some(id) => scheme_named(id),
        None => None,
    }
}

/// The scheme of a family of SHA-crypt.
pub fn sha_scheme(family: Family) -> Scheme
    ensures scheme { result ≡ sha_scheme family }
{
    match family {
        Family::Sha256 => Scheme::Sha256Crypt,
        Family::Sha512 => Scheme::Sha512Crypt,
    }
}
