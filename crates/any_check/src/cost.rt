//! A bound on what a stored text asks for.

ghost use Rattle.std.specs.Prelude.{◌≡◌};
ghost use Rattle.any_check.specs.Cost.{is_costly, kind_costs};

use crate::SchemeCosts;
use crate::kinds::{TextKind, text_kind};
use stored_check::PhcKdf;

fn kind_costs(limits: &SchemeCosts, kind: TextKind) -> bool
    ensures { result ≡ kind_costs limits.now kind }
{
    match kind {
        TextKind::NoScheme | TextKind::Invalid => false,
        TextKind::Valid(text) => text.costs.is_above(&limits.of(text.scheme)),
    }
}

/// Whether a stored text is valid and its cost above the bound. Nothing is hashed, and no memory taken.
#[tactic(auto, unfolding(crate::specs::Cost::is_costly))]
pub(crate) fn is_costly<K: PhcKdf>(kdf: &K, limits: &SchemeCosts, stored: &str) -> bool
    ensures { result ≡ is_costly (K.accepted kdf.now) limits.now stored.now }
{
    kind_costs(limits, text_kind(kdf, stored))
}
