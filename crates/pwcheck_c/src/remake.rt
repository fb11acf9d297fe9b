//! Whether a stored text is to be made anew.

ghost use Rattle.std.specs.Prelude.{◌≡◌};
ghost use Rattle.pwcheck_c.specs.Remake.{needs_remake, stays};

use scheme_list::Scheme;
use shadow_survey::{Judgement, RECOMMENDED_LEAST, judged};

// Whether a text of this judgement stays as it is.
fn stays(judgement: &Judgement) -> bool
    ensures { result ≡ stays judgement.now }
{
    match judgement {
        Judgement::Strong(text) => matches!(text.scheme, Scheme::Argon2id),
        _ => false,
    }
}

/// Whether a stored text is another one than `pwcheck_make` would make today: it is weak, of another scheme, or has no verdict.
///
/// Nothing is hashed, and no memory taken. A login service asks after a match, and then makes the text of the same password anew.
#[unsafe(no_mangle)]
pub extern "C" fn pwcheck_needs_remake(stored: &[u8]) -> bool
    ensures remake { result ≡ needs_remake stored.now }
{
    !stays(&judged(&RECOMMENDED_LEAST, stored))
}
