//! The judgement on a stored text.

ghost use Rattle.std.specs.Prelude.{◌≡◌};
ghost use Rattle.shadow_survey.specs.Judgements.{judged, judged_kind, judged_weakness};
ghost use Rattle.shadow_survey.specs.Unsupported.{form_of};
ghost use Rattle.shadow_survey.specs.Leasts.{weakness_of};

use crate::least::{LeastCosts, Weakness, weakness_of};
use crate::unsupported::{UnsupportedForm, form_of};
use any_check::{PlainRecords, TextCosts, TextKind, text_kind};
use pieces::text::text_of;
use shadow_fields::is_locked;

/// The judgement on a stored text.
#[derive(Clone, Copy, Debug, PartialEq, Eq)]
pub enum Judgement {
    /// The line has more than 8,192 bytes.
    TooLong,
    /// The line has no user: no colon, a tab before the first, or a user that isn't UTF-8.
    BadLine,
    /// There is no text.
    Empty,
    /// The text begins with `*` or `!`, and isn't MySQL's.
    Locked,
    /// No scheme has its identifier, so that it has no verdict.
    Unsupported(UnsupportedForm),
    /// The text has a fault, or isn't UTF-8.
    Invalid,
    /// Nothing of it is weak.
    Strong(TextCosts),
    /// Its scheme, or one of its costs, is weak.
    Weak(TextCosts, Weakness),
}

fn judged_weakness(text: &TextCosts, what: Option<Weakness>) -> Judgement
    ensures { result ≡ judged_weakness text.now what }
{
    // Field by field: what is between the fields isn't copied.
    let text = TextCosts {
        scheme: text.scheme,
        costs: text.costs,
    };
    match what {
        None => Judgement::Strong(text),
        Some(what) => Judgement::Weak(text, what),
    }
}

fn judged_kind(least: &LeastCosts, text: &[u8], kind: &TextKind) -> Judgement
    ensures { result ≡ judged_kind least.now text.now kind.now }
{
    match kind {
        TextKind::NoScheme => Judgement::Unsupported(form_of(text)),
        TextKind::Invalid => Judgement::Invalid,
        TextKind::Valid(costs) => judged_weakness(costs, weakness_of(least, costs)),
    }
}

/// The judgement on a stored text, as a shadow or htpasswd file has it, by the least costs that aren't weak. Nothing is
/// hashed, and no memory taken.
#[tactic(auto, unfolding(crate::specs::Judgements::judged))]
pub fn judged(least: &LeastCosts, text: &[u8]) -> Judgement
    ensures judgement { result ≡ judged least.now text.now }
{
    if text.is_empty() {
        return Judgement::Empty;
    }
    if is_locked(text) {
        return Judgement::Locked;
    }
    match text_of(text) {
        Some(words) => judged_kind(least, text, &text_kind(&PlainRecords, words)),
        None => Judgement::Invalid,
    }
}
