//! Laws over the rules.

ghost use Rattle.shadow_table.specs.Laws.{CostlyByVerdict, NeverWeakens};

use any_check::laws::valid_is_verdict;

/// An upgrade that says `upgraded` was asked for by a password that matched the old text. The fresh text asks for no less memory and
/// work, and for no fewer rounds and no lower cost where both texts have them; a check of the password by the fresh text is a match.
pub fn never_weakens()
    ensures law { NeverWeakens }
{
    // Texts with a verdict are those whose costs are known.
    valid_is_verdict();
}

/// `too-costly` is answered only where it is the verdict under the bound.
pub fn costly_by_verdict()
    ensures law { CostlyByVerdict }
{}
