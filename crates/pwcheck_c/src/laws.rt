//! Laws over the definitions.

ghost use Rattle.pwcheck_c.specs.AnyAnswers.{HasAnyWord};
ghost use Rattle.pwcheck_c.specs.Laws.{CostOfValid, MadeMatches, ScryptMatches, Sha256Matches, Sha512Matches, ShaMatches};

/// The text that is made of a password and a salt matches the password, as the check of its family answers, as the
/// check of SHA-crypt and scrypt does, and, of each scheme, as the check of every scheme does.
pub fn made_text_matches()
    ensures sha256 { Sha256Matches }
    ensures sha512 { Sha512Matches }
    ensures any { ShaMatches }
    ensures scrypt { ScryptMatches }
    ensures every { MadeMatches }
{}

/// A stored text has a cost exactly where there is a verdict on it.
pub fn cost_of_valid()
    ensures { CostOfValid }
{}

/// The word of an answer to a text of any scheme is the word of `any_check`, but for want of memory, which has none there,
/// and for a cost above the bound, whose number and word were here before.
pub fn has_any_word()
    ensures words { HasAnyWord }
{}
