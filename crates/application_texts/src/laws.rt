//! Laws over the definitions.

ghost use Rattle.application_texts.specs.Laws.{MakersConvertToThemselves};

/// What a maker's text is read as is in the one spelling: the same maker's reader gives it again.
pub fn makers_convert_to_themselves()
    ensures themselves { MakersConvertToThemselves }
{}
