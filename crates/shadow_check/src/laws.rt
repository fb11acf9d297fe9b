//! Laws over runs over two files.

ghost use Rattle.shadow_check.specs.Laws.{FewerAnswersAlike};

/// A run that keeps the passwords of the texts' users alone answers as one that keeps all.
pub fn fewer_answers_alike()
    ensures alike { FewerAnswersAlike }
{}
