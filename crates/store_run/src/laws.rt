//! Laws over the definitions, each the contract of a function that does nothing.

ghost use Rattle.store_run.specs.Laws.{ImportsConverted, NoUserNoChange, NoUserNoCommand};

/// A line of a file of users that isn't one of a user and a text becomes no command: it changes nothing, and its reply says so.
pub fn no_user_no_change()
    ensures command { NoUserNoCommand }
    ensures change { NoUserNoChange }
{}

/// What a line of another maker sets is its converted text, for its user; or a text that locks the user's account, or an empty one.
pub fn imports_converted()
    ensures sets { ImportsConverted }
{}
