//! Which name is whose.

ghost use Rattle.std.specs.Prelude.{◌≡◌};
ghost use Rattle.scheme_list.specs.Schemes.{has_name, scheme_of_name};

use crate::{SCHEME_COUNT, Scheme};

impl Scheme {
    // Whether a name is this scheme's.
    fn has_name(self, name: &str) -> bool
        ensures { result ≡ has_name name.now self }
    {
        name == self.name()
    }
}

/// The scheme of a name. None where no scheme has it.
pub fn scheme_of_name(name: &str) -> Option<Scheme>
    ensures scheme { result ≡ scheme_of_name name.now }
{
    for place in 0..SCHEME_COUNT {
        let scheme = Scheme::at(place);
        if scheme.has_name(name) {
            return Some(scheme);
        }
    }
    None
}
