//! The scheme that a name stands for.

ghost use Rattle.std.specs.Prelude.{◌≡◌};
ghost use Rattle.scheme_list.specs.Schemes.{scheme_of_name};
ghost use Rattle.any_make.specs.Names.{made_scheme, scheme_named};

use crate::NameFault;
use scheme_list::{Scheme, scheme_of_name};

// The scheme, if texts of it are made.
fn made_scheme(scheme: Option<Scheme>) -> Result<Scheme, NameFault>
    ensures { result ≡ made_scheme scheme }
{
    match scheme {
        Some(scheme) if scheme.is_weak() => Err(NameFault::Weak),
        Some(scheme) if scheme.is_made() => Ok(scheme),
        _ => Err(NameFault::Unknown),
    }
}

/// The scheme of a name, of which texts are made.
///
/// # Errors
///
/// `Weak` for a scheme whose texts are weak whatever they ask for ([`Scheme::is_weak`]); else `Unknown`.
pub fn scheme_named(name: &str) -> Result<Scheme, NameFault>
    ensures scheme { result ≡ scheme_named name.now }
{
    made_scheme(scheme_of_name(name))
}
