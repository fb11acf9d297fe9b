//! The three orderings as numbers, so that they are compared and selected as numbers are.
ghost use Rattle.std.specs.Prelude.{◌≡◌, ◌<◌};
ghost use Rattle.std.specs.Ordering.{ordering_index};

use std::cmp::Ordering;

/// The three orderings, from the least on.
const IN_ORDER: [Ordering; 3] = [Ordering::Less, Ordering::Equal, Ordering::Greater];

/// The place of an ordering among the three: 0, 1 or 2.
pub(crate) fn place_of(ordering: Ordering) -> u8
    ensures { result ≡ ordering_index ordering }
{
    (ordering as i8 + 1) as u8
}

/// The ordering at a place.
pub(crate) fn ordering_at(place: u8) -> Ordering
    requires { place < 3 }
    ensures { ordering_index result ≡ place }
{
    IN_ORDER[usize::from(place)]
}
