//! The character of the cost.

ghost use Rattle.std.specs.Prelude.{◌≡◌, ◌≤◌, IfSome};
ghost use Rattle.std.specs.List.{position};
ghost use Rattle.phpass_plain.specs.Text.{cost_of, place_of};

// The alphabet of crypt(3), in the order of the numbers that its characters write.
const CHARACTERS: &[u8; 64] = b"./0123456789ABCDEFGHIJKLMNOPQRSTUVWXYZabcdefghijklmnopqrstuvwxyz";

// The number that a character writes.
#[tactic(auto, unfolding(crate::specs::Text::place_of))]
fn place_of(character: u8) -> Option<usize>
    ensures { result ≡ place_of character }
{
    CHARACTERS.iter().position(|c| *c == character)
}

/// The cost that a character writes.
pub(crate) fn cost_of(character: u8) -> Option<u32>
    ensures cost { result ≡ cost_of character }
    ensures most { IfSome result (λ n. n ≤ 30) }
{
    match place_of(character) {
        None => None,
        Some(place) => {
            if 7 <= place && place <= 30 {
                Some(place as u32)
            } else {
                None
            }
        }
    }
}
