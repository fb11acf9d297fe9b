//! Numbers of rounds, as stored texts write them: in decimal digits without a zero in front.
#![tactic(auto)]

ghost use Rattle.std.specs.Prelude.{◌≡◌, ◌≤◌, ◌^◌, IfSome};
ghost use Rattle.std.specs.Char.{is_ascii_digit};
ghost use Rattle.std.specs.List.{list_all};
ghost use Rattle.pieces.specs.Numbers.{is_plain_number, plain_number};
ghost use Rattle.plain_rounds.specs.Rounds.{rounds_of};

use pieces::begins_with;

fn has_digits(bytes: &[u8]) -> bool
    ensures { result ≡ list_all is_ascii_digit bytes.now }
{
    bytes.iter().all(|b| b.is_ascii_digit())
}

// Whether a text is one digit or more, without a zero in front.
fn is_plain_number(text: &str) -> bool
    ensures { result ≡ is_plain_number text.now }
{
    has_digits(text.as_bytes()) && !(1 < text.len() && begins_with(text, "0")) && !text.is_empty()
}

// The number below 2^32 that a text writes plainly.
fn plain_number(text: &str) -> Option<u32>
    ensures { result ≡ plain_number (2 ^ 32) text.now }
{
    if !is_plain_number(text) {
        return None;
    }
    match text.parse::<u32>() {
        Ok(number) => Some(number),
        Err(_) => None,
    }
}

/// The rounds that a text writes: 1 to 4,294,967,295, with no sign, no blank and no zero in front.
pub fn rounds_of(text: &str) -> Option<u32>
    ensures rounds { result ≡ rounds_of text.now }
    ensures least { IfSome result (λ n. 1 ≤ n) }
{
    match plain_number(text) {
        Some(0) => None,
        Some(rounds) => Some(rounds),
        None => None,
    }
}
