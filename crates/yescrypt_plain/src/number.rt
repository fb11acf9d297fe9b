//! The numbers of parameter fields, of characters of six bits each.

ghost use Rattle.std.specs.Prelude.{◌≡◌, ◌+◌, ◌-◌, ◌*◌, ◌^◌, ◌<◌, ◌≤◌, ◌++◌, drop, length, IfSome};
ghost use Rattle.yescrypt_plain.specs.Numbers.{character, class_of, digits, five, five_text, named, number, number_text};
ghost use Rattle.yescrypt_plain.specs.Numbers.{value_of};

use pieces::short_bytes::ShortBytes;

// The value of a character of the alphabet `./0-9A-Za-z`.
fn value_of(character: u8) -> Option<u64>
    ensures value { result ≡ value_of character }
    ensures below { IfSome result (λ value. value < 64) }
{
    if 46 <= character && character <= 57 {
        Some(character as u64 - 46)
    } else if 65 <= character && character <= 90 {
        Some(character as u64 - 53)
    } else if 97 <= character && character <= 122 {
        Some(character as u64 - 59)
    } else {
        None
    }
}

// A class of numbers: the value of the first character is from `start` on, `more` characters follow, and its least number
// is `base`.
#[derive(Clone, Copy)]
struct Class {
    start: u64,
    more: usize,
    base: u64,
}

// The class of a number by the value of its first character.
fn class_of(first: u64) -> Class
    ensures value { result ≡ class_of first }
    ensures start { result.start ≤ first }
    ensures more { result.more ≤ 5 }
    ensures base { result.base < 2 ^ 25 }
{
    if first < 48 {
        Class {
            start: 0,
            more: 0,
            base: 0,
        }
    } else if first < 56 {
        Class {
            start: 48,
            more: 1,
            base: 48,
        }
    } else if first < 60 {
        Class {
            start: 56,
            more: 2,
            base: 560,
        }
    } else if first < 62 {
        Class {
            start: 60,
            more: 3,
            base: 16_944,
        }
    } else if first < 63 {
        Class {
            start: 62,
            more: 4,
            base: 541_232,
        }
    } else {
        Class {
            start: 63,
            more: 5,
            base: 17_318_448,
        }
    }
}

// The number of `count` characters behind those that gave `first`, the highest first.
fn digits(text: &[u8], count: usize, first: u64) -> Option<u64>
    requires count { count ≤ 5 }
    requires first { first < 64 }
    ensures value { result ≡ digits count first text.now }
    ensures below { IfSome result (λ value. value < 2 ^ 36) }
{
    let mut value = first;
    'characters: for i in 0..count {
        if i >= text.len() {
            return None;
        }
        match value_of(text[i]) {
            None => return None,
            Some(digit) => value = value * 64 + digit,
        }
    }
    Some(value)
}

/// A number, and where the text goes on.
#[derive(Clone, Copy)]
pub(crate) struct Read {
    pub value: u64,
    pub next: usize,
}

/// The number at a place, of which the least possible is `least`.
#[tactic(auto, unfolding(crate::specs::Numbers::number))]
pub(crate) fn number(text: &[u8], at: usize, least: u64) -> Option<Read>
    requires least { least ≤ 2 }
    ensures value { result ≡ number text.now at least }
    ensures below { IfSome result (λ number. number.value < 2 ^ 37) }
{
    if at < text.len() {
        match value_of(text[at]) {
            None => None,
            Some(first) => {
                let class = class_of(first);
                match digits(&text[at + 1..], class.more, first - class.start) {
                    None => None,
                    Some(value) => Some(Read {
                        value: least + class.base + value,
                        next: at + 1 + class.more,
                    }),
                }
            }
        }
    } else {
        None
    }
}

/// The number at a place where it is named, else `absent`.
pub(crate) fn named(text: &[u8], at: usize, is_named: bool, least: u64, absent: u64) -> Option<Read>
    requires least { least ≤ 2 }
    ensures { result ≡ named text.now at is_named least absent }
{
    if is_named {
        number(text, at, least)
    } else {
        Some(Read {
            value: absent,
            next: at,
        })
    }
}

/// The number of five characters from a place on, the lowest first.
#[tactic(auto, unfolding(crate::specs::Numbers::five))]
pub(crate) fn five(text: &[u8], at: usize) -> Option<u32>
    requires { at + 5 ≤ length text.now }
    ensures value { result ≡ five text.now at }
    ensures below { IfSome result (λ value. value < 2 ^ 30) }
{
    let a = value_of(text[at])?;
    let b = value_of(text[at + 1])?;
    let c = value_of(text[at + 2])?;
    let d = value_of(text[at + 3])?;
    let e = value_of(text[at + 4])?;
    Some((a + 64 * (b + 64 * (c + 64 * (d + 64 * e)))) as u32)
}

/// The value of a character, below 64.
pub(crate) fn short_value(character: u8) -> Option<u32>
    ensures value { result ≡ value_of character }
    ensures below { IfSome result (λ value. value < 64) }
{
    let value = value_of(character)?;
    Some(value as u32)
}

/// The character of a value.
pub(crate) fn character(value: u32) -> u8
    requires { value < 64 }
    ensures { result ≡ character value }
{
    if value < 12 {
        46 + value as u8
    } else if value < 38 {
        53 + value as u8
    } else {
        59 + value as u8
    }
}

// The characters of a number of two, three or four, above the base of its class.
fn two_text(value: u32) -> [u8; 2]
    requires most { 48 + value < 560 }
    ensures { result ≡ number_text (48 + value) }
{
    [character(48 + value / 64), character(value % 64)]
}

fn three_text(value: u32) -> [u8; 3]
    requires most { 560 + value < 16944 }
    ensures { result ≡ number_text (560 + value) }
{
    [
        character(56 + value / 4096),
        character(value / 64 % 64),
        character(value % 64),
    ]
}

fn four_text(value: u32) -> [u8; 4]
    requires most { 16944 + value < 541232 }
    ensures { result ≡ number_text (16944 + value) }
{
    [
        character(60 + value / 262_144),
        character(value / 4096 % 64),
        character(value / 64 % 64),
        character(value % 64),
    ]
}

// The character of a number of one.
fn one_text(value: u32) -> [u8; 1]
    requires most { value < 48 }
    ensures { result ≡ number_text value }
{
    [character(value)]
}

/// Appends a number above the least possible, of at most four characters.
pub(crate) fn push_number<const N: usize>(text: &mut ShortBytes<N>, value: u32)
    requires value { value < 541232 }
    requires room { length text.old + 4 ≤ N }
    ensures appended { text.new ≡ text.old ++ number_text value }
    ensures len { length text.new ≤ length text.old + 4 }
{
    if value < 48 {
        text.push_all(&one_text(value));
    } else if value < 560 {
        text.push_all(&two_text(value - 48));
    } else if value < 16_944 {
        text.push_all(&three_text(value - 560));
    } else {
        text.push_all(&four_text(value - 16_944));
    }
}

/// The five characters of a number, the lowest first.
#[tactic(auto, unfolding(crate::specs::Numbers::five_text))]
pub(crate) fn five_text(value: u32) -> [u8; 5]
    ensures { result ≡ five_text value }
{
    [
        character(value % 64),
        character(value / 64 % 64),
        character(value / 4096 % 64),
        character(value / 262_144 % 64),
        character(value / 16_777_216 % 64),
    ]
}
