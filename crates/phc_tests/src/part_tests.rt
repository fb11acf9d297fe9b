//! Values, parameters, salts and outputs: rows that say what is refused, texts from outside, and one call of
//! each kind.

use phc::{Error, Ident, Iter, Output, ParamsString, Salt, SaltString, TryFill, Value};
use rand_chacha::ChaCha20Rng;
use rand_core::SeedableRng;
use std::alloc::{AllocError, Global};
use std::cmp::Ordering;
use std::fmt::Display;
use std::process::Abort;
use subtle::ConstantTimeEq;

// Sixteen characters that each value may have.
const SIXTEEN: &str = "AZaz09/+.-bcdefg";

// The same four times.
const SIXTY_FOUR: &str = "AZaz09/+.-bcdefgAZaz09/+.-bcdefgAZaz09/+.-bcdefgAZaz09/+.-bcdefg";

const SHORT: Error = Error::OutputSize {
    provided: Ordering::Less,
    expected: 10,
};

const LONG: Error = Error::OutputSize {
    provided: Ordering::Greater,
    expected: 64,
};

const INVALID_ENCODING: Error = Error::Base64(base64ct::Error::InvalidEncoding);

// Bytes counted from 0 on.
const COUNTED: [u8; 65] = [
    0, 1, 2, 3, 4, 5, 6, 7, 8, 9, 10, 11, 12, 13, 14, 15, 16, 17, 18, 19, 20, 21, 22, 23, 24, 25,
    26, 27, 28, 29, 30, 31, 32, 33, 34, 35, 36, 37, 38, 39, 40, 41, 42, 43, 44, 45, 46, 47, 48, 49,
    50, 51, 52, 53, 54, 55, 56, 57, 58, 59, 60, 61, 62, 63, 64,
];

// The first 64 of these in Base64, by another program.
const COUNTED_TEXT: &str =
    "AAECAwQFBgcICQoLDA0ODxAREhMUFRYXGBkaGxwdHh8gISIjJCUmJygpKissLS4vMDEyMzQ1Njc4OTo7PD0+Pw";

fn name(rt: &impl Abort, text: &str) -> Ident {
    Ident::new(text).expect(rt, "a name")
}

// What is printed of a value.
fn prints(rt: &impl Abort, alloc: Global, value: &impl Display, text: &str) -> bool {
    let printed = format!(in alloc; "{value}").expect(rt, "want of memory");
    printed.as_str() == text
}

fn value<'a>(rt: &impl Abort, text: &'a str) -> Value<'a> {
    Value::new(text).expect(rt, "a value")
}

// ---- values

// Values and the numbers that they write.
const DECIMALS: &[(&str, Option<u32>)] = &[
    ("0", Some(0)),
    ("7", Some(7)),
    ("4294967295", Some(4_294_967_295)),
    ("4294967296", None),
    ("01", None),
    ("00", None),
    ("-1", None),
    ("+1", None),
    ("", None),
    ("1a", None),
];

#[test]
fn decimals(rt: HostRuntime) {
    for (text, number) in DECIMALS {
        let value = value(&rt, text);
        assert!(rt; value.decimal().ok() == *number, "{text}");
        assert!(rt; value.is_decimal() == number.is_some(), "{text}");
    }
}

#[test]
fn refused_decimals(rt: HostRuntime) {
    for (text, number) in DECIMALS {
        if number.is_none() {
            let refusal = value(&rt, text).decimal().err();
            assert!(rt; refusal == Some(Error::ParamValueInvalid), "{text}");
        }
    }
}

#[test]
fn values(rt: HostRuntime) {
    let sixteen = value(&rt, SIXTEEN);
    assert!(rt; sixteen.as_str() == SIXTEEN);
    assert!(rt; sixteen.as_bytes() == SIXTEEN.as_bytes());
    assert!(rt; !sixteen.is_empty());
    assert!(rt; prints(&rt, rt.alloc(), &sixteen, SIXTEEN));
}

#[test]
fn lengths_of_values(rt: HostRuntime) {
    assert!(rt; value(&rt, SIXTY_FOUR).len() == Value::MAX_LENGTH);
    assert!(rt; value(&rt, "").is_empty());
    assert!(rt; value(&rt, "a") < value(&rt, "b"));
}

const BAD_VALUES: &[(&str, Error)] = &[
    (
        "AZaz09/+.-bcdefgAZaz09/+.-bcdefgAZaz09/+.-bcdefgAZaz09/+.-bcdefg;",
        Error::ParamValueTooLong,
    ),
    ("x;y", Error::ParamValueInvalid),
    ("a=b", Error::ParamValueInvalid),
    ("a,b", Error::ParamValueInvalid),
    ("a$b", Error::ParamValueInvalid),
    ("a b", Error::ParamValueInvalid),
    ("\u{e9}", Error::ParamValueInvalid),
];

#[test]
fn refused_values(rt: HostRuntime) {
    for (text, fault) in BAD_VALUES {
        assert!(rt; Value::new(text).err() == Some(*fault), "{text}");
    }
}

// A value is decoded at the front of four sevens.
fn decoded_as(rt: &impl Abort, text: &str, bytes: &[u8], room: [u8; 4]) {
    let mut sevens = [7; 4];
    assert!(rt;
        value(rt, text).b64_decode(&mut sevens) == Ok(bytes),
        "{text}"
    );
    assert!(rt; sevens == room, "{text}");
}

#[test]
fn decoded_values(rt: HostRuntime) {
    decoded_as(&rt, "AgM", &[2, 3], [2, 3, 7, 7]);
    decoded_as(&rt, "BAUG", &[4, 5, 6], [4, 5, 6, 7]);
}

#[test]
fn values_without_room(rt: HostRuntime) {
    let mut room = [7; 4];
    let no_room = Error::Base64(base64ct::Error::InvalidLength);
    assert!(rt; value(&rt, "BAUG").b64_decode(&mut room[..2]).err() == Some(no_room));
    assert!(rt; room == [7; 4]);
}

const NO_ENCODINGS: &[&str] = &["Mi", "A", "AA-", "...."];

#[test]
fn values_of_no_bytes(rt: HostRuntime) {
    let mut room = [7; 4];
    for text in NO_ENCODINGS {
        let refusal = value(&rt, text).b64_decode(&mut room).err();
        assert!(rt; refusal == Some(INVALID_ENCODING), "{text}");
    }
}

// ---- salts

// Texts of salts that are refused.
const BAD_SALTS: &[(&str, Error)] = &[
    ("", Error::SaltTooShort),
    ("__________", Error::SaltTooShort),
    ("abcdabcdab", Error::SaltTooShort),
    (
        "AAAAAAAAAAAAAAAAAAAAAAAAAAAAAAAAAAAAAAAAAAAAAAAAAAAAAAAAAAAAAAAAA",
        Error::SaltTooLong,
    ),
    (
        "01234_abcde",
        Error::Base64(base64ct::Error::InvalidEncoding),
    ),
    (
        "abcdabcdab.",
        Error::Base64(base64ct::Error::InvalidEncoding),
    ),
    (
        "abcdabcdabcda",
        Error::Base64(base64ct::Error::InvalidEncoding),
    ),
];

fn bad_salts() -> &'static [(&'static str, Error)] {
    BAD_SALTS
}

fn refused_salt(rt: &impl Abort, text: &str, fault: Error) {
    let refusal = Some(fault);
    assert!(rt; Salt::from_b64(text).err() == refusal, "{text}");
    assert!(rt; SaltString::from_b64(text).err() == refusal, "{text}");
    assert!(rt; text.parse::<Salt>().err() == refusal, "{text}");
    assert!(rt; text.parse::<SaltString>().err() == refusal, "{text}");
}

#[test]
fn refused_salts(rt: HostRuntime) {
    for (text, fault) in bad_salts() {
        refused_salt(&rt, text, *fault);
    }
}

const SALT_TEXT: &str = "abcdabcdabc";

fn salt(rt: &impl Abort) -> Salt {
    Salt::from_b64(SALT_TEXT).expect(rt, "a salt")
}

#[test]
fn salts(rt: HostRuntime) {
    let bytes = [0x69, 0xb7, 0x1d, 0x69, 0xb7, 0x1d, 0x69, 0xb7];
    let salt = salt(&rt);
    assert!(rt; salt.as_bytes() == bytes.as_slice());
    assert!(rt; Salt::new(&bytes) == Ok(salt));
    assert!(rt; prints(&rt, rt.alloc(), &salt, SALT_TEXT));
}

#[test]
fn lengths_of_salts(rt: HostRuntime) {
    assert!(rt; Salt::new(&COUNTED[..7]).err() == Some(Error::SaltTooShort));
    assert!(rt; Salt::new(&COUNTED[..49]).err() == Some(Error::SaltTooLong));
    let longest = Salt::new(&COUNTED[..48])
        .expect(&rt, "a salt")
        .to_salt_string();
    assert!(rt; longest.as_str() == &COUNTED_TEXT[..SaltString::MAX_LENGTH]);
}

#[test]
fn texts_of_salts(rt: HostRuntime) {
    let text = salt(&rt).to_salt_string();
    assert!(rt; text.as_str() == SALT_TEXT);
    assert!(rt; SaltString::from_b64(SALT_TEXT) == Ok(text));
    assert!(rt; text.to_salt() == salt(&rt));
    assert!(rt; prints(&rt, rt.alloc(), &text, SALT_TEXT));
}

// ---- generators

// The first bytes of ChaCha20 under a key of zeros (RFC 8439, A.1, test vector 1).
const CHACHA: [u8; 32] = [
    0x76, 0xb8, 0xe0, 0xad, 0xa0, 0xf1, 0x3d, 0x90, 0x40, 0x5d, 0x6a, 0xe5, 0x53, 0x86, 0xbd, 0x28,
    0xbd, 0xd2, 0x19, 0xb8, 0xa0, 0x8d, 0xed, 0x1a, 0xa8, 0x36, 0xef, 0xcc, 0x8b, 0x77, 0x0d, 0xc7,
];

// A generator over given bytes, which refuses its first call and where they run out.
#[derive(Drop)]
struct Given<'a> {
    left: &'a [u8],
    refusals: u64,
    calls: u64,
}

impl TryFill for Given<'_> {
    ghost use Rattle.std.specs.Prelude.{Some};

    type Error = &'static str;

    ghost refusals = { λ g. g.refusals };

    ghost coming = { λ g. Some g.left.now };

    fn try_fill(&mut self, out: &mut [u8]) -> Result<(), &'static str> {
        self.calls = self.calls.saturating_add(1);
        if self.refusals == 0 || self.left.len() < out.len() {
            self.refusals = self.refusals.saturating_add(1);
            return Err("not yet");
        }
        let (front, left) = self.left.split_at(out.len());
        out.copy_from_slice(front);
        self.left = left;
        Ok(())
    }
}

#[test]
fn salts_of_a_generator(rt: HostRuntime) {
    let mut rng = ChaCha20Rng::from_seed([0; 32]);
    let salt = Salt::from_rng(&mut rng);
    assert!(rt; salt.as_bytes().len() == Salt::RECOMMENDED_LENGTH);
    assert!(rt; salt.as_bytes() == &CHACHA[..16]);
    assert!(rt; SaltString::from_rng(&mut rng).as_str() == "vdIZuKCN7RqoNu/Mi3cNxw");
}

#[test]
fn salts_of_a_generator_that_refuses(rt: HostRuntime) {
    let mut rng = Given {
        left: &CHACHA,
        refusals: 0,
        calls: 0,
    };
    assert!(rt; Salt::try_from_rng(&mut rng) == Err("not yet"));
    assert!(rt; Salt::try_from_rng(&mut rng) == Ok(Salt::new(&CHACHA[..16]).expect(&rt, "a salt")));
    let text = SaltString::try_from_rng(&mut rng).expect(&rt, "a salt");
    assert!(rt; text.as_str() == "vdIZuKCN7RqoNu/Mi3cNxw");
    assert!(rt; SaltString::try_from_rng(&mut rng) == Err("not yet"));
    assert!(rt; rng.refusals == 2);
    assert!(rt; rng.calls == 4);
}

// ---- outputs

// Texts of outputs that are refused.
const BAD_OUTPUTS: &[(&str, Error)] = &[
    (
        ".......................................................................................",
        Error::Base64(base64ct::Error::InvalidLength),
    ),
    ("", SHORT),
    ("AAAA", SHORT),
    (
        "AQIDBAUGBwgJ.g",
        Error::Base64(base64ct::Error::InvalidEncoding),
    ),
    (
        "AQIDBAUGBwgJCh",
        Error::Base64(base64ct::Error::InvalidEncoding),
    ),
];

fn bad_outputs() -> &'static [(&'static str, Error)] {
    BAD_OUTPUTS
}

fn refused_output(rt: &impl Abort, text: &str, fault: Error) {
    let refusal = Some(fault);
    assert!(rt; Output::decode(text).err() == refusal, "{text}");
    assert!(rt; Output::b64_decode(text).err() == refusal, "{text}");
    assert!(rt; text.parse::<Output>().err() == refusal, "{text}");
}

#[test]
fn refused_outputs(rt: HostRuntime) {
    for (text, fault) in bad_outputs() {
        refused_output(&rt, text, *fault);
    }
    assert!(rt; Output::new(&COUNTED[..9]).err() == Some(SHORT));
    assert!(rt; Output::new(&COUNTED).err() == Some(LONG));
}

// The text of the longest output at the front of 88 sevens.
fn is_counted_text(room: &[u8]) -> bool {
    room.starts_with(COUNTED_TEXT.as_bytes()) && room.ends_with(&[7, 7])
}

// With room for 85 characters none is written.
fn encoded_as(rt: &impl Abort, most: &Output) {
    let mut short = [7; 85];
    let refusal = most.encode(&mut short).err();
    assert!(rt; refusal == Some(Error::Base64(base64ct::Error::InvalidLength)));
    assert!(rt; short == [7; 85]);
    let mut room = [7; 88];
    assert!(rt; most.encode(&mut room) == Ok(COUNTED_TEXT));
    assert!(rt; is_counted_text(&room));
}

// The same by the older name.
fn b64_encoded_as(rt: &impl Abort, most: &Output) {
    let mut short = [7; 85];
    let refusal = most.b64_encode(&mut short).err();
    assert!(rt; refusal == Some(Error::Base64(base64ct::Error::InvalidLength)));
    assert!(rt; short == [7; 85]);
    let mut room = [7; 88];
    assert!(rt; most.b64_encode(&mut room) == Ok(COUNTED_TEXT));
    assert!(rt; is_counted_text(&room));
}

#[test]
fn outputs(rt: HostRuntime) {
    let ten = Output::new(&COUNTED[1..11]).expect(&rt, "an output");
    assert!(rt; Output::decode("AQIDBAUGBwgJCg") == Ok(ten));
    assert!(rt; ten.len() == Output::MIN_LENGTH);
    let most = Output::new(&COUNTED[..64]).expect(&rt, "an output");
    assert!(rt; most.as_bytes() == &COUNTED[..Output::MAX_LENGTH]);
    assert!(rt; Output::decode(COUNTED_TEXT) == Ok(most));
}

#[test]
fn the_longest_output(rt: HostRuntime) {
    let most = Output::new(&COUNTED[..64]).expect(&rt, "an output");
    encoded_as(&rt, &most);
    b64_encoded_as(&rt, &most);
    assert!(rt; prints(&rt, rt.alloc(), &most, COUNTED_TEXT));
}

#[test]
fn length_of_the_longest_output(rt: HostRuntime) {
    let most = Output::new(&COUNTED[..64]).expect(&rt, "an output");
    assert!(rt; Output::B64_MAX_LENGTH == 86);
    assert!(rt; most.encoded_len() == Output::B64_MAX_LENGTH);
    assert!(rt; most.b64_len() == Output::B64_MAX_LENGTH);
}

#[test]
fn outputs_are_compared(rt: HostRuntime) {
    let ten = Output::new(&COUNTED[1..11]).expect(&rt, "an output");
    let most = Output::new(&COUNTED[..64]).expect(&rt, "an output");
    assert!(rt; bool::from(ten.ct_eq(&ten)) && !bool::from(ten.ct_eq(&most)));
    let other = Output::new(&COUNTED[2..12]).expect(&rt, "an output");
    assert!(rt; ten != other && ten != most);
}

#[test]
fn outputs_by_a_closure(rt: HostRuntime) {
    let made = Output::init_with(16, |out| {
        out[0] = 1;
        Ok(())
    });
    let mut wanted = [0; 16];
    wanted[0] = 1;
    assert!(rt; made == Output::new(&wanted));
    assert!(rt; Output::init_with(10, |_| Err(Error::TrailingData)) == Err(Error::TrailingData));
    assert!(rt; Output::init_with(9, |_| Err(Error::TrailingData)) == Err(SHORT));
    assert!(rt; Output::init_with(65, |_| Err(Error::TrailingData)) == Err(LONG));
    assert!(rt; Output::init_with(64, |_| Ok(())) == Output::new(&[0; 64]));
}

// ---- parameters

// Texts of parameters that are refused.
const BAD_PARAMS: &[(&str, Error)] = &[
    ("=1", Error::ParamNameInvalid),
    ("A=1", Error::ParamNameInvalid),
    ("a=1,", Error::ParamNameInvalid),
    (",", Error::ParamNameInvalid),
    ("a", Error::ParamValueInvalid),
    ("a=1,b", Error::ParamValueInvalid),
    ("a==", Error::ParamValueInvalid),
    ("a=x;y", Error::ParamValueInvalid),
    (
        "a=AAAAAAAAAAAAAAAAAAAAAAAAAAAAAAAAAAAAAAAAAAAAAAAAAAAAAAAAAAAAAAAAA",
        Error::ParamValueTooLong,
    ),
    (
        "................................................................................................................................",
        Error::ParamsMaxExceeded,
    ),
];

fn bad_params() -> &'static [(&'static str, Error)] {
    BAD_PARAMS
}

#[test]
fn refused_params(rt: HostRuntime) {
    for (text, fault) in bad_params() {
        assert!(rt;
            text.parse::<ParamsString>().err() == Some(*fault),
            "{text}"
        );
    }
}

// Five parameters, of which two have one name, one has a value that is no decimal, and one an empty value.
fn five_params(rt: &impl Abort) -> ParamsString {
    "ln=16,r=8,p=01,r=x,e="
        .parse::<ParamsString>()
        .expect(rt, "parameters")
}

#[test]
fn params_by_name(rt: HostRuntime) {
    let params = five_params(&rt);
    assert!(rt; params.get(name(&rt, "ln")) == Some(value(&rt, "16")));
    assert!(rt; params.get(name(&rt, "x")) == None);
    assert!(rt; params.get_str(name(&rt, "r")) == Some("8"));
}

#[test]
fn decimals_by_name(rt: HostRuntime) {
    let params = five_params(&rt);
    assert!(rt; params.get_decimal(name(&rt, "r")) == Some(8));
    assert!(rt; params.get_decimal(name(&rt, "p")) == None);
    assert!(rt; params.get_decimal_named("ln") == Some(16));
}

#[test]
fn params_by_a_text(rt: HostRuntime) {
    let params = five_params(&rt);
    assert!(rt; params.get_named("e") == Some(value(&rt, "")));
    assert!(rt; params.get_named("R") == None);
    assert!(rt; params.get_str_named("p") == Some("01"));
}

// The next pair of parameters has this name and value.
fn next_is(pairs: &mut Iter<'_>, name: &str, value: &str) -> bool {
    match pairs.next() {
        Some((next, text)) => next.as_str() == name && text.as_str() == value,
        None => false,
    }
}

fn is_over(pairs: &mut Iter<'_>) -> bool {
    pairs.next().is_none()
}

const PAIRS: &[(&str, &str)] = &[("ln", "16"), ("r", "8"), ("p", "01"), ("r", "x"), ("e", "")];

#[test]
fn pairs_in_turn(rt: HostRuntime) {
    let params = five_params(&rt);
    let mut pairs = params.iter();
    for (name, value) in PAIRS {
        assert!(rt; next_is(&mut pairs, name, value), "{name}={value}");
    }
    assert!(rt; is_over(&mut pairs));
}

#[test]
fn pairs_from_the_same_place(rt: HostRuntime) -> Result<(), AllocError> {
    let params = five_params(&rt);
    let mut pairs = params.iter();
    assert!(rt; next_is(&mut pairs, "ln", "16"));
    let mut again = pairs.clone()?;
    assert!(rt; next_is(&mut pairs, "r", "8"));
    assert!(rt; next_is(&mut again, "r", "8"));
    Ok(())
}

#[test]
fn texts_of_params(rt: HostRuntime) {
    let params = five_params(&rt);
    assert!(rt; params.as_str() == "ln=16,r=8,p=01,r=x,e=");
    assert!(rt; params.as_bytes() == params.as_str().as_bytes());
    assert!(rt; params.len() == 21);
    assert!(rt; !params.is_empty());
    assert!(rt; prints(&rt, rt.alloc(), &params, "ln=16,r=8,p=01,r=x,e="));
}

#[test]
fn params_are_compared(rt: HostRuntime) -> Result<(), AllocError> {
    let params = five_params(&rt);
    assert!(rt; params.clone()? == params);
    assert!(rt; params != ParamsString::default());
    assert!(rt; "".parse::<ParamsString>() == Ok(ParamsString::new()));
    assert!(rt; ParamsString::new().is_empty() && ParamsString::new().iter().next() == None);
    Ok(())
}

// A call that adds a pair: a text, a number, or bytes, with a name or with the text of a name.
enum Call {
    Text(&'static str, &'static str),
    TextNamed(&'static str, &'static str),
    Number(&'static str, u32),
    NumberNamed(&'static str, u32),
    Bytes(&'static str, &'static [u8]),
    BytesNamed(&'static str, &'static [u8]),
}

fn add(rt: &impl Abort, params: &mut ParamsString, call: &Call) -> Option<Error> {
    let added = match *call {
        Call::Text(text, added) => params.add_str(name(rt, text), value(rt, added)),
        Call::TextNamed(text, added) => params.add_str_named(text, added),
        Call::Number(text, number) => params.add_decimal(name(rt, text), number),
        Call::NumberNamed(text, number) => params.add_decimal_named(text, number),
        Call::Bytes(text, bytes) => params.add_b64_bytes(name(rt, text), bytes),
        Call::BytesNamed(text, bytes) => params.add_b64_bytes_named(text, bytes),
    };
    added.err()
}

// Parameters, a call, its refusal, and the parameters then.
type Added = (&'static str, Call, Option<Error>, &'static str);

const THREE: &str = "a=AQ,b=AgM,c=BAUG";

const TOO_LONG: Option<Error> = Some(Error::ParamValueTooLong);

const TWICE: Option<Error> = Some(Error::ParamNameDuplicated);

const NO_NAME: Option<Error> = Some(Error::ParamNameInvalid);

const NO_VALUE: Option<Error> = Some(Error::ParamValueInvalid);

const FULL: Option<Error> = Some(Error::ParamsMaxExceeded);

// A parameter of 66 bytes, and two of 127.
const ONE_LONG: &str = "a=AZaz09/+.-bcdefgAZaz09/+.-bcdefgAZaz09/+.-bcdefgAZaz09/+.-bcdefg";

const TWO_LONG: &str =
    "a=AZaz09/+.-bcdefgAZaz09/+.-bcdefgAZaz09/+.-bcdefgAZaz09/+.-bcdefg,b=AZaz09/+.-bcdefgAZaz09/+.-bcdefgAZaz09/+.-bcdefgAZaz09/+.-";

const ADDED: &[Added] = &[
    ("", Call::Bytes("a", &[1]), None, "a=AQ"),
    ("a=AQ", Call::Bytes("b", &[2, 3]), None, "a=AQ,b=AgM"),
    ("a=AQ,b=AgM", Call::BytesNamed("c", &[4, 5, 6]), None, THREE),
    (THREE, Call::Bytes("a", &COUNTED), TWICE, THREE),
    (THREE, Call::Text("a", "1"), TWICE, THREE),
    (THREE, Call::Number("c", 1), TWICE, THREE),
    (THREE, Call::Bytes("d", &[7; 49]), TOO_LONG, THREE),
    (THREE, Call::BytesNamed("d", &[7; 49]), TOO_LONG, THREE),
    (THREE, Call::BytesNamed("D", &[7; 49]), NO_NAME, THREE),
    ("", Call::TextNamed("A", "1"), NO_NAME, ""),
    ("", Call::TextNamed("A", "x;y"), NO_NAME, ""),
    ("", Call::TextNamed("a", "x;y"), NO_VALUE, ""),
    (
        "",
        Call::TextNamed(
            "a",
            "AZaz09/+.-bcdefgAZaz09/+.-bcdefgAZaz09/+.-bcdefgAZaz09/+.-bcdefg1",
        ),
        NO_VALUE,
        "",
    ),
    ("", Call::TextNamed("a", SIXTY_FOUR), None, ONE_LONG),
    (
        ONE_LONG,
        Call::TextNamed(
            "b",
            "AZaz09/+.-bcdefgAZaz09/+.-bcdefgAZaz09/+.-bcdefgAZaz09/+.-b",
        ),
        FULL,
        ONE_LONG,
    ),
    (
        ONE_LONG,
        Call::TextNamed(
            "b",
            "AZaz09/+.-bcdefgAZaz09/+.-bcdefgAZaz09/+.-bcdefgAZaz09/+.-",
        ),
        None,
        TWO_LONG,
    ),
    (TWO_LONG, Call::TextNamed("c", ""), FULL, TWO_LONG),
    (TWO_LONG, Call::NumberNamed("c", 1), FULL, TWO_LONG),
    (TWO_LONG, Call::BytesNamed("c", &[]), FULL, TWO_LONG),
    (TWO_LONG, Call::TextNamed("a", ""), TWICE, TWO_LONG),
];

fn added() -> &'static [Added] {
    ADDED
}

fn parsed(rt: &impl Abort, text: &str) -> ParamsString {
    text.parse::<ParamsString>().expect(rt, "parameters")
}

#[test]
fn added_pairs(rt: HostRuntime) {
    for (i, row) in added().iter().enumerate() {
        let (before, call, refusal, after) = row;
        let mut params = parsed(&rt, before);
        assert!(rt; add(&rt, &mut params, call) == *refusal, "row {i}");
        assert!(rt; params.as_str() == *after, "row {i}");
        assert!(rt; params == parsed(&rt, after), "row {i}");
    }
}

#[test]
fn the_longest_params(rt: HostRuntime) {
    assert!(rt; parsed(&rt, TWO_LONG).len() == 127);
}

// Calls in turn, from no parameter on, and their refusals.
const IN_TURN: &[(Call, Option<Error>)] = &[
    (Call::Bytes("a", &[1]), None),
    (Call::Bytes("b", &[2, 3]), None),
    (Call::BytesNamed("c", &[4, 5, 6]), None),
    (Call::Number("d", 0), None),
    (Call::NumberNamed("e", 4_294_967_295), None),
    (Call::NumberNamed("", 1), NO_NAME),
    (Call::TextNamed("f", ""), None),
    (Call::Text("g-1", "/+.-"), None),
];

#[test]
fn pairs_added_in_turn(rt: HostRuntime) {
    let mut params = ParamsString::new();
    for (call, refusal) in IN_TURN {
        let added = add(&rt, &mut params, call);
        assert!(rt; added == *refusal, "after {params}");
    }
    assert!(rt; params.as_str() == "a=AQ,b=AgM,c=BAUG,d=0,e=4294967295,f=,g-1=/+.-");
}

#[test]
fn params_of_pairs(rt: HostRuntime) {
    let params = "m=512,t=3"
        .parse::<ParamsString>()
        .expect(&rt, "parameters");
    assert!(rt; ParamsString::try_from_iter(params.iter()) == Ok(params));
    let twice = "m=512,t=3,m=2"
        .parse::<ParamsString>()
        .expect(&rt, "parameters");
    assert!(rt; ParamsString::try_from_iter(twice.iter()) == Err(Error::ParamNameDuplicated));
}
