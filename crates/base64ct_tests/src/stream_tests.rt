//! Encoders and decoders.

use base64ct::{
    Base64, Base64Unpadded, DecodeVecError, Decoder, Encoder, Encoding, Error, LineEnding,
};
use std::alloc::Global;
use std::io::{ErrorKind, Read, Write};
use std::process::Abort;

// A row of `encoder_rows`.
struct Fed {
    // the length of the buffer, and the width and the ending of lines
    len: usize,
    width: usize,
    ending: LineEnding,
    // what is fed, and whether the last part is taken
    parts: &'static [&'static [u8]],
    last: &'static [u8],
    is_taken: bool,
    // the position then, and the text or a refusal of it
    position: usize,
    text: Option<&'static str>,
}

const SIX_IN_NINE: Fed = Fed {
    len: 9,
    width: 4,
    ending: LineEnding::LF,
    parts: &[&[0; 6]],
    last: &[],
    is_taken: true,
    position: 9,
    text: Some("AAAA\nAAAA"),
};

const FED: &[Fed] = &[
    SIX_IN_NINE,
    Fed {
        len: 12,
        ..SIX_IN_NINE
    },
    Fed {
        last: &[0; 3],
        is_taken: false,
        ..SIX_IN_NINE
    },
    Fed {
        last: &[0; 1],
        text: None,
        ..SIX_IN_NINE
    },
    Fed {
        len: 8,
        parts: &[],
        last: &[0; 6],
        is_taken: false,
        position: 0,
        text: Some(""),
        ..SIX_IN_NINE
    },
    Fed {
        len: 8,
        parts: &[&[0; 3]],
        last: &[0; 3],
        is_taken: false,
        position: 4,
        text: Some("AAAA"),
        ..SIX_IN_NINE
    },
    Fed {
        len: 64,
        parts: &[&[1, 2], &[3], &[]],
        last: &[4],
        position: 4,
        text: Some("AQID\nBA=="),
        ..SIX_IN_NINE
    },
    Fed {
        parts: &[&[1]],
        last: &[2],
        position: 0,
        text: Some("AQI="),
        ..SIX_IN_NINE
    },
    Fed {
        len: 3,
        parts: &[&[1]],
        position: 0,
        text: None,
        ..SIX_IN_NINE
    },
    Fed {
        len: 64,
        width: 64,
        ending: LineEnding::CRLF,
        parts: &[],
        last: &[0; 48],
        position: 64,
        text: Some("AAAAAAAAAAAAAAAAAAAAAAAAAAAAAAAAAAAAAAAAAAAAAAAAAAAAAAAAAAAAAAAA"),
        ..SIX_IN_NINE
    },
];

const FED_UNPADDED: Fed = Fed {
    len: 32,
    width: 5,
    ending: LineEnding::CR,
    parts: &[&[1, 2], &[3], &[]],
    last: &[4, 5, 6, 7],
    is_taken: true,
    position: 9,
    text: Some("AQIDB\rAUGBw"),
};

// Takes the parts of a row.
fn takes<E: Encoding>(rt: &impl Abort, e: &mut Encoder<'_, E>, row: &Fed) {
    for part in row.parts {
        assert!(rt; e.encode(part).is_ok());
    }
    assert!(rt; e.encode(row.last).is_ok() == row.is_taken);
    assert!(rt; e.position() == row.position);
}

// Gives the text of a row, and writes nines over the rest of the buffer.
fn ends<E: Encoding>(rt: &impl Abort, e: Encoder<'_, E>, row: &Fed) {
    match e.finish_with_remaining() {
        Ok((written, rest)) => {
            assert!(rt; Some(written) == row.text);
            assert!(rt; written.len() + rest.len() == row.len);
            rest.fill(9);
        }
        Err(error) => {
            assert!(rt; error == Error::InvalidLength);
            assert!(rt; row.text.is_none());
        }
    }
}

fn are(bytes: &[u8], wanted: u8) -> bool {
    bytes.iter().all(|b| *b == wanted)
}

// A text stands at the front of a buffer of `len` bytes, with nines behind it; what follows them is as it was.
fn stands(rt: &impl Abort, buf: &[u8], len: usize, text: Option<&str>) {
    assert!(rt; len <= buf.len());
    assert!(rt; are(&buf[len..], 7));
    if let Some(text) = text {
        assert!(rt; text.len() <= len);
        assert!(rt; buf.starts_with(text.as_bytes()));
        assert!(rt; are(&buf[text.len()..len], 9));
    }
}

fn feeds<E: Encoding>(rt: &impl Abort, row: &Fed) {
    assert!(rt; row.len <= 64);
    let mut buf = [7u8; 64];
    let room = &mut buf[..row.len];
    let mut e = Encoder::<E>::new_wrapped(room, row.width, row.ending).expect(rt, "made");
    takes(rt, &mut e, row);
    ends(rt, e, row);
    stands(rt, &buf, row.len, row.text);
}

#[test]
fn encoder_rows(rt: HostRuntime) {
    for row in FED {
        feeds::<Base64>(&rt, row);
    }
    feeds::<Base64Unpadded>(&rt, &FED_UNPADDED);
}

#[test]
fn encoders_without_room(rt: HostRuntime) {
    assert!(rt; Encoder::<Base64>::new(&mut []).err() == Some(Error::InvalidLength));
    let mut buf = [7u8; 16];
    assert!(rt;
        Encoder::<Base64>::new_wrapped(&mut buf, 3, LineEnding::CR).err()
            == Some(Error::InvalidLength)
    );
}

#[test]
fn encoders_in_one_line(rt: HostRuntime) {
    let mut buf = [7u8; 16];
    let mut e = Encoder::<Base64>::new(&mut buf).expect(&rt, "made");
    assert!(rt; e.encode(&[1, 2, 3, 4]).is_ok());
    assert!(rt; e.finish() == Ok("AQIDBA=="));
    assert!(rt; &buf == b"AQIDBA==\x07\x07\x07\x07\x07\x07\x07\x07");
}

fn refuses_a_write(e: &mut Encoder<'_, Base64>, bytes: &[u8]) -> bool {
    match e.write(bytes) {
        Ok(_) => false,
        Err(error) => error.kind() == ErrorKind::InvalidData,
    }
}

#[test]
fn encoder_writes(rt: HostRuntime) {
    let mut buf = [0u8; 9];
    let mut e = Encoder::<Base64>::new_wrapped(&mut buf, 4, LineEnding::LF).expect(&rt, "made");
    assert!(rt; e.write(&[0; 6]).ok() == Some(6));
    assert!(rt; e.flush().is_ok());
    assert!(rt; refuses_a_write(&mut e, &[0; 3]));
    assert!(rt; e.finish() == Ok("AAAA\nAAAA"));
}

#[test]
fn encoder_writes_all(rt: HostRuntime) {
    let mut buf = [0u8; 8];
    let mut e = Encoder::<Base64>::new(&mut buf).expect(&rt, "made");
    assert!(rt; e.write_all(b"hello").is_ok());
    assert!(rt; e.finish() == Ok("aGVsbG8="));
}

// Decodes a part of at most fifty bytes.
fn decodes<E: Encoding>(rt: &impl Abort, d: &mut Decoder<'_, E>, part: &[u8]) {
    assert!(rt; part.len() <= 50);
    let mut room = [0u8; 50];
    assert!(rt; d.decode(&mut room[..part.len()]) == Ok(part));
}

// Reads a part of at most eight bytes.
fn reads<E: Encoding>(rt: &impl Abort, d: &mut Decoder<'_, E>, part: &[u8]) {
    assert!(rt; part.len() <= 8);
    let mut room = [0u8; 8];
    match d.read(&mut room[..part.len()]) {
        Ok(count) => assert!(rt; &room[..count] == part),
        Err(_) => assert!(rt; false),
    }
}

fn reads_nothing<E: Encoding>(d: &mut Decoder<'_, E>) -> bool {
    let mut room = [0u8; 8];
    match d.read(&mut room) {
        Ok(count) => count == 0,
        Err(_) => false,
    }
}

// A text, the width of its lines, and the parts that are taken one by one.
type Parts = (&'static [u8], usize, &'static [&'static [u8]]);

const PARTS: &[Parts] = &[
    (b"AAAA\r\nAAAA\n", 4, &[&[0], &[0; 4], &[0]]),
    (b"AQIDB\r\nA==", 5, &[&[1, 2], &[], &[3], &[4]]),
    (
        b"AQIDBAU\nGBwgJCg\r\n==",
        7,
        &[&[1, 2, 3, 4], &[5, 6, 7, 8], &[9, 10]],
    ),
];

const PARTS_UNPADDED: Parts = (b"AQIDB\rAUG", 5, &[&[1], &[2, 3, 4], &[5, 6]]);

// Takes the parts one by one, by `decode` and by `read`, and then nothing.
fn expect_parts<E: Encoding>(rt: &impl Abort, row: &Parts) {
    let mut d = Decoder::<E>::new_wrapped(row.0, row.1).expect(rt, "made");
    let mut again = d.clone().expect(rt, "no memory is taken");
    for part in row.2 {
        decodes(rt, &mut d, part);
        reads(rt, &mut again, part);
    }
    assert!(rt; d.is_finished());
    assert!(rt; reads_nothing(&mut again));
}

#[test]
fn decoder_rows(rt: HostRuntime) {
    for row in PARTS {
        expect_parts::<Base64>(&rt, row);
    }
    expect_parts::<Base64Unpadded>(&rt, &PARTS_UNPADDED);
}

// Texts that are refused, and the width of their lines.
const REFUSED: &[(&str, usize, Error)] = &[
    ("AAAA\n\n", 4, Error::InvalidEncoding),
    ("AAAA\n\r", 4, Error::InvalidEncoding),
    ("AAA", 4, Error::InvalidEncoding),
    ("AAAAA", 4, Error::InvalidEncoding),
    ("AAA\nA", 4, Error::InvalidEncoding),
    ("AAAA \nAAAA", 4, Error::InvalidEncoding),
    ("\n", 4, Error::InvalidLength),
    ("", 4, Error::InvalidLength),
    ("AAAA", 3, Error::InvalidLength),
];

#[test]
fn refused_lines(rt: HostRuntime) {
    for (text, width, error) in REFUSED {
        let made = Decoder::<Base64>::new_wrapped(text.as_bytes(), *width);
        assert!(rt; made.err() == Some(*error), "{text}");
    }
}

// What a read of all of `room` is refused for.
fn refuses_a_read<E: Encoding>(d: &mut Decoder<'_, E>, room: &mut [u8]) -> bool {
    match d.read_exact(room) {
        Ok(()) => false,
        Err(error) => error.kind() == ErrorKind::InvalidData,
    }
}

#[test]
fn decoder_at_a_bad_character(rt: HostRuntime) {
    let mut d = Decoder::<Base64>::new(b"AA*AAAAA").expect(&rt, "made");
    let mut one = [0u8; 1];
    assert!(rt; d.decode(&mut one).err() == Some(Error::InvalidEncoding));
    assert!(rt; d.decode(&mut one).err() == Some(Error::InvalidEncoding));
    match d.read(&mut one) {
        Ok(_) => assert!(rt; false),
        Err(error) => assert!(rt; error.kind() == ErrorKind::InvalidData),
    }
    assert!(rt; d.remaining_len() == 6);
}

#[test]
fn decoder_asked_for_too_much(rt: HostRuntime) {
    let mut d = Decoder::<Base64Unpadded>::new_wrapped(b"AQIDB\rAUG", 5).expect(&rt, "made");
    let mut seven = [0u8; 7];
    assert!(rt; d.decode(&mut seven).err() == Some(Error::InvalidLength));
    assert!(rt; refuses_a_read(&mut d, &mut seven));
    assert!(rt; d.remaining_len() == 6);
    decodes(&rt, &mut d, &[1, 2, 3, 4, 5, 6]);
}

// A text, how many bytes are taken before its rest is appended, and the bytes of the rest or a refusal.
type Rest = (&'static str, usize, Result<&'static [u8], DecodeVecError>);

const RESTS: &[Rest] = &[
    ("AAAA\r\nAAAA\n", 0, Ok(&[0; 6])),
    ("AAAA\nAQID\nBA==\n", 4, Ok(&[2, 3, 4])),
    ("AQ*D\nBA==\n", 0, Err(DecodeVecError::InvalidEncoding)),
    (
        "AAAA\nAA*A\nAAAA\r\n",
        2,
        Err(DecodeVecError::InvalidEncoding),
    ),
];

// A decoder of a text of which the first `cut` bytes are taken.
fn taken<'a>(rt: &impl Abort, text: &'a str, cut: usize) -> Decoder<'a, Base64> {
    let mut room = [0u8; 8];
    assert!(rt; cut <= 8);
    let mut d = Decoder::<Base64>::new_wrapped(text.as_bytes(), 4).expect(rt, "made");
    d.decode(&mut room[..cut]).expect(rt, "the front");
    d
}

// The rest of a text stands behind a seven.
fn follow(rt: &impl Abort, v: &[u8], bytes: &[u8]) {
    assert!(rt; v.starts_with(&[7]));
    assert!(rt; v.len() == 1 + bytes.len());
    assert!(rt; v.ends_with(bytes));
}

// How many bytes are left after this answer, and the bytes that it appends.
fn appended(row: &Rest, left: usize) -> (usize, &'static [u8]) {
    match row.2 {
        Ok(bytes) => (0, bytes),
        Err(_) => (left, &[]),
    }
}

// Whether the rest of a text has these bytes or this refusal.
fn is_rest(answer: Result<&[u8], DecodeVecError>, row: &Rest) -> bool {
    match (answer, row.2) {
        (Ok(found), Ok(bytes)) => found == bytes,
        (Err(found), Err(error)) => found == error,
        _ => false,
    }
}

// Appends the rest of a text to a vector.
fn rest_of(rt: &impl Abort, row: &Rest, v: &mut Vec<u8>) {
    let mut d = taken(rt, row.0, row.1);
    let (left, bytes) = appended(row, d.remaining_len());
    let is_wanted = is_rest(d.decode_to_end(v), row);
    assert!(rt; is_wanted, "{}", row.0);
    assert!(rt; d.remaining_len() == left, "{}", row.0);
    follow(rt, v, bytes);
}

#[test]
fn decoders_end(rt: HostRuntime) {
    for row in RESTS {
        let mut v = vec![in rt.alloc(); 7u8; 1].expect(&rt, "want of memory");
        rest_of(&rt, row, &mut v);
    }
}

// RFC 4648, table 1.
const CHARACTERS: [u8; 64] = *b"ABCDEFGHIJKLMNOPQRSTUVWXYZabcdefghijklmnopqrstuvwxyz0123456789+/";

// The character at place `i` of the padded encoding of `bytes`, taken bit by bit.
fn character_at(bytes: &[u8], i: usize) -> u8 {
    let first = 6 * (i % 10_000);
    if first / 8 >= bytes.len() {
        return b'=';
    }
    let mut value = 0u8;
    for bit in first..first + 6 {
        let set = if bit / 8 < bytes.len() {
            (bytes[bit / 8] >> (7 - bit % 8)) & 1
        } else {
            0
        };
        value = (value << 1) | set;
    }
    CHARACTERS[(value % 64) as usize]
}

// Puts `c` at `at`, and gives the place behind it.
fn put_at<R: Abort>(rt: &R, out: &mut [u8], at: usize, c: u8) -> usize {
    assert!(rt; at < out.len());
    out[at] = c;
    at + 1
}

// The encoding of `bytes` in lines, character by character, and its length.
fn write_lines<R: Abort>(
    rt: &R,
    bytes: &[u8],
    width: usize,
    ending: &[u8],
    out: &mut [u8],
) -> usize {
    assert!(rt; width >= 4 && bytes.len() <= 6_000);
    let mut at = 0;
    for i in 0..(bytes.len() + 2) / 3 * 4 {
        if i > 0 && i % width == 0 {
            for c in ending {
                at = put_at(rt, out, at, *c);
            }
        }
        at = put_at(rt, out, at, character_at(bytes, i));
    }
    at
}

// An encoder fed in two pieces writes `text`.
fn feed_two<R: Abort>(
    rt: &R,
    bytes: &[u8],
    cut: usize,
    width: usize,
    ending: LineEnding,
    text: &[u8],
) {
    assert!(rt; cut <= bytes.len());
    let mut room = [0u8; 200];
    let mut e = Encoder::<Base64>::new_wrapped(&mut room, width, ending).expect(rt, "made");
    assert!(rt; e.encode(&bytes[..cut]).is_ok());
    assert!(rt; e.encode(&bytes[cut..]).is_ok());
    let written = e.finish().expect(rt, "fits");
    assert!(rt; written.as_bytes() == text);
}

// A decoder of `text` read in two pieces gives `bytes`.
fn read_two(rt: &impl Abort, bytes: &[u8], cut: usize, width: usize, text: &[u8]) {
    assert!(rt; cut <= bytes.len());
    let mut d = Decoder::<Base64>::new_wrapped(text, width).expect(rt, "made");
    decodes(rt, &mut d, &bytes[..cut]);
    assert!(rt; d.remaining_len() == bytes.len() - cut);
    decodes(rt, &mut d, &bytes[cut..]);
    assert!(rt; d.is_finished());
}

// Feeds and reads in each pair of pieces.
fn cut_everywhere<R: Abort>(rt: &R, bytes: &[u8], width: usize, ending: LineEnding) {
    let mut room = [0u8; 200];
    let len = write_lines(rt, bytes, width, ending.as_bytes(), &mut room);
    assert!(rt; len <= 200);
    let text = &room[..len];
    for cut in 0..bytes.len() + 1 {
        feed_two(rt, bytes, cut, width, ending, text);
        if text.is_empty() {
            assert!(rt;
                Decoder::<Base64>::new_wrapped(text, width).err() == Some(Error::InvalidLength)
            );
        } else {
            read_two(rt, bytes, cut, width, text);
        }
    }
}

#[test]
fn texts_cut_at_every_place(rt: HostRuntime) {
    let mut bytes = [0u8; 50];
    for i in 0..50 {
        bytes[i] = (i * 91 % 256) as u8;
    }
    for n in 0..50 {
        let ending = match n % 3 {
            0 => LineEnding::CR,
            1 => LineEnding::LF,
            _ => LineEnding::CRLF,
        };
        cut_everywhere(&rt, &bytes[n / 4..n], 4 + n % 17, ending);
    }
}

// An encoder of `text` that is fed `step` bytes a call.
fn fed_in_steps<R: Abort>(
    rt: &R,
    bytes: &[u8],
    width: usize,
    ending: LineEnding,
    step: usize,
    text: &[u8],
    room: &mut [u8],
) {
    assert!(rt; step > 0);
    let mut e = Encoder::<Base64>::new_wrapped(room, width, ending).expect(rt, "made");
    for part in bytes.chunks(step) {
        assert!(rt; e.encode(part).is_ok());
    }
    assert!(rt; e.finish().expect(rt, "fits").as_bytes() == text);
}

// A decoder of `text` of which `step` bytes are asked a call.
fn read_in_steps<R: Abort>(
    rt: &R,
    bytes: &[u8],
    width: usize,
    step: usize,
    text: &[u8],
    room: &mut [u8],
) {
    assert!(rt; step > 0);
    let mut d = Decoder::<Base64>::new_wrapped(text, width).expect(rt, "made");
    for part in bytes.chunks(step) {
        assert!(rt; part.len() <= room.len());
        assert!(rt; d.decode(&mut room[..part.len()]).expect(rt, "a part") == part);
    }
    assert!(rt; d.is_finished());
}

// A text with one character outside the alphabet before its last block is refused, and the vector is as it was.
fn refused_whole<R: Abort>(rt: &R, alloc: Global, text: &[u8], width: usize) {
    let mut v: Vec<u8> = Vec::new(alloc);
    match Decoder::<Base64>::new_wrapped(text, width) {
        Ok(mut d) => assert!(rt;
            d.decode_to_end(&mut v).err() == Some(DecodeVecError::InvalidEncoding)
        ),
        Err(e) => assert!(rt; e == Error::InvalidEncoding),
    }
    assert!(rt; v.is_empty());
}

// How many bytes, the width and the ending of lines, how many bytes a call, and the place of a bad character.
const LONG_TEXTS: &[Long] = &[
    (600, 4, LineEnding::LF, 193, 0),
    (601, 64, LineEnding::CRLF, 600, 3),
    (1_000, 65, LineEnding::CR, 257, 700),
    (2_000, 76, LineEnding::CRLF, 1_999, 1_000),
    (2_999, 77, LineEnding::LF, 500, 77),
    (3_000, 1_000, LineEnding::CR, 1_500, 1_000),
    (4_001, 7, LineEnding::CRLF, 4_000, 4_444),
    (5_000, 4_096, LineEnding::LF, 3_333, 5_000),
    (5_999, 5, LineEnding::CR, 256, 7_000),
    (6_000, 100_000, LineEnding::LF, 4_000, 7_990),
];

// The first `len` bytes, which are all there.
fn front<'a, R: Abort>(rt: &R, bytes: &'a [u8], len: usize) -> &'a [u8] {
    assert!(rt; len <= bytes.len());
    &bytes[..len]
}

// Bytes that come again only after 251.
fn fill_counting(bytes: &mut [u8]) {
    for i in 0..bytes.len() {
        bytes[i] = (i % 251) as u8;
    }
}

type Long = (usize, usize, LineEnding, usize, usize);

// One row of `LONG_TEXTS`, with room for a text and for what is read and written.
fn long_text(rt: &impl Abort, row: &Long, all: &[u8], text: &mut [u8], room: &mut [u8]) -> usize {
    let (count, width, ending, step, bad) = *row;
    let bytes = front(rt, all, count);
    let len = write_lines(rt, bytes, width, ending.as_bytes(), text);
    let written = front(rt, text, len);
    fed_in_steps(rt, bytes, width, ending, step, written, room);
    read_in_steps(rt, bytes, width, step, written, room);
    put_at(rt, text, bad, b'*');
    len
}

#[test]
fn long_texts(rt: HostRuntime) {
    let mut all = [0u8; 6_000];
    fill_counting(&mut all);
    let mut text = [0u8; 12_000];
    let mut room = [0u8; 12_000];
    for row in LONG_TEXTS {
        let len = long_text(&rt, row, &all, &mut text, &mut room);
        refused_whole(&rt, rt.alloc(), front(&rt, &text, len), row.1);
    }
}

#[test]
fn laws_of_runs() {
    base64ct::laws::encoded_in_parts();
    base64ct::laws::opened_in_lines::<Base64>();
    base64ct::laws::decoded_in_parts::<Base64>();
    base64ct::laws::decoded_to_end::<Base64>();
    base64ct::laws::decoding_tells();
}
