//! The rounds.

ghost use Rattle.std.specs.Prelude.{◌≡◌, ℕ, ◌%◌, ◌==◌, ◌<◌, ◌≤◌, if◌then◌else◌, List, [], ◌++◌};
ghost use Rattle.md5.specs.Md5.{Holds, md5};
ghost use Rattle.sha_crypt.specs.Digest.{after_rounds, round_message};
ghost use Rattle.sha_crypt.specs.Fronts.{AreFronts, front};

use md5::{Digest, Md5};

// The rounds of a turn: after as many the pieces of the messages come again in the same order.
const TURN_LEN: usize = 42;

// What stands before the digest in the odd rounds 1, 3, 7 and 21, each in a hasher. Each other odd round has the
// front of one of these: it depends on whether 3 and 7 divide the round's number.
#[derive(Drop)]
struct Fronts {
    one: Md5,
    three: Md5,
    seven: Md5,
    twenty_one: Md5,
}

// Feeds what stands between the first piece and the last of round `i`.
fn feed_middle(hasher: &mut Md5, i: usize, password: &[u8], salt: &[u8])
    ensures { (m : List ℕ) → Holds hasher.old m
        → Holds hasher.new (m ++ (if i % 3 == 0 then [] else salt.now) ++ (if i % 7 == 0 then [] else password.now)) }
{
    if i % 3 != 0 {
        hasher.update(salt);
    }
    if i % 7 != 0 {
        hasher.update(password);
    }
}

// A hasher of what stands before the digest in the odd round `i`.
fn front(i: usize, password: &[u8], salt: &[u8]) -> Md5
    ensures { Holds result (front i password.now salt.now) }
{
    let mut hasher = Md5::new();
    hasher.update(password);
    feed_middle(&mut hasher, i, password, salt);
    hasher
}

// The hashers of the fronts.
fn fronts_of(password: &[u8], salt: &[u8]) -> Fronts
    ensures { AreFronts (Holds result.one) (Holds result.three) (Holds result.seven) (Holds result.twenty_one)
        password.now salt.now }
{
    Fronts {
        one: front(1, password, salt),
        three: front(3, password, salt),
        seven: front(7, password, salt),
        twenty_one: front(21, password, salt),
    }
}

// The front of the odd round `i`.
fn front_of_round(fronts: &Fronts, i: usize) -> &Md5
    ensures { (p s : List ℕ)
        → AreFronts (Holds fronts.now.one) (Holds fronts.now.three) (Holds fronts.now.seven)
        (Holds fronts.now.twenty_one) p s
        → Holds result.now (front i p s) }
{
    match (i % 3 == 0, i % 7 == 0) {
        (false, false) => &fronts.one,
        (true, false) => &fronts.three,
        (false, true) => &fronts.seven,
        (true, true) => &fronts.twenty_one,
    }
}

// An even round.
fn even_round(i: usize, c: &[u8; 16], password: &[u8], salt: &[u8]) -> [u8; 16]
    requires even { i % 2 ≡ 0 }
    ensures { result ≡ md5 (round_message i c.now password.now salt.now) }
{
    let mut hasher = Md5::new();
    hasher.update(c);
    feed_middle(&mut hasher, i, password, salt);
    hasher.update(password);
    hasher.finalize()
}

// An odd round.
fn odd_round(i: usize, c: &[u8; 16], fronts: &Fronts) -> [u8; 16]
    requires odd { i % 2 ≡ 1 }
    ensures { (p s : List ℕ)
        → AreFronts (Holds fronts.now.one) (Holds fronts.now.three) (Holds fronts.now.seven)
        (Holds fronts.now.twenty_one) p s
        → result ≡ md5 (round_message i c.now p s) }
{
    let mut hasher = front_of_round(fronts, i).clone().unwrap();
    hasher.update(c);
    hasher.finalize()
}

// One round.
fn round(i: usize, c: &[u8; 16], fronts: &Fronts, password: &[u8], salt: &[u8]) -> [u8; 16]
    requires fronts { AreFronts (Holds fronts.now.one) (Holds fronts.now.three) (Holds fronts.now.seven)
        (Holds fronts.now.twenty_one) password.now salt.now }
    ensures { result ≡ md5 (round_message i c.now password.now salt.now) }
{
    if i % 2 == 0 {
        even_round(i, c, password, salt)
    } else {
        odd_round(i, c, fronts)
    }
}

// The digest after round `end - 1`, from the digest `before` round `first`.
fn turn(
    first: usize,
    end: usize,
    before: &[u8; 16],
    fronts: &Fronts,
    password: &[u8],
    salt: &[u8],
) -> [u8; 16]
    requires order { first ≤ end }
    requires fronts { AreFronts (Holds fronts.now.one) (Holds fronts.now.three) (Holds fronts.now.seven)
        (Holds fronts.now.twenty_one) password.now salt.now }
    ensures { (a : List ℕ) → before.now ≡ after_rounds md5 a password.now salt.now first
        → result ≡ after_rounds md5 a password.now salt.now end }
{
    let mut c = *before;
    'rounds: for i in first..end {
        c = round(i, &c, fronts, password, salt);
    }
    c
}

/// The digest after `rounds` rounds that begin with `a`, turn by turn.
///
/// With two loops, in a function that isn't laid out in its caller, LLVM lays the hasher's calls out in place. With
/// one, the rounds take 4 to 12 hundredths longer.
#[inline(never)]
pub(crate) fn after_rounds(a: &[u8; 16], password: &[u8], salt: &[u8], rounds: usize) -> [u8; 16]
    ensures { result ≡ after_rounds md5 a.now password.now salt.now rounds }
{
    let fronts = fronts_of(password, salt);
    let mut c = *a;
    let mut done = 0;
    'turns: while done < rounds {
        let end = if rounds - done > TURN_LEN {
            done + TURN_LEN
        } else {
            rounds
        };
        c = turn(done, end, &c, &fronts, password, salt);
        done = end;
    }
    c
}
