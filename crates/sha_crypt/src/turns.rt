//! The rounds, under any hash function.

ghost use Rattle.std.specs.Prelude.{◌≡◌, ℕ, ◌%◌, ◌==◌, ◌<◌, ◌≤◌, if◌then◌else◌, List, [], ◌++◌};
ghost use Rattle.sha_crypt.specs.Digest.{after_rounds, repeated_to, round_message};
ghost use Rattle.sha_crypt.specs.Fronts.{AreFronts, front};

use crate::digest::feed_repeated;
use crate::hasher::Hasher;

// The rounds of a turn: after as many the pieces of the messages come again in the same order.
const TURN_LEN: usize = 42;

// What stands before the digest in the odd rounds 1, 3, 7 and 21, each in a hasher. Each other odd round has the
// front of one of these: it depends on whether 3 and 7 divide the round's number.
#[derive(Drop)]
struct Fronts<H> {
    one: H,
    three: H,
    seven: H,
    twenty_one: H,
}

// Feeds what stands between the first piece and the last of round `i`.
fn feed_middle<const N: usize, H: Hasher<N>>(
    hasher: &mut H,
    i: usize,
    dp: &[u8; N],
    password_len: usize,
    ds: &[u8],
)
    requires { 0 < N }
    ensures { (m : List ℕ) → H.holds hasher.old m
        → H.holds hasher.new (m ++ (if i % 3 == 0 then [] else ds.now)
        ++ (if i % 7 == 0 then [] else repeated_to password_len dp.now)) }
{
    if i % 3 != 0 {
        hasher.feed(ds);
    }
    if i % 7 != 0 {
        feed_repeated(hasher, dp, password_len);
    }
}

// A hasher of what stands before the digest in the odd round `i`.
#[inline(never)]
fn front<const N: usize, H: Hasher<N>>(i: usize, dp: &[u8; N], password_len: usize, ds: &[u8]) -> H
    requires { 0 < N }
    ensures { H.holds result (front i (repeated_to password_len dp.now) ds.now) }
{
    let mut hasher = H::start();
    feed_repeated(&mut hasher, dp, password_len);
    feed_middle(&mut hasher, i, dp, password_len, ds);
    hasher
}

// The hashers of the fronts.
fn fronts_of<const N: usize, H: Hasher<N>>(
    dp: &[u8; N],
    password_len: usize,
    ds: &[u8],
) -> Fronts<H>
    requires { 0 < N }
    ensures { AreFronts (H.holds result.one) (H.holds result.three) (H.holds result.seven) (H.holds result.twenty_one)
        (repeated_to password_len dp.now) ds.now }
{
    Fronts {
        one: front::<N, H>(1, dp, password_len, ds),
        three: front::<N, H>(3, dp, password_len, ds),
        seven: front::<N, H>(7, dp, password_len, ds),
        twenty_one: front::<N, H>(21, dp, password_len, ds),
    }
}

// The front of the odd round `i`.
fn front_of_round<const N: usize, H: Hasher<N>>(fronts: &Fronts<H>, i: usize) -> &H
    ensures { (p s : List ℕ)
        → AreFronts (H.holds fronts.now.one) (H.holds fronts.now.three) (H.holds fronts.now.seven)
        (H.holds fronts.now.twenty_one) p s
        → H.holds result.now (front i p s) }
{
    match (i % 3 == 0, i % 7 == 0) {
        (false, false) => &fronts.one,
        (true, false) => &fronts.three,
        (false, true) => &fronts.seven,
        (true, true) => &fronts.twenty_one,
    }
}

// An even round.
fn even_round<const N: usize, H: Hasher<N>>(
    i: usize,
    c: &[u8; N],
    dp: &[u8; N],
    password_len: usize,
    ds: &[u8],
) -> [u8; N]
    requires some_bytes { 0 < N }
    requires even { i % 2 ≡ 0 }
    ensures { result ≡ H.hash (round_message i c.now (repeated_to password_len dp.now) ds.now) }
{
    let mut hasher = H::start();
    hasher.feed(c);
    feed_middle(&mut hasher, i, dp, password_len, ds);
    feed_repeated(&mut hasher, dp, password_len);
    hasher.finish()
}

// An odd round.
fn odd_round<const N: usize, H: Hasher<N>>(i: usize, c: &[u8; N], fronts: &Fronts<H>) -> [u8; N]
    requires odd { i % 2 ≡ 1 }
    ensures { (p s : List ℕ)
        → AreFronts (H.holds fronts.now.one) (H.holds fronts.now.three) (H.holds fronts.now.seven)
        (H.holds fronts.now.twenty_one) p s
        → result ≡ H.hash (round_message i c.now p s) }
{
    let mut hasher = front_of_round::<N, H>(fronts, i).copy();
    hasher.feed(c);
    hasher.finish()
}

// One round.
fn round<const N: usize, H: Hasher<N>>(
    i: usize,
    c: &[u8; N],
    fronts: &Fronts<H>,
    dp: &[u8; N],
    password_len: usize,
    ds: &[u8],
) -> [u8; N]
    requires some_bytes { 0 < N }
    requires fronts { AreFronts (H.holds fronts.now.one) (H.holds fronts.now.three) (H.holds fronts.now.seven)
        (H.holds fronts.now.twenty_one) (repeated_to password_len dp.now) ds.now }
    ensures { result ≡ H.hash (round_message i c.now (repeated_to password_len dp.now) ds.now) }
{
    if i % 2 == 0 {
        even_round::<N, H>(i, c, dp, password_len, ds)
    } else {
        odd_round::<N, H>(i, c, fronts)
    }
}

// The digest after round `end - 1`, from the digest `before` round `first`.
fn turn<const N: usize, H: Hasher<N>>(
    first: usize,
    end: usize,
    before: &[u8; N],
    fronts: &Fronts<H>,
    dp: &[u8; N],
    password_len: usize,
    ds: &[u8],
) -> [u8; N]
    requires some_bytes { 0 < N }
    requires order { first ≤ end }
    requires fronts { AreFronts (H.holds fronts.now.one) (H.holds fronts.now.three) (H.holds fronts.now.seven)
        (H.holds fronts.now.twenty_one) (repeated_to password_len dp.now) ds.now }
    ensures { (a : List ℕ) → before.now ≡ after_rounds H.hash a (repeated_to password_len dp.now) ds.now first
        → result ≡ after_rounds H.hash a (repeated_to password_len dp.now) ds.now end }
{
    let mut c = *before;
    'rounds: for i in first..end {
        c = round::<N, H>(i, &c, fronts, dp, password_len, ds);
    }
    c
}

/// The digest after `rounds` rounds that begin with `a`, turn by turn.
///
/// With two loops, in a function that isn't laid out in its caller, LLVM lays the hasher's calls out in place. With
/// one, the rounds take some hundredths longer.
#[inline(never)]
pub(crate) fn after_rounds<const N: usize, H: Hasher<N>>(
    a: &[u8; N],
    dp: &[u8; N],
    password_len: usize,
    ds: &[u8],
    rounds: usize,
) -> [u8; N]
    requires { 0 < N }
    ensures { result ≡ after_rounds H.hash a.now (repeated_to password_len dp.now) ds.now rounds }
{
    let fronts = fronts_of::<N, H>(dp, password_len, ds);
    let mut c = *a;
    let mut done = 0;
    'turns: while done < rounds {
        let end = if rounds - done > TURN_LEN {
            done + TURN_LEN
        } else {
            rounds
        };
        c = turn::<N, H>(done, end, &c, &fronts, dp, password_len, ds);
        done = end;
    }
    c
}
