//! The words of the command line.

ghost use Rattle.std.specs.Prelude.{◌≡◌, ◌≤◌, ◌++◌, ◌≢◌, ◌↔◌, ℕ, [], ◌∷◌, IsTrue, MatchOption, OnErr, OnOk, Some, length, slice_get};
ghost use Rattle.std.specs.Fmt.{decimal};
ghost use Rattle.pwcheck_run.specs.Words.{IsBench, IsNumbered, IsUnwrap, IsWrap, check, check_count, normalize};

use pieces::short_bytes::ShortBytes;
use std::alloc::{AllocError, Global};
use std::marker::Model;

/// The words of the command line without the program's name. Contracts see the list of their texts.
#[derive(Drop)]
pub struct Words {
    list: Vec<String>,
    alloc: Global,
}

impl Model for Words {
    ghost use Rattle.std.specs.Prelude.{List, map, string_bytes, ℕ};

    ghost Value = { List (List ℕ) };

    ghost view = { λ w. map string_bytes w.list.items };
}

impl Words {
    /// No words.
    pub fn new(alloc: Global) -> Words
        ensures none { result ≡ [] }
    {
        Words {
            list: Vec::new(alloc),
            alloc,
        }
    }

    /// Adds a word behind the others.
    pub fn push(&mut self, word: &str) -> Result<(), AllocError>
        ensures added { OnOk result (self.new ≡ self.old ++ word.now ∷ []) }
        ensures unchanged { OnErr result (self.new ≡ self.old) }
    {
        let word = String::from_str(self.alloc, word)?;
        self.list.push(word)?;
        Ok(())
    }

    /// How many words there are.
    pub fn len(&self) -> usize
        ensures count { result ≡ length self.now }
    {
        self.list.len()
    }

    /// The word at place `i`, from 0.
    pub fn get(&self, i: usize) -> Option<&str>
        ensures word { MatchOption result (length self.now ≤ i) (λ word. slice_get self.now i ≡ Some word.now) }
    {
        match self.list.get(i) {
            Some(word) => Some(word.as_str()),
            None => None,
        }
    }

    // Whether the words are this single word.
    fn is_single(&self, verb: &str) -> bool
        ensures { IsTrue result ↔ (self.now ≡ verb.now ∷ []) }
    {
        match self.list.as_slice() {
            [word] => word.as_str() == verb,
            _ => false,
        }
    }

    /// Whether the words are the single word `check`.
    pub(crate) fn is_check(&self) -> bool
        ensures check { IsTrue result ↔ (self.now ≡ check) }
    {
        self.is_single("check")
    }

    /// Whether the words are `check` and `--count`.
    pub(crate) fn is_check_count(&self) -> bool
        ensures check_count { IsTrue result ↔ (self.now ≡ check_count) }
    {
        match self.list.as_slice() {
            [first, second] => first.as_str() == "check" && second.as_str() == "--count",
            _ => false,
        }
    }

    /// Whether the words are the single word `normalize`.
    pub(crate) fn is_normalize(&self) -> bool
        ensures normalize { IsTrue result ↔ (self.now ≡ normalize) }
    {
        self.is_single("normalize")
    }

    /// The number of lines, where the words are `bench` and a number of lines.
    pub(crate) fn bench_lines(&self) -> Option<u64>
        ensures lines { MatchOption result ((n : ℕ) → IsBench n self.now → ⊥) (λ n. IsBench n self.now) }
    {
        self.number_behind("bench", 1, LINES_MAX)
    }

    /// The width, where the words are `wrap` and a width.
    pub(crate) fn wrap_width(&self) -> Option<u64>
        ensures width { MatchOption result ((w : ℕ) → IsWrap w self.now → ⊥) (λ w. IsWrap w self.now) }
    {
        self.number_behind("wrap", WIDTH_MIN, WIDTH_MAX)
    }

    /// The width, where the words are `unwrap` and a width.
    pub(crate) fn unwrap_width(&self) -> Option<u64>
        ensures width { MatchOption result ((w : ℕ) → IsUnwrap w self.now → ⊥) (λ w. IsUnwrap w self.now) }
    {
        self.number_behind("unwrap", WIDTH_MIN, WIDTH_MAX)
    }

    // The number, where the words are a verb and a number from `least` to `most`.
    fn number_behind(&self, verb: &str, least: u64, most: u64) -> Option<u64>
        ensures { MatchOption result ((n : ℕ) → IsNumbered verb.now least most n self.now → ⊥)
            (λ n. IsNumbered verb.now least most n self.now) }
    {
        match self.list.as_slice() {
            [first, second] => number_of_words(first.as_str(), second.as_str(), verb, least, most),
            _ => None,
        }
    }
}

/// The most lines of `bench`.
const LINES_MAX: u64 = 2_000;

/// The least width of a line.
const WIDTH_MIN: u64 = 4;

/// The greatest width of a line.
const WIDTH_MAX: u64 = 65_536;

// The number, where two words are a verb and a number from `least` to `most`.
fn number_of_words(first: &str, second: &str, verb: &str, least: u64, most: u64) -> Option<u64>
    ensures { MatchOption result
        ((n : ℕ) → least ≤ n → n ≤ most → first.now ≡ verb.now → second.now ≡ decimal n → ⊥)
        (λ n. (least ≤ n) × (n ≤ most) × (first.now ≡ verb.now) × (second.now ≡ decimal n)) }
{
    if first != verb {
        return None;
    }
    number_of(second, least, most)
}

// The number that a word is, from `least` to `most` and written without a leading zero.
fn number_of(word: &str, least: u64, most: u64) -> Option<u64>
    ensures { MatchOption result
        ((n : ℕ) → least ≤ n → n ≤ most → word.now ≢ decimal n)
        (λ n. (least ≤ n) × (n ≤ most) × (word.now ≡ decimal n)) }
{
    match word.parse::<u64>() {
        Ok(n) => {
            if n < least || n > most || !is_decimal(word, n) {
                return None;
            }
            Some(n)
        }
        Err(_) => None,
    }
}

// Whether a word is how a number is written.
fn is_decimal(word: &str, n: u64) -> bool
    ensures { IsTrue result ↔ (word.now ≡ decimal n) }
{
    let mut digits: ShortBytes<20> = ShortBytes::new();
    digits.push_decimal(n);
    digits.as_slice() == word.as_bytes()
}
