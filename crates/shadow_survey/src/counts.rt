//! How many texts there are of each kind.

ghost use Rattle.std.specs.Prelude.{◌≡◌, ◌≤◌, ◌++◌, ◌∷◌, [], decimal, length};
ghost use Rattle.std.specs.List.{flat_map};
ghost use Rattle.line_io.specs.Output.{Puts};
ghost use Rattle.scheme_list.specs.Schemes.{schemes};
ghost use Rattle.shadow_survey.specs.Counting.{count_of, counted, form_row, kind_name, kind_of, no_counts, other_rows, scheme_rows, total_row, totals};
ghost use Rattle.shadow_survey.specs.Unsupported.{forms};

use crate::judgement::Judgement;
use crate::unsupported::{FORM_COUNT, UnsupportedForm};
use any_check::Scheme;
use line_io::{OutputBuffer, Sink};
use pieces::short_bytes::ShortBytes;
use scheme_list::SCHEME_COUNT;

/// What a text is counted as: the judgement without its costs and without what is weak.
#[derive(Clone, Copy, Debug, PartialEq, Eq)]
pub enum Kind {
    Strong(Scheme),
    Weak(Scheme),
    Empty,
    Locked,
    Unsupported(UnsupportedForm),
    Invalid,
    BadLine,
    TooLong,
}

/// How many there are of each kind; a count stays at the greatest number of its type.
#[derive(Clone, Copy)]
pub struct Counts {
    /// By the places of the schemes.
    pub strong: [u64; SCHEME_COUNT],
    pub weak: [u64; SCHEME_COUNT],
    pub empty: u64,
    pub locked: u64,
    /// By the places of the forms.
    pub unsupported: [u64; FORM_COUNT],
    pub invalid: u64,
    pub bad_line: u64,
    pub too_long: u64,
}

impl Judgement {
    /// The kind.
    pub fn kind(&self) -> Kind
        ensures kind { result ≡ kind_of self.now }
    {
        match self {
            Judgement::Strong(text) => Kind::Strong(text.scheme),
            Judgement::Weak(text, _) => Kind::Weak(text.scheme),
            Judgement::Empty => Kind::Empty,
            Judgement::Locked => Kind::Locked,
            Judgement::Unsupported(form) => Kind::Unsupported(*form),
            Judgement::Invalid => Kind::Invalid,
            Judgement::BadLine => Kind::BadLine,
            Judgement::TooLong => Kind::TooLong,
        }
    }
}

impl Kind {
    // The name, in two parts.
    fn words(self) -> (&'static str, &'static str)
        ensures { result.0.now ++ result.1.now ≡ kind_name self }
    {
        match self {
            Kind::Strong(scheme) => (scheme.name(), " ok"),
            Kind::Weak(scheme) => (scheme.name(), " weak"),
            Kind::Empty => ("empty", ""),
            Kind::Locked => ("locked", ""),
            Kind::Unsupported(form) => ("unsupported: ", form.name()),
            Kind::Invalid => ("invalid", ""),
            Kind::BadLine => ("badline", ""),
            Kind::TooLong => ("toolong", ""),
        }
    }
}

impl Counts {
    /// Nothing is counted.
    pub fn new() -> Counts
        ensures none { result ≡ no_counts }
    {
        Counts {
            strong: [0; SCHEME_COUNT],
            weak: [0; SCHEME_COUNT],
            empty: 0,
            locked: 0,
            unsupported: [0; FORM_COUNT],
            invalid: 0,
            bad_line: 0,
            too_long: 0,
        }
    }

    /// How many there are of a kind.
    pub fn of(&self, kind: Kind) -> u64
        ensures count { result ≡ count_of self.now kind }
    {
        match kind {
            Kind::Strong(scheme) => self.strong[scheme.place()],
            Kind::Weak(scheme) => self.weak[scheme.place()],
            Kind::Empty => self.empty,
            Kind::Locked => self.locked,
            Kind::Unsupported(form) => self.unsupported[form.place()],
            Kind::Invalid => self.invalid,
            Kind::BadLine => self.bad_line,
            Kind::TooLong => self.too_long,
        }
    }

    /// Counts one more of a kind.
    pub fn count(&mut self, kind: Kind)
        ensures count { self.new ≡ counted self.old kind }
    {
        match kind {
            Kind::Strong(scheme) => {
                let place = scheme.place();
                self.strong[place] = self.strong[place].saturating_add(1);
            }
            Kind::Weak(scheme) => {
                let place = scheme.place();
                self.weak[place] = self.weak[place].saturating_add(1);
            }
            Kind::Empty => self.empty = self.empty.saturating_add(1),
            Kind::Locked => self.locked = self.locked.saturating_add(1),
            Kind::Unsupported(form) => {
                let place = form.place();
                self.unsupported[place] = self.unsupported[place].saturating_add(1);
            }
            Kind::Invalid => self.invalid = self.invalid.saturating_add(1),
            Kind::BadLine => self.bad_line = self.bad_line.saturating_add(1),
            Kind::TooLong => self.too_long = self.too_long.saturating_add(1),
        }
    }
}

// A number, which has at most 20 digits.
fn number_text(n: u64) -> ShortBytes<20>
    ensures { result ≡ decimal n }
{
    let mut text = ShortBytes::new();
    text.push_decimal(n);
    text
}

// Puts a count and the name of its kind.
fn put_count<K: Sink>(count: u64, kind: Kind, out: &mut OutputBuffer, sink: &mut K)
    ensures puts { Puts (K.written sink.old) (K.written sink.new) (K.faults sink.old) (K.faults sink.new) out.old out.new
        (decimal count ++ 9 ∷ (kind_name kind ++ 10 ∷ [])) }
{
    let (name, what) = kind.words();
    out.put(sink, number_text(count).as_slice());
    out.put(sink, b"\t");
    out.put(sink, name.as_bytes());
    out.put_line(sink, what.as_bytes());
}

// Puts the count of a kind, where there is one of it.
fn put_total<K: Sink>(counts: &Counts, kind: Kind, out: &mut OutputBuffer, sink: &mut K)
    ensures puts { Puts (K.written sink.old) (K.written sink.new) (K.faults sink.old) (K.faults sink.new) out.old out.new
        (total_row counts.now kind) }
{
    let count = counts.of(kind);
    if count != 0 {
        put_count(count, kind, out, sink);
    }
}

// Puts the counts of a scheme.
fn put_scheme<K: Sink>(counts: &Counts, scheme: Scheme, out: &mut OutputBuffer, sink: &mut K)
    ensures puts { Puts (K.written sink.old) (K.written sink.new) (K.faults sink.old) (K.faults sink.new) out.old out.new
        (scheme_rows counts.now scheme) }
{
    put_total(counts, Kind::Strong(scheme), out, sink);
    put_total(counts, Kind::Weak(scheme), out, sink);
}

// Puts those of all schemes.
fn put_schemes<K: Sink>(counts: &Counts, out: &mut OutputBuffer, sink: &mut K)
    ensures puts { Puts (K.written sink.old) (K.written sink.new) (K.faults sink.old) (K.faults sink.new) out.old out.new
        (flat_map (scheme_rows counts.now) schemes) }
{
    for place in 0..SCHEME_COUNT {
        put_scheme(counts, Scheme::at(place), out, sink);
    }
}

// Puts the counts of all unsupported forms.
fn put_forms<K: Sink>(counts: &Counts, out: &mut OutputBuffer, sink: &mut K)
    ensures puts { Puts (K.written sink.old) (K.written sink.new) (K.faults sink.old) (K.faults sink.new) out.old out.new
        (flat_map (form_row counts.now) forms) }
{
    for place in 0..FORM_COUNT {
        put_total(
            counts,
            Kind::Unsupported(UnsupportedForm::at(place)),
            out,
            sink,
        );
    }
}

// Puts the counts of texts and lines that have no scheme.
fn put_others<K: Sink>(counts: &Counts, out: &mut OutputBuffer, sink: &mut K)
    ensures puts { Puts (K.written sink.old) (K.written sink.new) (K.faults sink.old) (K.faults sink.new) out.old out.new
        (other_rows counts.now) }
{
    put_total(counts, Kind::Empty, out, sink);
    put_total(counts, Kind::Locked, out, sink);
    put_total(counts, Kind::Invalid, out, sink);
    put_total(counts, Kind::BadLine, out, sink);
    put_total(counts, Kind::TooLong, out, sink);
}

/// Puts the counts.
pub(crate) fn put_totals<K: Sink>(counts: &Counts, out: &mut OutputBuffer, sink: &mut K)
    ensures puts { Puts (K.written sink.old) (K.written sink.new) (K.faults sink.old) (K.faults sink.new) out.old out.new
        (totals counts.now) }
{
    put_schemes(counts, out, sink);
    put_forms(counts, out, sink);
    put_others(counts, out, sink);
}
