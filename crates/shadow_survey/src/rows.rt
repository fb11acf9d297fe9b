//! A row of a survey, in each form.

ghost use Rattle.std.specs.Prelude.{◌≡◌, ◌<◌, ◌+◌, ◌*◌, ◌/◌, ◌%◌, ◌++◌, ◌∷◌, ◌≤◌, [], codes, length, true};
ghost use Rattle.std.specs.List.{list_all};
ghost use Rattle.line_io.specs.Output.{Puts};
ghost use Rattle.scheme_list.specs.Schemes.{row_of};
ghost use Rattle.shadow_survey.specs.Cells.{cost_cell, costs_in, judgement_cell, name_text, numbers_text, scheme_cell, weakness_text};
ghost use Rattle.shadow_survey.specs.Unsupported.{row};
ghost use Rattle.shadow_survey.specs.Rows.{apostrophe, control, counts_text, csv_row, front_text, header_text, hexadecimal, is_control, is_good, is_plain, json_row, plain, row_text, shown, shown_after, shown_text, tabs_row, weak_end};

use crate::cells::{Cell, Format, push_numbers, push_weakness, quoted_name};
use crate::counts::{Counts, put_totals};
use crate::judgement::Judgement;
use crate::least::Weakness;
use crate::unsupported::UnsupportedForm;
use any_check::{Scheme, TextCosts};
use line_io::{OutputBuffer, Sink};
use pieces::short_bytes::ShortBytes;

fn hexadecimal(n: u8) -> u8
    requires { n < 16 }
    ensures { result ≡ hexadecimal n }
{
    if n < 10 { 48 + n } else { 87 + n }
}

// An escaped character of a string of JSON.
fn escaped(c: u8) -> ShortBytes<6>
    ensures { result ≡ 92 ∷ 117 ∷ 48 ∷ 48 ∷ hexadecimal (c / 16) ∷ hexadecimal (c % 16) ∷ [] }
{
    ShortBytes::from_slice(&[
        b'\\',
        b'u',
        b'0',
        b'0',
        hexadecimal(c / 16),
        hexadecimal(c % 16),
    ])
}

// A control character.
fn control(format: Format, c: u8) -> ShortBytes<6>
    ensures { result ≡ control format c }
{
    match format {
        Format::Tabs | Format::Csv => ShortBytes::from_slice(b"?"),
        Format::Json => escaped(c),
    }
}

fn csv_byte(b: u8) -> ShortBytes<6>
    ensures { result ≡ plain Format.Csv b }
{
    if b == b'"' {
        ShortBytes::from_slice(b"\"\"")
    } else {
        ShortBytes::from_slice(&[b])
    }
}

fn json_byte(b: u8) -> ShortBytes<6>
    ensures { result ≡ plain Format.Json b }
{
    if b == b'"' {
        ShortBytes::from_slice(b"\\\"")
    } else if b == b'\\' {
        ShortBytes::from_slice(b"\\\\")
    } else {
        ShortBytes::from_slice(&[b])
    }
}

// Another byte.
fn plain(format: Format, b: u8) -> ShortBytes<6>
    ensures { result ≡ plain format b }
{
    match format {
        Format::Tabs => ShortBytes::from_slice(&[b]),
        Format::Csv => csv_byte(b),
        Format::Json => json_byte(b),
    }
}

fn is_control(b: u8) -> bool
    ensures { result ≡ is_control b }
{
    b < 32 || b == 127
}

// A byte after another.
fn shown(format: Format, before: u8, b: u8) -> ShortBytes<6>
    ensures { result ≡ shown format before b }
{
    if b == 194 {
        ShortBytes::new()
    } else if before == 194 {
        if b < 160 {
            control(format, b)
        } else {
            ShortBytes::from_slice(&[194, b])
        }
    } else if is_control(b) {
        control(format, b)
    } else {
        plain(format, b)
    }
}

// Puts a text byte by byte.
fn put_shown<K: Sink>(format: Format, text: &[u8], out: &mut OutputBuffer, sink: &mut K)
    ensures puts { Puts (K.written sink.old) (K.written sink.new) (K.faults sink.old) (K.faults sink.new) out.old out.new
        (shown_after format 0 text.now) }
{
    let mut before = 0;
    for i in 0..text.len() {
        let b = text[i];
        out.put(sink, shown(format, before, b).as_slice());
        before = b;
    }
}

// Which bytes each form shows as they are.
const PLAIN: [bool; 256] = [
    false, false, false, false, false, false, false, false, false, false, false, false, false,
    false, false, false, false, false, false, false, false, false, false, false, false, false,
    false, false, false, false, false, false, true, true, false, true, true, true, true, true,
    true, true, true, true, true, true, true, true, true, true, true, true, true, true, true, true,
    true, true, true, true, true, true, true, true, true, true, true, true, true, true, true, true,
    true, true, true, true, true, true, true, true, true, true, true, true, true, true, true, true,
    true, true, true, true, false, true, true, true, true, true, true, true, true, true, true,
    true, true, true, true, true, true, true, true, true, true, true, true, true, true, true, true,
    true, true, true, true, true, true, true, true, false, false, false, false, false, false,
    false, false, false, false, false, false, false, false, false, false, false, false, false,
    false, false, false, false, false, false, false, false, false, false, false, false, false,
    false, false, false, false, false, false, false, false, false, false, false, false, false,
    false, false, false, false, false, false, false, false, false, false, false, false, false,
    false, false, false, false, false, false, false, false, false, false, false, false, false,
    false, false, false, false, false, false, false, false, false, false, false, false, false,
    false, false, false, false, false, false, false, false, false, false, false, false, false,
    false, false, false, false, false, false, false, false, false, false, false, false, false,
    false, false, false, false, false, false, false, false, false, false, false, false, false,
    false, false, false, false, false, false,
];

/// Whether each form shows a byte as it is.
pub(crate) fn is_plain(b: u8) -> bool
    ensures { result ≡ is_plain b }
{
    PLAIN[b as usize]
}

/// Whether each form shows each byte as it is.
pub(crate) fn are_plain(text: &[u8]) -> bool
    ensures plain { result ≡ list_all is_plain text.now }
{
    text.iter().all(|b| is_plain(*b))
}

// Puts a text; at once where each byte is shown as it is.
fn put_text<K: Sink>(
    format: Format,
    text: &[u8],
    all_plain: bool,
    out: &mut OutputBuffer,
    sink: &mut K,
)
    requires plain { all_plain ≡ list_all is_plain text.now }
    ensures puts { Puts (K.written sink.old) (K.written sink.new) (K.faults sink.old) (K.faults sink.new) out.old out.new
        (shown_text format text.now) }
{
    if all_plain {
        out.put(sink, text);
    } else {
        put_shown(format, text, out, sink);
    }
}

// The apostrophe of a cell that a spreadsheet would run.
fn apostrophe(text: &[u8]) -> &'static [u8]
    ensures { result.now ≡ apostrophe text.now }
{
    match text.first() {
        Some(b) if *b == b'=' || *b == b'+' || *b == b'-' || *b == b'@' => b"'",
        _ => b"",
    }
}

// What is before the three cells of a judgement, between them, and after them.
#[derive(Clone, Copy)]
struct Marks<'a> {
    before: &'a [u8],
    scheme_end: &'a [u8],
    cost_end: &'a [u8],
    end: &'a [u8],
}

// Puts the name of a scheme.
fn put_name<K: Sink>(format: Format, scheme: Scheme, out: &mut OutputBuffer, sink: &mut K)
    ensures puts { Puts (K.written sink.old) (K.written sink.new) (K.faults sink.old) (K.faults sink.new) out.old out.new
        (name_text format (row_of scheme).name) }
{
    match format {
        Format::Tabs | Format::Csv => out.put(sink, scheme.name().as_bytes()),
        Format::Json => out.put(sink, quoted_name(scheme).as_slice()),
    }
}

// Puts the name of a judgement's scheme.
fn put_scheme<K: Sink>(format: Format, judgement: &Judgement, out: &mut OutputBuffer, sink: &mut K)
    ensures puts { Puts (K.written sink.old) (K.written sink.new) (K.faults sink.old) (K.faults sink.new) out.old out.new
        (scheme_cell format (costs_in judgement.now)) }
{
    match judgement {
        Judgement::Strong(text) => put_name(format, text.scheme, out, sink),
        Judgement::Weak(text, _) => put_name(format, text.scheme, out, sink),
        _ => out.put(sink, format.nothing()),
    }
}

// Puts the costs of a text by their names.
fn put_numbers<K: Sink>(format: Format, text: &TextCosts, out: &mut OutputBuffer, sink: &mut K)
    ensures puts { Puts (K.written sink.old) (K.written sink.new) (K.faults sink.old) (K.faults sink.new) out.old out.new
        (numbers_text format (row_of text.now.scheme).family text.now.costs) }
{
    let mut cell = Cell::new();
    push_numbers(&mut cell, format, text.scheme.family(), &text.costs);
    out.put(sink, cell.as_slice());
}

// Puts a judgement's costs.
fn put_costs<K: Sink>(format: Format, judgement: &Judgement, out: &mut OutputBuffer, sink: &mut K)
    ensures puts { Puts (K.written sink.old) (K.written sink.new) (K.faults sink.old) (K.faults sink.new) out.old out.new
        (cost_cell format (costs_in judgement.now)) }
{
    match judgement {
        Judgement::Strong(text) => put_numbers(format, text, out, sink),
        Judgement::Weak(text, _) => put_numbers(format, text, out, sink),
        _ => out.put(sink, format.nothing()),
    }
}

// Puts the name of a form without a verdict.
fn put_unsupported<K: Sink>(form: UnsupportedForm, out: &mut OutputBuffer, sink: &mut K)
    ensures puts { Puts (K.written sink.old) (K.written sink.new) (K.faults sink.old) (K.faults sink.new) out.old out.new
        (codes "unsupported: " ++ (row form).name) }
{
    out.put(sink, b"unsupported: ");
    out.put(sink, form.name().as_bytes());
}

// Puts what is weak of a text.
fn put_weakness<K: Sink>(what: Weakness, text: &TextCosts, out: &mut OutputBuffer, sink: &mut K)
    ensures puts { Puts (K.written sink.old) (K.written sink.new) (K.faults sink.old) (K.faults sink.new) out.old out.new
        (weakness_text what text.now) }
{
    let mut cell = Cell::new();
    push_weakness(&mut cell, what, text);
    out.put(sink, cell.as_slice());
}

// Puts a judgement in words.
fn put_words<K: Sink>(judgement: &Judgement, out: &mut OutputBuffer, sink: &mut K)
    ensures puts { Puts (K.written sink.old) (K.written sink.new) (K.faults sink.old) (K.faults sink.new) out.old out.new
        (judgement_cell judgement.now) }
{
    match judgement {
        Judgement::TooLong => out.put(sink, b"toolong"),
        Judgement::BadLine => out.put(sink, b"badline"),
        Judgement::Empty => out.put(sink, b"empty"),
        Judgement::Locked => out.put(sink, b"locked"),
        Judgement::Unsupported(form) => put_unsupported(*form, out, sink),
        Judgement::Invalid => out.put(sink, b"invalid"),
        Judgement::Strong(_) => out.put(sink, b"ok"),
        Judgement::Weak(text, what) => put_weakness(*what, text, out, sink),
    }
}

// Puts a judgement's scheme, costs and words with these marks.
#[inline(always)]
fn put_cells<K: Sink>(
    format: Format,
    marks: &Marks<'_>,
    judgement: &Judgement,
    out: &mut OutputBuffer,
    sink: &mut K,
)
    ensures puts { Puts (K.written sink.old) (K.written sink.new) (K.faults sink.old) (K.faults sink.new) out.old out.new
        (marks.now.before.now ++ (scheme_cell format (costs_in judgement.now) ++ (marks.now.scheme_end.now
        ++ (cost_cell format (costs_in judgement.now) ++ (marks.now.cost_end.now ++ (judgement_cell judgement.now
        ++ marks.now.end.now)))))) }
{
    out.put(sink, marks.before);
    put_scheme(format, judgement, out, sink);
    out.put(sink, marks.scheme_end);
    put_costs(format, judgement, out, sink);
    out.put(sink, marks.cost_end);
    put_words(judgement, out, sink);
    out.put(sink, marks.end);
}

fn put_tabs_row<K: Sink>(
    user: &[u8],
    all_plain: bool,
    judgement: &Judgement,
    out: &mut OutputBuffer,
    sink: &mut K,
)
    requires plain { all_plain ≡ list_all is_plain user.now }
    ensures puts { Puts (K.written sink.old) (K.written sink.new) (K.faults sink.old) (K.faults sink.new) out.old out.new
        (tabs_row user.now judgement.now) }
{
    let marks = Marks {
        before: b"\t",
        scheme_end: b"\t",
        cost_end: b"\t",
        end: b"\n",
    };
    put_text(Format::Tabs, user, all_plain, out, sink);
    put_cells(Format::Tabs, &marks, judgement, out, sink);
}

fn put_csv_row<K: Sink>(
    user: &[u8],
    all_plain: bool,
    judgement: &Judgement,
    out: &mut OutputBuffer,
    sink: &mut K,
)
    requires plain { all_plain ≡ list_all is_plain user.now }
    ensures puts { Puts (K.written sink.old) (K.written sink.new) (K.faults sink.old) (K.faults sink.new) out.old out.new
        (csv_row user.now judgement.now) }
{
    let marks = Marks {
        before: b"\",",
        scheme_end: b",\"",
        cost_end: b"\",",
        end: b"\n",
    };
    out.put(sink, b"\"");
    out.put(sink, apostrophe(user));
    put_text(Format::Csv, user, all_plain, out, sink);
    put_cells(Format::Csv, &marks, judgement, out, sink);
}

// What ends an object.
fn weak_end(judgement: &Judgement) -> &'static [u8]
    ensures { result.now ≡ weak_end judgement.now }
{
    match judgement {
        Judgement::Weak(_, _) => b"\",\"weak\":true}\n",
        _ => b"\",\"weak\":false}\n",
    }
}

fn put_json_row<K: Sink>(
    user: &[u8],
    all_plain: bool,
    judgement: &Judgement,
    out: &mut OutputBuffer,
    sink: &mut K,
)
    requires plain { all_plain ≡ list_all is_plain user.now }
    ensures puts { Puts (K.written sink.old) (K.written sink.new) (K.faults sink.old) (K.faults sink.new) out.old out.new
        (json_row user.now judgement.now) }
{
    let marks = Marks {
        before: b"\",\"scheme\":",
        scheme_end: b",\"cost\":",
        cost_end: b",\"judgement\":\"",
        end: weak_end(judgement),
    };
    out.put(sink, b"{\"user\":\"");
    put_text(Format::Json, user, all_plain, out, sink);
    put_cells(Format::Json, &marks, judgement, out, sink);
}

/// Puts the row of a user, of whom it is known whether each form shows each byte as it is.
pub(crate) fn put_row<K: Sink>(
    format: Format,
    user: &[u8],
    all_plain: bool,
    judgement: &Judgement,
    out: &mut OutputBuffer,
    sink: &mut K,
)
    requires plain { all_plain ≡ list_all is_plain user.now }
    ensures puts { Puts (K.written sink.old) (K.written sink.new) (K.faults sink.old) (K.faults sink.new) out.old out.new
        (row_text format user.now judgement.now) }
{
    match format {
        Format::Tabs => put_tabs_row(user, all_plain, judgement, out, sink),
        Format::Csv => put_csv_row(user, all_plain, judgement, out, sink),
        Format::Json => put_json_row(user, all_plain, judgement, out, sink),
    }
}

/// Whether the account is locked or nothing of its text is weak.
pub(crate) fn is_good(judgement: &Judgement) -> bool
    ensures { result ≡ is_good judgement.now }
{
    matches!(judgement, Judgement::Strong(_) | Judgement::Locked)
}

fn header(format: Format) -> &'static [u8]
    ensures { result.now ≡ header_text format }
{
    match format {
        Format::Csv => b"user,scheme,cost,judgement\n",
        Format::Tabs | Format::Json => b"",
    }
}

/// Puts what is before the first row, where no line was read yet.
pub(crate) fn put_front<K: Sink>(
    has_begun: bool,
    format: Format,
    out: &mut OutputBuffer,
    sink: &mut K,
)
    ensures puts { Puts (K.written sink.old) (K.written sink.new) (K.faults sink.old) (K.faults sink.new) out.old out.new
        (front_text has_begun format) }
{
    if has_begun {
        return;
    }
    out.put(sink, header(format));
}

/// Puts the counts, where the form is for people.
pub(crate) fn put_counts<K: Sink>(
    format: Format,
    counts: &Counts,
    out: &mut OutputBuffer,
    sink: &mut K,
)
    ensures puts { Puts (K.written sink.old) (K.written sink.new) (K.faults sink.old) (K.faults sink.new) out.old out.new
        (counts_text format counts.now) }
{
    match format {
        Format::Tabs => {
            out.put(sink, b"\n");
            put_totals(counts, out, sink);
        }
        Format::Csv | Format::Json => {}
    }
}
