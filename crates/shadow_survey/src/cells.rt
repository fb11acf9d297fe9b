//! The cells of a row.

ghost use Rattle.std.specs.Prelude.{◌≡◌, ◌+◌, ◌≤◌, ◌++◌, [], codes, decimal, length};
ghost use Rattle.scheme_list.specs.Schemes.{row_of};
ghost use Rattle.shadow_survey.specs.Cells.{name_text, nothing, numbers_text, one, three, turns, weakness_text};

use crate::least::{Weakness, memory};
use any_check::{CostFamily, Costs, Scheme, TextCosts};
use pieces::short_bytes::ShortBytes;

/// The form in which a survey is written.
#[derive(Clone, Copy, Debug, PartialEq, Eq)]
pub enum Format {
    /// For people: cells with tabs between them, and how many of each after the rows.
    Tabs,
    /// For spreadsheets: a line of names, and then four fields a line.
    Csv,
    /// For other programs: an object a line.
    Json,
}

/// What a cell of a row holds.
pub(crate) type Cell = ShortBytes<96>;

impl Format {
    /// What a cell has where there is nothing to tell.
    pub(crate) fn nothing(self) -> &'static [u8]
        ensures text { result.now ≡ nothing self }
        ensures short { length result.now ≤ 4 }
    {
        match self {
            Format::Tabs => b"-",
            Format::Csv => b"",
            Format::Json => b"null",
        }
    }
}

// Pushes a number, which has at most 20 digits.
fn push_number(cell: &mut Cell, n: u64)
    requires room { length cell.old ≤ 76 }
    ensures pushed { cell.new ≡ cell.old ++ decimal n }
    ensures length { length cell.new ≤ length cell.old + 20 }
{
    cell.push_decimal(n);
}

// Pushes a number after its key.
fn push_keyed(cell: &mut Cell, key: &[u8], n: u64)
    requires room { length cell.old ≤ 66 }
    requires key { length key.now ≤ 10 }
    ensures pushed { cell.new ≡ (cell.old ++ key.now) ++ decimal n }
    ensures length { length cell.new ≤ length cell.old + length key.now + 20 }
{
    cell.push_all(key);
    push_number(cell, n);
}

// Pushes a number after its key, and what ends the cell.
fn push_one(cell: &mut Cell, key: &[u8], x: u64, end: &[u8])
    requires none { cell.old ≡ [] }
    requires key { length key.now ≤ 10 }
    requires end { length end.now ≤ 1 }
    ensures { cell.new ≡ (key.now ++ decimal x) ++ end.now }
{
    push_keyed(cell, key, x);
    cell.push_all(end);
}

// Pushes three numbers, each after its key, and what ends the cell.
fn push_three(cell: &mut Cell, a: &[u8], x: u64, b: &[u8], y: u64, c: &[u8], z: u64, end: &[u8])
    requires none { cell.old ≡ [] }
    requires a { length a.now ≤ 6 }
    requires b { length b.now ≤ 5 }
    requires c { length c.now ≤ 5 }
    requires end { length end.now ≤ 1 }
    ensures { cell.new ≡ (((((a.now ++ decimal x) ++ b.now) ++ decimal y) ++ c.now) ++ decimal z) ++ end.now }
{
    push_keyed(cell, a, x);
    push_keyed(cell, b, y);
    push_keyed(cell, c, z);
    cell.push_all(end);
}

fn push_rounds(cell: &mut Cell, format: Format, n: u64)
    requires none { cell.old ≡ [] }
    ensures { cell.new ≡ one format (codes "rounds") n }
{
    match format {
        Format::Tabs | Format::Csv => push_one(cell, b"rounds=", n, b""),
        Format::Json => push_one(cell, b"{\"rounds\":", n, b"}"),
    }
}

fn push_cost(cell: &mut Cell, format: Format, n: u64)
    requires none { cell.old ≡ [] }
    ensures { cell.new ≡ one format (codes "cost") n }
{
    match format {
        Format::Tabs | Format::Csv => push_one(cell, b"cost=", n, b""),
        Format::Json => push_one(cell, b"{\"cost\":", n, b"}"),
    }
}

fn push_ln_r_t(cell: &mut Cell, format: Format, ln: u64, r: u64, t: u64)
    requires none { cell.old ≡ [] }
    ensures { cell.new ≡ three format (codes "ln") ln (codes "r") r (codes "t") t }
{
    match format {
        Format::Tabs | Format::Csv => push_three(cell, b"ln=", ln, b",r=", r, b",t=", t, b""),
        Format::Json => push_three(cell, b"{\"ln\":", ln, b",\"r\":", r, b",\"t\":", t, b"}"),
    }
}

fn push_ln_r_p(cell: &mut Cell, format: Format, ln: u64, r: u64, p: u64)
    requires none { cell.old ≡ [] }
    ensures { cell.new ≡ three format (codes "ln") ln (codes "r") r (codes "p") p }
{
    match format {
        Format::Tabs | Format::Csv => push_three(cell, b"ln=", ln, b",r=", r, b",p=", p, b""),
        Format::Json => push_three(cell, b"{\"ln\":", ln, b",\"r\":", r, b",\"p\":", p, b"}"),
    }
}

fn push_m_t_p(cell: &mut Cell, format: Format, m: u64, t: u64, p: u64)
    requires none { cell.old ≡ [] }
    ensures { cell.new ≡ three format (codes "m") m (codes "t") t (codes "p") p }
{
    match format {
        Format::Tabs | Format::Csv => push_three(cell, b"m=", m, b",t=", t, b",p=", p, b""),
        Format::Json => push_three(cell, b"{\"m\":", m, b",\"t\":", t, b",\"p\":", p, b"}"),
    }
}

/// Pushes the numbers by their names. A cell is written in place, since a copy of bytes that were just written is slow.
pub(crate) fn push_numbers(cell: &mut Cell, format: Format, family: CostFamily, costs: &Costs)
    requires none { cell.old ≡ [] }
    ensures { cell.new ≡ numbers_text format family costs.now }
{
    match family {
        CostFamily::NoNumber => cell.push_all(format.nothing()),
        CostFamily::ShaCrypt | CostFamily::Pbkdf2Sha256 | CostFamily::Pbkdf2Sha512 => {
            push_rounds(cell, format, costs.rounds)
        }
        CostFamily::Bcrypt => push_cost(cell, format, costs.cost),
        CostFamily::Yescrypt => push_ln_r_t(cell, format, costs.ln, costs.r, costs.t),
        CostFamily::Scrypt => push_ln_r_p(cell, format, costs.ln, costs.r, costs.p),
        CostFamily::Argon2 => push_m_t_p(cell, format, costs.m, costs.t, costs.p),
    }
}

/// The name of a scheme as a string of JSON.
pub(crate) fn quoted_name(scheme: Scheme) -> Cell
    ensures { result ≡ name_text Format.Json (row_of scheme).name }
{
    let mut cell = ShortBytes::from_slice(b"\"");
    cell.push_all(scheme.name().as_bytes());
    cell.push_all(b"\"");
    cell
}

// Pushes a text and a number.
fn push_numbered(cell: &mut Cell, text: &[u8], n: u64)
    requires none { cell.old ≡ [] }
    requires short { length text.now ≤ 30 }
    ensures text { cell.new ≡ text.now ++ decimal n }
    ensures length { length cell.new ≤ 50 }
{
    cell.push_all(text);
    push_number(cell, n);
}

// Pushes the same and another text.
fn push_numbered_before(cell: &mut Cell, text: &[u8], n: u64, end: &[u8])
    requires none { cell.old ≡ [] }
    requires short { length text.now ≤ 30 }
    requires end { length end.now ≤ 10 }
    ensures text { cell.new ≡ (text.now ++ decimal n) ++ end.now }
{
    push_numbered(cell, text, n);
    cell.push_all(end);
}

// Pushes how often the memory is gone through.
fn push_turns(cell: &mut Cell, family: CostFamily, costs: &Costs)
    requires none { cell.old ≡ [] }
    ensures text { cell.new ≡ turns family costs.now }
    ensures length { length cell.new ≤ 50 }
{
    match family {
        CostFamily::Argon2 => push_numbered(cell, b"weak: t=", costs.t),
        _ => push_numbered(cell, b"weak: p=", costs.p),
    }
}

fn push_weak_work(cell: &mut Cell, family: CostFamily, costs: &Costs, memory: u64)
    requires none { cell.old ≡ [] }
    ensures { cell.new ≡ ((turns family costs.now ++ codes " over ") ++ decimal memory) ++ codes " KiB" }
{
    push_turns(cell, family, costs);
    cell.push_all(b" over ");
    push_number(cell, memory);
    cell.push_all(b" KiB");
}

fn push_named(cell: &mut Cell, text: &[u8], name: &str)
    requires none { cell.old ≡ [] }
    requires short { length text.now ≤ 30 }
    requires name { length name.now ≤ 30 }
    ensures { cell.new ≡ text.now ++ name.now }
{
    cell.push_all(text);
    cell.push_all(name.as_bytes());
}

/// Pushes what is weak of a text.
pub(crate) fn push_weakness(cell: &mut Cell, what: Weakness, text: &TextCosts)
    requires none { cell.old ≡ [] }
    ensures { cell.new ≡ weakness_text what text.now }
{
    let family = text.scheme.family();
    let costs = &text.costs;
    match what {
        Weakness::Scheme => push_named(cell, b"weak: ", text.scheme.name()),
        Weakness::Rounds => push_numbered_before(cell, b"weak: ", costs.rounds, b" rounds"),
        Weakness::Cost => push_numbered(cell, b"weak: cost ", costs.cost),
        Weakness::Memory => {
            push_numbered_before(cell, b"weak: ", memory(family, costs), b" KiB")
        }
        Weakness::Work => push_weak_work(cell, family, costs, memory(family, costs)),
    }
}
