//! The parameters of the texts `$y$` and `$7$`.

ghost use Rattle.std.specs.Prelude.{◌≡◌, ◌+◌, ◌*◌, ◌^◌, ◌<◌, ◌≤◌, ◌++◌, length, IfOk, IfSome, true};
ghost use Rattle.yescrypt_plain.specs.Params.{exceeds_memory, in_bounds, is_cost, is_scrypt_cost, named_fault, named_params};
ghost use Rattle.yescrypt_plain.specs.Params.{named_scrypt_params, scrypt_exceeds_memory, scrypt_fault, scrypt_in_bounds};
ghost use Rattle.yescrypt_plain.specs.Params.{scrypt_params, scrypt_params_text, yescrypt_params, yescrypt_params_text};

use crate::TextFault;
use crate::number::{character, five, five_text, named, number, push_number, short_value};
use pieces::short_bytes::ShortBytes;

/// The costs of yescrypt.
#[derive(Clone, Copy, Debug, PartialEq, Eq)]
pub struct YescryptParams {
    /// The binary logarithm of N, the number of rows of the table.
    pub ln: u32,
    /// The size of a row, in 128 bytes.
    pub r: u32,
    /// The time: how many more turns than the default are made over the table; 0 where a text names none.
    pub t: u32,
}

/// The costs of scrypt.
#[derive(Clone, Copy, Debug, PartialEq, Eq)]
pub struct ScryptParams {
    /// The binary logarithm of N, the number of rows of the table.
    pub ln: u32,
    /// The size of a row, in 128 bytes.
    pub r: u32,
    /// The parallelism: the number of parts.
    pub p: u32,
}

// The parameters of a field of a text `$y$`, as they stand there.
#[derive(Clone, Copy)]
struct NamedParams {
    // Which of the algorithms: 0 scrypt, 1 scrypt with small changes, from 2 on yescrypt with flags.
    flavor: u64,
    ln: u64,
    r: u64,
    // 1 where the field names none.
    p: u64,
    // 0 where the field names none.
    t: u64,
    // The upgrades; 0 where the field names none.
    g: u64,
    // The binary logarithm of the rows of a ROM; 0 where the field names none.
    rom: u64,
}

// The parameters of a field of a text `$y$`, as they stand there. None where it is no field of such numbers.
#[tactic(auto, unfolding(crate::specs::Params::named_params))]
fn named_params(text: &[u8]) -> Option<NamedParams>
    ensures { result ≡ named_params text.now }
{
    let flavor = number(text, 0, 0)?;
    let ln = number(text, flavor.next, 1)?;
    let r = number(text, ln.next, 1)?;
    let have = named(text, r.next, r.next < text.len(), 1, 0)?;
    let p = named(text, have.next, have.value % 2 == 1, 2, 1)?;
    let t = named(text, p.next, have.value / 2 % 2 == 1, 1, 0)?;
    let g = named(text, t.next, have.value / 4 % 2 == 1, 1, 0)?;
    let rom = named(text, g.next, have.value / 8 % 2 == 1, 1, 0)?;
    if rom.next != text.len() || have.value >= 16 {
        return None;
    }
    Some(NamedParams {
        flavor: flavor.value,
        ln: ln.value,
        r: r.value,
        p: p.value,
        t: t.value,
        g: g.value,
        rom: rom.value,
    })
}

// Whether the table has more bytes than this crate takes.
fn exceeds_memory(ln: u64, r: u64) -> bool
    ensures { result ≡ exceeds_memory ln r }
{
    24 < ln || 1 << 19 <= r || 1 << 30 < 128 * r * (1 << ln)
}

// Whether the other costs are taken.
fn is_cost(ln: u64, r: u64, t: u64) -> bool
    ensures { result ≡ is_cost ln r t }
{
    2 <= ln && 1 <= r && t <= 1024
}

/// Whether these costs are taken: at least four rows, of 128 bytes or more and below 2^26, a table of at most 2^30 bytes,
/// and a time of at most 1,024.
pub fn in_bounds(params: YescryptParams) -> bool
    ensures { result ≡ in_bounds params }
{
    !exceeds_memory(params.ln as u64, params.r as u64)
        && is_cost(params.ln as u64, params.r as u64, params.t as u64)
}

// The first cause that the parameters of a field are not taken.
fn named_fault(params: &NamedParams) -> Option<TextFault>
    ensures { result ≡ named_fault params.now }
{
    if params.flavor != 47 {
        return Some(TextFault::Flavor);
    }
    if params.p != 1 {
        return Some(TextFault::Parallelism);
    }
    if params.g != 0 {
        return Some(TextFault::Upgrades);
    }
    if params.rom != 0 {
        return Some(TextFault::Rom);
    }
    if exceeds_memory(params.ln, params.r) {
        return Some(TextFault::Memory);
    }
    if !is_cost(params.ln, params.r, params.t) {
        return Some(TextFault::Cost);
    }
    None
}

/// The costs that the parameter field of a text `$y$` names, or its first fault from `Params` on.
#[tactic(auto, unfolding(crate::specs::Params::yescrypt_params))]
pub fn read_yescrypt_params(text: &[u8]) -> Result<YescryptParams, TextFault>
    ensures params { result ≡ yescrypt_params text.now }
    ensures bounds { IfOk result (λ params. in_bounds params ≡ true) }
{
    let Some(params) = named_params(text) else {
        return Err(TextFault::Params);
    };
    match named_fault(&params) {
        Some(fault) => Err(fault),
        None => Ok(YescryptParams {
            ln: params.ln as u32,
            r: params.r as u32,
            t: params.t as u32,
        }),
    }
}

/// Appends the one parameter field that names these costs.
pub(crate) fn push_yescrypt_params<const N: usize>(text: &mut ShortBytes<N>, params: YescryptParams)
    requires bounds { in_bounds params ≡ true }
    requires room { length text.old + 20 ≤ N }
    ensures appended { text.new ≡ text.old ++ yescrypt_params_text params }
    ensures len { length text.new ≤ length text.old + 20 }
{
    push_number(text, 47);
    push_number(text, params.ln - 1);
    push_number(text, params.r - 1);
    if params.t != 0 {
        push_number(text, 1);
        push_number(text, params.t - 1);
    }
}

/// The one parameter field that names these costs.
pub fn yescrypt_params_text(params: YescryptParams) -> ShortBytes<20>
    requires bounds { in_bounds params ≡ true }
    ensures { result ≡ yescrypt_params_text params }
{
    let mut text = ShortBytes::new();
    push_yescrypt_params(&mut text, params);
    text
}

// The parameters of a text `$7$`, before its salt. None where the text has none.
#[tactic(auto, unfolding(crate::specs::Params::named_scrypt_params))]
fn named_scrypt_params(text: &[u8]) -> Option<ScryptParams>
    ensures value { result ≡ named_scrypt_params text.now }
    ensures room { IfSome result (λ _. 11 ≤ length text.now) }
{
    if text.len() < 11 {
        return None;
    }
    let ln = short_value(text[0])?;
    let r = five(text, 1)?;
    let p = five(text, 6)?;
    Some(ScryptParams { ln, r, p })
}

// Whether the table has more bytes than this crate takes.
fn scrypt_exceeds_memory(ln: u32, r: u32) -> bool
    ensures { result ≡ scrypt_exceeds_memory ln r }
{
    24 < ln || 1 << 30 < 128 * r as u64 * (1 << ln as u64)
}

// Whether the other costs are taken.
fn is_scrypt_cost(ln: u32, r: u32, p: u32) -> bool
    ensures { result ≡ is_scrypt_cost ln r p }
{
    2 <= ln
        && (ln as u64) < 16 * r as u64
        && 1 <= r
        && 1 <= p
        && p <= 1024
        && r as u64 * p as u64 <= 131_072
}

/// Whether these costs are taken: those of RFC 7914 with at least four rows, a table of at most 2^30 bytes, and at most 1,024
/// parts that have at most 2^24 bytes together.
pub fn scrypt_in_bounds(params: ScryptParams) -> bool
    ensures { result ≡ scrypt_in_bounds params }
{
    !scrypt_exceeds_memory(params.ln, params.r) && is_scrypt_cost(params.ln, params.r, params.p)
}

// The first cause that the parameters of a text are not taken.
fn scrypt_fault(params: ScryptParams) -> Option<TextFault>
    ensures { result ≡ scrypt_fault params }
{
    if scrypt_exceeds_memory(params.ln, params.r) {
        return Some(TextFault::Memory);
    }
    if !is_scrypt_cost(params.ln, params.r, params.p) {
        return Some(TextFault::Cost);
    }
    None
}

/// The costs that the first eleven characters of a text name, or their first fault from `Params` on.
#[tactic(auto, unfolding(crate::specs::Params::scrypt_params))]
pub fn read_scrypt_params(text: &[u8]) -> Result<ScryptParams, TextFault>
    ensures params { result ≡ scrypt_params text.now }
    ensures bounds { IfOk result (λ params. scrypt_in_bounds params ≡ true) }
    ensures room { IfOk result (λ _. 11 ≤ length text.now) }
{
    let Some(params) = named_scrypt_params(text) else {
        return Err(TextFault::Params);
    };
    match scrypt_fault(params) {
        Some(fault) => Err(fault),
        None => Ok(params),
    }
}

/// The eleven characters that name these costs.
#[tactic(auto, unfolding(crate::specs::Params::scrypt_params_text))]
pub fn scrypt_params_text(params: ScryptParams) -> ShortBytes<11>
    requires bounds { scrypt_in_bounds params ≡ true }
    ensures { result ≡ scrypt_params_text params }
{
    let mut text = ShortBytes::from_slice(&[character(params.ln)]);
    text.push_all(&five_text(params.r));
    text.push_all(&five_text(params.p));
    text
}
